//! The words of a line. A word is a part of the text, and is known with its line.
ghost use Rattle.std.specs.Prelude.{◌≡◌, IfSome};
ghost use Rattle.std.specs.Option.{option_map};
ghost use Rattle.text.specs.Words.{line as line_of, plain, words_of, words_left, none_left, next_word};

use crate::kinds::classify;
use crate::pieces::cut_at;
use process::flow::Operator;

/// The words that are written out.
#[derive(Clone, Copy, PartialEq, Eq, Debug)]
pub enum Keyword {
    Process,
    Node,
    Flow,
    Start,
    End,
    Xor,
    And,
    Or,
    Task,
    Default,
    If,
    Answer,
}

/// A part of the text, and the number of its line, from 1.
#[derive(Clone, Copy)]
pub struct Part<'a> {
    pub bytes: &'a [u8],
    pub line: usize,
}

/// A word, by its kind, with its part of the text.
#[derive(Clone, Copy)]
pub enum Word<'a> {
    Keyword(Keyword, Part<'a>),
    Number(Part<'a>),
    Figure(Part<'a>),
    Operator(Operator, Part<'a>),
}

/// What is left of a line: `None` after its last word.
#[derive(Clone, Copy)]
pub struct Rest<'a> {
    pub bytes: Option<&'a [u8]>,
    pub line: usize,
}

impl<'a> Rest<'a> {
    /// The whole of a line.
    pub fn new(bytes: &'a [u8], line: usize) -> Rest<'a>
        ensures words { words_left result ≡ words_of bytes.now }
        ensures line { result.line ≡ line }
    {
        Rest {
            bytes: Some(bytes),
            line,
        }
    }

    /// Whether no word is left.
    pub fn is_done(&self) -> bool
        ensures { result ≡ none_left (words_left self.now) }
    {
        self.bytes.is_none()
    }

    /// Takes the next word off: `None` where no word is left, and where the next piece of the line is no word.
    pub fn next(self) -> Option<(Word<'a>, Rest<'a>)>
        ensures words { option_map (λ t. (plain t.0, words_left t.1)) result ≡ next_word (words_left self.entry) }
        ensures line { IfSome result (λ t. (line_of t.0 ≡ self.entry.line) × (t.1.line ≡ self.entry.line)) }
    {
        let cut = cut_at(self.bytes?, b' ');
        let word = classify(Part {
            bytes: cut.first,
            line: self.line,
        })?;
        let rest = Rest {
            bytes: cut.rest,
            line: self.line,
        };
        Some((word, rest))
    }
}
