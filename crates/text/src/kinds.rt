//! Which word some bytes are.
ghost use Rattle.std.specs.Prelude.{◌≡◌, IfSome};
ghost use Rattle.std.specs.Option.{option_map};
ghost use Rattle.text.specs.Words.{spelling, keyword_of, operator_of, word_of, bytes as bytes_of, line as line_of, plain};

use crate::numbers::{is_figure, is_number};
use crate::words::{Keyword, Part, Word};
use process::flow::Operator;

/// Every keyword.
const KEYWORDS: [Keyword; 12] = [
    Keyword::Process,
    Keyword::Node,
    Keyword::Flow,
    Keyword::Start,
    Keyword::End,
    Keyword::Xor,
    Keyword::And,
    Keyword::Or,
    Keyword::Task,
    Keyword::Default,
    Keyword::If,
    Keyword::Answer,
];

/// How the keyword is written.
fn spelling(keyword: Keyword) -> &'static [u8]
    ensures { result.now ≡ spelling keyword }
{
    match keyword {
        Keyword::Process => b"process",
        Keyword::Node => b"node",
        Keyword::Flow => b"flow",
        Keyword::Start => b"start",
        Keyword::End => b"end",
        Keyword::Xor => b"xor",
        Keyword::And => b"and",
        Keyword::Or => b"or",
        Keyword::Task => b"task",
        Keyword::Default => b"default",
        Keyword::If => b"if",
        Keyword::Answer => b"answer",
    }
}

/// The keyword that the bytes spell.
pub fn keyword(bytes: &[u8]) -> Option<Keyword>
    ensures { result ≡ keyword_of bytes.now }
{
    // No `find`: with it the largest order text took 1.6 times the instructions, since only this loop is unrolled.
    for keyword in KEYWORDS {
        if bytes == spelling(keyword) {
            return Some(keyword);
        }
    }
    None
}

/// The operator that the bytes are.
#[tactic(auto, using(crate::proofs::Operators::by_length))]
pub fn operator(bytes: &[u8]) -> Option<Operator>
    ensures { result ≡ operator_of bytes.now }
{
    match bytes {
        [a] => match *a as char {
            '<' => Some(Operator::Less),
            '=' => Some(Operator::Equal),
            '>' => Some(Operator::Greater),
            _ => None,
        },
        [a, b] => match (*a as char, *b as char) {
            ('<', '=') => Some(Operator::AtMost),
            ('<', '>') => Some(Operator::NotEqual),
            ('>', '=') => Some(Operator::AtLeast),
            _ => None,
        },
        _ => None,
    }
}

/// The word that the part of the text is.
#[tactic(auto, unfolding(crate::specs::Words::word_of))]
pub fn classify<'a>(part: Part<'a>) -> Option<Word<'a>>
    ensures kind { option_map plain result ≡ word_of part.entry.bytes.now }
    ensures place { IfSome result (λ w. (bytes_of w ≡ part.entry.bytes.now) × (line_of w ≡ part.entry.line)) }
{
    if let Some(keyword) = keyword(part.bytes) {
        return Some(Word::Keyword(keyword, part));
    }
    if is_number(part.bytes) {
        return Some(Word::Number(part));
    }
    if is_figure(part.bytes) {
        return Some(Word::Figure(part));
    }
    let operator = operator(part.bytes)?;
    Some(Word::Operator(operator, part))
}
