//! The lines of a model text, one after another.
ghost use Rattle.std.specs.Prelude.{◌≡◌, ◌≤◌, length};
ghost use Rattle.text.specs.Pieces.{pieces};
ghost use Rattle.text.specs.Words.{words_left};
ghost use Rattle.reading.specs.Lines.{ended, process_entry, first_line};
ghost use Rattle.reading.specs.Readings.{NodeRead, FlowRead, LineRead, LinesRead, BodyRead, DraftRead, DraftWritten};

use crate::fields::{guard_field, kind_field, number_field};
use fault::line::LineFault;
use process::draft::Draft;
use text::check::check_text;
use text::pieces::cut_at;
use text::words::{Keyword, Rest, Word};

/// The lines of the text, without the line feed after the last of them. Refused if the bytes are no text.
pub(crate) fn body(text: &[u8]) -> Result<&[u8], LineFault>
    ensures { BodyRead text.now result }
{
    check_text(text)?;
    Ok(&text[..text.len() - 1])
}

/// Refuses a line of which some word is left.
pub(crate) fn end_of_line(rest: Rest<'_>) -> Result<(), LineFault>
    ensures { result ≡ ended rest.entry.line (words_left rest.entry) }
{
    if rest.is_done() {
        Ok(())
    } else {
        Err(LineFault::Form { line: rest.line })
    }
}

// What follows `process` in a line.
fn process_entry(rest: Rest<'_>) -> Result<u16, LineFault>
    ensures { result ≡ process_entry rest.entry.line (words_left rest.entry) }
{
    let number = number_field(rest)?;
    end_of_line(number.rest)?;
    number.value
}

// The first line: `process` and its number. It matches its keyword itself, as `order_line` does: one function for both
// would be no plainer, since its contract would have to tell the keywords apart.
fn first_line(rest: Rest<'_>) -> Result<u16, LineFault>
    ensures { result ≡ first_line rest.entry.line (words_left rest.entry) }
{
    match rest.next() {
        Some((Word::Keyword(Keyword::Process, _), rest)) => process_entry(rest),
        _ => Err(LineFault::Form { line: rest.line }),
    }
}

// What follows `node` in a line.
fn node_line(draft: &mut Draft, rest: Rest<'_>) -> Result<(), LineFault>
    ensures { NodeRead draft.old rest.entry.line (words_left rest.entry) result draft.new }
{
    let number = number_field(rest)?;
    let kind = kind_field(number.rest)?;
    end_of_line(kind.rest)?;
    draft.add_node(rest.line, number.value?, kind.value?)
}

// What follows `flow` in a line.
fn flow_line(draft: &mut Draft, rest: Rest<'_>) -> Result<(), LineFault>
    ensures { FlowRead draft.old rest.entry.line (words_left rest.entry) result draft.new }
{
    let number = number_field(rest)?;
    let from = number_field(number.rest)?;
    let to = number_field(from.rest)?;
    let guard = guard_field(to.rest)?;
    end_of_line(guard.rest)?;
    draft.add_flow(
        rest.line,
        number.value?,
        from.value?,
        to.value?,
        guard.value?,
    )
}

// A line after the first. A node may stand only before the first flow.
fn later_line(draft: &mut Draft, rest: Rest<'_>) -> Result<(), LineFault>
    ensures { LineRead draft.old rest.entry.line (words_left rest.entry) result draft.new }
{
    match rest.next() {
        Some((Word::Keyword(Keyword::Node, _), after)) if draft.flows().is_empty() => {
            node_line(draft, after)
        }
        Some((Word::Keyword(Keyword::Flow, _), after)) => flow_line(draft, after),
        _ => Err(LineFault::Form { line: rest.line }),
    }
}

// The lines after the first, of which the draft takes each in its turn.
fn later_lines(draft: &mut Draft, lines: &[u8]) -> Result<(), LineFault>
    requires { length lines.now ≤ 16384 }
    ensures { LinesRead draft.old (pieces 10 lines.entry.now) result draft.new }
{
    for (index, bytes) in lines.split(|byte| *byte == b'\n').enumerate() {
        later_line(draft, Rest::new(bytes, index + 2))?;
    }
    Ok(())
}

// The text as a whole, its first line, and then the others.
fn read_lines(text: &[u8]) -> Result<Draft, LineFault>
    ensures { DraftRead text.now result }
{
    let cut = cut_at(body(text)?, b'\n');
    let number = first_line(Rest::new(cut.first, 1))?;
    let mut draft = Draft::new(1, number)?;
    if let Some(lines) = cut.rest {
        later_lines(&mut draft, lines)?;
    }
    Ok(draft)
}

/// The process that the text describes. Refused exactly if the text is the writing of no process.
pub fn read_process(text: &[u8]) -> Result<Draft, LineFault>
    ensures read { DraftRead text.now result }
    ensures writing { DraftWritten text.now result }
{
    read_lines(text)
}
