//! The lines of an order text, one after another.
ghost use Rattle.std.specs.Prelude.{◌≡◌, ◌+◌, ◌*◌, ◌≤◌, length};
ghost use Rattle.process.specs.Rows.{items};
ghost use Rattle.text.specs.Pieces.{pieces};
ghost use Rattle.text.specs.Words.{words_left};
ghost use Rattle.reading.specs.Orders.{order_entry, order_line, OrderLinesRead, OrderRead, OrderWritten};

use crate::fields::{node_field, value_field};
use crate::lines::{body, end_of_line};
use fault::line::LineFault;
use process::row::Row;
use text::words::{Keyword, Rest, Word};

/// The most lines of an order text. A line has at least 11 bytes, so no text that is read has more.
pub const MOST_LINES: usize = 1489;

/// A line of an order text: an answer with this value for this node.
#[derive(Clone, Copy, PartialEq, Eq, Debug)]
pub struct OrderLine {
    pub node: u16,
    pub value: i32,
}

// What follows `answer` in a line.
fn order_entry(rest: Rest<'_>) -> Result<OrderLine, LineFault>
    ensures { result ≡ order_entry rest.entry.line (words_left rest.entry) }
{
    let node = node_field(rest)?;
    let value = value_field(node.rest)?;
    end_of_line(value.rest)?;
    Ok(OrderLine {
        node: node.value?,
        value: value.value?,
    })
}

// One line. It matches its keyword itself, as `first_line` does.
fn order_line(rest: Rest<'_>) -> Result<OrderLine, LineFault>
    ensures { result ≡ order_line rest.entry.line (words_left rest.entry) }
{
    match rest.next() {
        Some((Word::Keyword(Keyword::Answer, _), rest)) => order_entry(rest),
        _ => Err(LineFault::Form { line: rest.line }),
    }
}

// All lines, each put behind those before it.
fn order_lines(lines: &mut Row<OrderLine, MOST_LINES>, text: &[u8]) -> Result<(), LineFault>
    requires { 11 * length (items lines.old) + length text.now + 1 ≤ 16384 }
    ensures { OrderLinesRead lines.old (pieces 10 text.now) result lines.new }
{
    for (index, bytes) in text.split(|byte| *byte == b'\n').enumerate() {
        let order = order_line(Rest::new(bytes, index + 1))?;
        lines.push(order);
    }
    Ok(())
}

// The text as a whole, and then its lines.
fn read_lines(text: &[u8]) -> Result<Row<OrderLine, MOST_LINES>, LineFault>
    ensures { OrderRead text.now result }
{
    let body = body(text)?;
    let mut lines = Row::new(OrderLine { node: 0, value: 0 });
    order_lines(&mut lines, body)?;
    Ok(lines)
}

/// The lines of the order text. Refused exactly if the text is the writing of no such lines.
pub fn read_order(text: &[u8]) -> Result<Row<OrderLine, MOST_LINES>, LineFault>
    ensures read { OrderRead text.now result }
    ensures writing { OrderWritten text.now result }
{
    read_lines(text)
}
