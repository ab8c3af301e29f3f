//! What stands at one place of a line, word by word.
ghost use Rattle.std.specs.Prelude.{◌≡◌, ◌≤ℤ◌, drop, IfOk};
ghost use Rattle.reading.specs.Fields.{FieldRead, IsField, ranged, counted, counted_field, number_field, figure_field, field, as_operator, as_value, as_kind, guard_field, task_kind, condition, condition_value};

use fault::line::LineFault;
use process::flow::{Condition, Guard, Operator};
use process::node::Kind;
use text::numbers::number;
use text::words::{Keyword, Part, Rest, Word};

/// What a line says at one place, and what is left of the line after it. A number that is badly written or out of its
/// range is kept as a fault: it counts only once the whole line has a form.
#[derive(Drop)]
pub(crate) struct Field<'a, T> {
    pub(crate) value: Result<T, LineFault>,
    pub(crate) rest: Rest<'a>,
}

// The number from `low` to `high` that the part of the text writes.
fn ranged(part: Part<'_>, low: i32, high: i32) -> Result<i32, LineFault>
    ensures value { result ≡ ranged part.entry.line low high part.entry.bytes.now }
    ensures within { IfOk result (λ v. (low ≤ℤ v) × (v ≤ℤ high)) }
{
    number(part.bytes, low, high).ok_or(LineFault::Number { line: part.line })
}

// The number from 1 to `high` that the part of the text writes.
fn counted(part: Part<'_>, high: u16) -> Result<u16, LineFault>
    ensures { result ≡ counted part.entry.line high part.entry.bytes.now }
{
    // from 1 to `high`: the cast is proved to lose nothing
    ranged(part, 1, i32::from(high)).map(|value| value as u16)
}

// What follows the first byte.
fn after_first(bytes: &[u8]) -> &[u8]
    ensures { result.now ≡ drop 1 bytes.now }
{
    match bytes {
        [] => bytes,
        [_, rest @ ..] => rest,
    }
}

// The number of a figure that the part of the text writes after its `v`.
fn figure(part: Part<'_>) -> Result<u8, LineFault>
    ensures { result ≡ counted part.entry.line 16 (drop 1 part.entry.bytes.now) }
{
    let digits = Part {
        bytes: after_first(part.bytes),
        ..part
    };
    // from 1 to 16: the cast is proved to lose nothing
    ranged(digits, 1, 16).map(|value| value as u8)
}

// The next word, where `read` takes a word of its kind.
fn field_by<'a, T: Drop, F: FnOnce(Word<'a>) -> Option<Result<T, LineFault>>>(
    rest: Rest<'a>,
    read: F,
) -> Result<Field<'a, T>, LineFault>
    requires { F.IsAlwaysCallable read }
    ensures { FieldRead (F.post read) rest.entry result }
{
    let form = LineFault::Form { line: rest.line };
    let (word, rest) = rest.next().ok_or(form)?;
    let value = read(word).ok_or(form)?;
    Ok(Field { value, rest })
}

// A number from 1 to `high`.
fn counted_field<'a>(rest: Rest<'a>, high: u16) -> Result<Field<'a, u16>, LineFault>
    ensures { IsField (counted_field high) rest.entry result }
{
    field_by(rest, |word| match word {
        Word::Number(part) => Some(counted(part, high)),
        _ => None,
    })
}

/// The number of a process, a node or a flow.
pub(crate) fn number_field<'a>(rest: Rest<'a>) -> Result<Field<'a, u16>, LineFault>
    ensures { IsField number_field rest.entry result }
{
    counted_field(rest, 65_535)
}

/// The number of a node that some process has.
pub(crate) fn node_field<'a>(rest: Rest<'a>) -> Result<Field<'a, u16>, LineFault>
    ensures { IsField (counted_field 40) rest.entry result }
{
    counted_field(rest, 40)
}

// The number of a figure, after its `v`.
fn figure_field<'a>(rest: Rest<'a>) -> Result<Field<'a, u8>, LineFault>
    ensures { IsField figure_field rest.entry result }
{
    field_by(rest, |word| match word {
        Word::Figure(part) => Some(figure(part)),
        _ => None,
    })
}

// The operator between a figure and a value.
fn operator_field<'a>(rest: Rest<'a>) -> Result<Field<'a, Operator>, LineFault>
    ensures { IsField (field as_operator) rest.entry result }
{
    field_by(rest, |word| match word {
        Word::Operator(operator, _) => Some(Ok(operator)),
        _ => None,
    })
}

/// The value of a figure.
pub(crate) fn value_field<'a>(rest: Rest<'a>) -> Result<Field<'a, i32>, LineFault>
    ensures { IsField (field as_value) rest.entry result }
{
    field_by(rest, |word| match word {
        Word::Number(part) => Some(ranged(part, -1_000_000_000, 1_000_000_000)),
        _ => None,
    })
}

// The kind of a task: the figure that its answer sets follows.
fn task_kind<'a>(rest: Rest<'a>) -> Result<Field<'a, Kind>, LineFault>
    ensures { IsField task_kind rest.entry result }
{
    let figure = figure_field(rest)?;
    Ok(Field {
        value: figure.value.map(|figure| Kind::Task { figure }),
        rest: figure.rest,
    })
}

/// The kind of a node.
pub(crate) fn kind_field<'a>(rest: Rest<'a>) -> Result<Field<'a, Kind>, LineFault>
    ensures { IsField (field as_kind) rest.entry result }
{
    let Some((Word::Keyword(keyword, _), after)) = rest.next() else {
        return Err(LineFault::Form { line: rest.line });
    };
    let kind = match keyword {
        Keyword::Start => Kind::Start,
        Keyword::End => Kind::End,
        Keyword::Xor => Kind::Exclusive,
        Keyword::And => Kind::Parallel,
        Keyword::Or => Kind::Inclusive,
        Keyword::Task => return task_kind(after),
        _ => return Err(LineFault::Form { line: rest.line }),
    };
    Ok(Field {
        value: Ok(kind),
        rest: after,
    })
}

// The value of a condition: each of its parts, or the first fault among them.
fn condition_value(
    figure: Result<u8, LineFault>,
    operator: Result<Operator, LineFault>,
    value: Result<i32, LineFault>,
) -> Result<Guard, LineFault>
    ensures { result ≡ condition_value figure operator value }
{
    let condition = Condition {
        figure: figure?,
        operator: operator?,
        value: value?,
    };
    Ok(Guard::If(condition))
}

// The condition that follows an `if`.
fn condition<'a>(rest: Rest<'a>) -> Result<Field<'a, Guard>, LineFault>
    ensures { IsField condition rest.entry result }
{
    let figure = figure_field(rest)?;
    let operator = operator_field(figure.rest)?;
    let value = value_field(operator.rest)?;
    Ok(Field {
        value: condition_value(figure.value, operator.value, value.value),
        rest: value.rest,
    })
}

/// What a flow says of when it is taken.
pub(crate) fn guard_field<'a>(rest: Rest<'a>) -> Result<Field<'a, Guard>, LineFault>
    ensures { IsField guard_field rest.entry result }
{
    if rest.is_done() {
        return Ok(Field {
            value: Ok(Guard::Plain),
            rest,
        });
    }
    match rest.next() {
        Some((Word::Keyword(Keyword::Default, _), rest)) => Ok(Field {
            value: Ok(Guard::Default),
            rest,
        }),
        Some((Word::Keyword(Keyword::If, _), rest)) => condition(rest),
        _ => Err(LineFault::Form { line: rest.line }),
    }
}
