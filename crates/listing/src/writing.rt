//! The pieces of a line: words, numbers and flows. Each is written into a buffer from a place, and tells where it ended.
ghost use Rattle.std.specs.Prelude.{◌≡◌, ◌+◌, ◌-◌, ◌*◌, ◌<◌, ◌≤◌, [], ◌∷◌, ◌++◌, length, codes, decimal};
ghost use Rattle.std.specs.Fmt.{signed_decimal};
ghost use Rattle.process.specs.Rows.{items};
ghost use Rattle.process.specs.Sets.{above};
ghost use Rattle.listing.specs.Writing.{Wrote};
ghost use Rattle.listing.specs.Lines.{after_commas, listed};

use process::draft::MOST_FLOWS;
use process::row::Row;
use process::sets::FlowSet;
use service::answer::Answer;

// Buffer and place are passed from call to call. A struct that held both would have to promise at each call that it still
// holds the same buffer, and say no more.

/// Writes the bytes of a text.
pub(crate) fn write_text(out: &mut [u8], place: usize, text: &[u8]) -> usize
    requires { place + length text.now ≤ length out.old }
    ensures { Wrote out.old place text.now out.new result }
{
    let end = place + text.len();
    out[place..end].copy_from_slice(text);
    end
}

// Writes one digit.
fn write_digit(out: &mut [u8], place: usize, digit: u8) -> usize
    requires small { digit < 10 }
    requires room { place < length out.old }
    ensures { Wrote out.old place ((48 + digit) ∷ []) out.new result }
{
    out[place] = b'0' + digit;
    place + 1
}

// Writes the digits of a number: those before the last are the digits of its tenth. By hand and not by std's Display,
// since the way that digits are made is to stand in one place here. Each cast is of a number below 10.
fn write_digits(out: &mut [u8], place: usize, number: u64) -> usize
    requires { place + length (decimal number) ≤ length out.old }
    ensures { Wrote out.old place (decimal number) out.new result }
{
    if number < 10 {
        return write_digit(out, place, number as u8);
    }
    let last = write_digits(out, place, number / 10);
    write_digit(out, last, (number % 10) as u8)
}

/// Writes a number. None has more than 20 digits.
pub(crate) fn write_number(out: &mut [u8], place: usize, number: u64) -> usize
    requires { place + 20 ≤ length out.old }
    ensures text { Wrote out.old place (decimal number) out.new result }
    ensures most { result ≤ place + 20 }
{
    write_digits(out, place, number)
}

/// Writes an answer, with a minus where it is negative.
pub(crate) fn write_answer(out: &mut [u8], place: usize, answer: Answer) -> usize
    requires { place + 21 ≤ length out.old }
    ensures text { Wrote out.old place (signed_decimal answer.value) out.new result }
    ensures most { result ≤ place + 21 }
{
    let size = u64::from(answer.value.unsigned_abs());
    if answer.value < 0 {
        let digits = write_text(out, place, b"-");
        return write_number(out, digits, size);
    }
    write_number(out, place, size)
}

// Writes a comma and a flow's number.
fn write_after_comma(out: &mut [u8], place: usize, flow: u8) -> usize
    requires { place + 1 + length (decimal flow) ≤ length out.old }
    ensures { Wrote out.old place (codes "," ++ decimal flow) out.new result }
{
    let digits = write_text(out, place, b",");
    write_digits(out, digits, u64::from(flow))
}

// Writes the flows of a list, each after a comma.
fn write_rest(out: &mut [u8], place: usize, flows: &[u8]) -> usize
    requires { place + length (after_commas flows.now) ≤ length out.old }
    ensures { Wrote out.old place (after_commas flows.now) out.new result }
{
    let mut end = place;
    for flow in flows {
        end = write_after_comma(out, end, *flow);
    }
    end
}

/// Writes the flows of a list in their order, with commas between them, or a minus where there is none.
pub(crate) fn write_list(out: &mut [u8], place: usize, flows: &[u8]) -> usize
    requires { place + length (listed flows.now) ≤ length out.old }
    ensures { Wrote out.old place (listed flows.now) out.new result }
{
    match flows {
        [] => write_text(out, place, b"-"),
        [first, rest @ ..] => {
            let end = write_digits(out, place, u64::from(*first));
            write_rest(out, end, rest)
        }
    }
}

// The flows of a set, lowest first, as a list.
fn list_of(set: FlowSet) -> Row<u8, MOST_FLOWS>
    ensures { items result ≡ above set 0 }
{
    let mut flows = Row::new(0);
    for flow in set.iter() {
        flows.push(flow);
    }
    flows
}

/// Writes the flows of a set, lowest first, with commas between them, or a minus where there is none. There are at most
/// 64, and each takes at most 3 bytes with its comma.
pub(crate) fn write_set(out: &mut [u8], place: usize, set: FlowSet) -> usize
    requires { place + 192 ≤ length out.old }
    ensures text { Wrote out.old place (listed (above set 0)) out.new result }
    ensures most { result ≤ place + 192 }
{
    write_list(out, place, list_of(set).as_slice())
}
