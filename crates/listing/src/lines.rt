//! The lines, and the calls that write them.
ghost use Rattle.std.specs.Prelude.{◌≡◌, ◌+◌, ◌<◌, ◌≤◌, length, take, MatchResult};
ghost use Rattle.fault.specs.declared.console.ConsoleFault.TheVariants.{NoRoom};
ghost use Rattle.listing.specs.Writing.{Wrote, WroteLine};
ghost use Rattle.listing.specs.Lines.{Listed, listed, process_line, answer_part, step_line, stop_name, stop_line, gateway_line, refusal_line};

use crate::writing::{write_answer, write_list, write_number, write_set, write_text};
use engine::line::Line;
use engine::run::Stop;
use fault::console::ConsoleFault;
use fault::record::FaultRecord;
use paths::reason::Reason;
use process::draft::MOST_FLOWS;
use service::answer::Answer;

/// The bytes that have to stand from a place on for a line to be written there. Every line fits.
// The contracts below name them as 512: `check_room` has tested that they stand there.
pub const LINE_ROOM: usize = 512;

// Each call below tests for room and lends the buffer's tail on. One call that took the writing as a closure would say of it,
// in its contract, all that these two lines do.

// Whether a buffer of this size has room for a line at a place.
fn check_room(size: usize, place: usize) -> Result<(), ConsoleFault>
    ensures { MatchResult result (λ _. place + 512 ≤ size) (λ fault. (size < place + 512) × (fault ≡ NoRoom place)) }
{
    if place <= size && LINE_ROOM <= size - place {
        Ok(())
    } else {
        Err(ConsoleFault::NoRoom { place })
    }
}

// Writes the line of a process at the front of the buffer.
fn write_process(out: &mut [u8], number: u16) -> usize
    requires { 512 ≤ length out.old }
    ensures { WroteLine out.old (process_line number) out.new result }
{
    let end = write_text(out, 0, b"process ");
    let end = write_number(out, end, u64::from(number));
    write_text(out, end, b"\n")
}

/// Writes which process is run, as `process 7`.
pub fn list_process(out: &mut [u8], place: usize, number: u16) -> Result<usize, ConsoleFault>
    ensures { Listed out.old place (process_line number) result out.new }
{
    check_room(out.len(), place)?;
    Ok(place + write_process(&mut out[place..], number))
}

// Writes a task's answer; the step of another node has none. No Option: a line of the journal has an answer for every node,
// 0 where it is no task, so whether it is one is told beside it.
fn write_answer_part(out: &mut [u8], place: usize, is_task: bool, answer: Answer) -> usize
    requires { place + 29 ≤ length out.old }
    ensures text { Wrote out.old place (answer_part is_task answer) out.new result }
    ensures most { result ≤ place + 29 }
{
    if !is_task {
        return place;
    }
    let end = write_text(out, place, b" answer ");
    write_answer(out, end, answer)
}

// Writes the line of a step at the front of the buffer.
fn write_step(out: &mut [u8], step: u16, line: Line, is_task: bool) -> usize
    requires { 512 ≤ length out.old }
    ensures { WroteLine out.old (step_line step line is_task) out.new result }
{
    let end = write_text(out, 0, b"step ");
    let end = write_number(out, end, u64::from(step));
    let end = write_text(out, end, b" node ");
    let end = write_number(out, end, u64::from(line.node));
    let end = write_text(out, end, b" takes ");
    let end = write_set(out, end, line.taken);
    let end = write_text(out, end, b" puts ");
    let end = write_set(out, end, line.put);
    let end = write_answer_part(out, end, is_task, line.answer);
    write_text(out, end, b"\n")
}

/// Writes a line of the journal, as `step 1 node 2 takes 1 puts 2 answer 2`. The answer is left out unless the node is a
/// task.
pub fn list_step(
    out: &mut [u8],
    place: usize,
    step: u16,
    line: Line,
    is_task: bool,
) -> Result<usize, ConsoleFault>
    ensures { Listed out.old place (step_line step line is_task) result out.new }
{
    check_room(out.len(), place)?;
    Ok(place + write_step(&mut out[place..], step, line, is_task))
}

// What a stop is called.
fn stop_name(stop: Stop) -> &'static [u8]
    ensures { result.now ≡ stop_name stop }
{
    match stop {
        Stop::Finished => b"finished",
        Stop::Resting => b"resting",
        Stop::Held => b"held",
        Stop::Spent => b"spent",
        Stop::JournalFull => b"journal full",
    }
}

// Writes the line of a stop at the front of the buffer.
fn write_stop(out: &mut [u8], stop: Stop, steps: u16) -> usize
    requires { 512 ≤ length out.old }
    ensures { WroteLine out.old (stop_line stop steps) out.new result }
{
    let end = write_text(out, 0, stop_name(stop));
    let end = write_text(out, end, b" after ");
    let end = write_number(out, end, u64::from(steps));
    write_text(out, end, b"\n")
}

/// Writes why a run stopped and after how many steps, as `held after 3`.
pub fn list_stop(
    out: &mut [u8],
    place: usize,
    stop: Stop,
    steps: u16,
) -> Result<usize, ConsoleFault>
    ensures { Listed out.old place (stop_line stop steps) result out.new }
{
    check_room(out.len(), place)?;
    Ok(place + write_stop(&mut out[place..], stop, steps))
}

// Writes the path of a reason, which stands at the front of the list. It has at most 64 flows, and each takes at most 4
// bytes with its comma.
fn write_path(out: &mut [u8], place: usize, reason: Reason, list: &[u8; MOST_FLOWS]) -> usize
    requires { place + 256 ≤ length out.old }
    ensures text { Wrote out.old place (listed (take reason.length list.now)) out.new result }
    ensures most { result ≤ place + 256 }
{
    let shown = reason.length.min(MOST_FLOWS);
    write_list(out, place, &list[..shown])
}

// Writes the line of a gateway that waits at the front of the buffer.
fn write_gateway(out: &mut [u8], gateway: u8, reason: Reason, list: &[u8; MOST_FLOWS]) -> usize
    requires { 512 ≤ length out.old }
    ensures { WroteLine out.old (gateway_line gateway reason list.now) out.new result }
{
    let end = write_text(out, 0, b"gateway ");
    let end = write_number(out, end, u64::from(gateway));
    let end = write_text(out, end, b" waits for flow ");
    let end = write_number(out, end, u64::from(reason.holder));
    let end = write_text(out, end, b" by ");
    let end = write_path(out, end, reason, list);
    write_text(out, end, b"\n")
}

/// Writes why a gateway waits, as `gateway 6 waits for flow 4 by 4,7`: the flow that holds it back, and the path from it,
/// which stands at the front of the list.
pub fn list_gateway(
    out: &mut [u8],
    place: usize,
    gateway: u8,
    reason: Reason,
    list: &[u8; MOST_FLOWS],
) -> Result<usize, ConsoleFault>
    ensures { Listed out.old place (gateway_line gateway reason list.now) result out.new }
{
    check_room(out.len(), place)?;
    Ok(place + write_gateway(&mut out[place..], gateway, reason, list))
}

// Writes the line of a refusal at the front of the buffer.
fn write_refusal(out: &mut [u8], fault: FaultRecord) -> usize
    requires { 512 ≤ length out.old }
    ensures { WroteLine out.old (refusal_line fault) out.new result }
{
    let end = write_text(out, 0, b"refused ");
    let end = write_number(out, end, u64::from(fault.number));
    let end = write_text(out, end, b" layer ");
    let end = write_number(out, end, u64::from(fault.layer));
    let end = write_text(out, end, b" place ");
    // std has no `From<usize>` for u64; the cast is proved to lose nothing
    let end = write_number(out, end, fault.place as u64);
    write_text(out, end, b"\n")
}

/// Writes why something was refused, as `refused 12 layer 1 place 40`.
pub fn list_refusal(out: &mut [u8], place: usize, fault: FaultRecord) -> Result<usize, ConsoleFault>
    ensures { Listed out.old place (refusal_line fault) result out.new }
{
    check_room(out.len(), place)?;
    Ok(place + write_refusal(&mut out[place..], fault))
}
