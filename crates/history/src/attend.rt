//! Any list of calls, made one after another.
ghost use Rattle.std.specs.Prelude.{◌≡◌, List, length, take, drop};
ghost use Rattle.engine.specs.declared.line.Line.{Line};
ghost use Rattle.service.specs.Waits.{Waits};
ghost use Rattle.history.specs.declared.call.Count.TheVariants.{Setting, Going};
ghost use Rattle.history.specs.Histories.{Moment, Performed};
ghost use Rattle.history.specs.Laws.{Attended, LawsHold};

use crate::call::{Call, Count, Reply};
use engine::counts::{Begun, SetUp};
use engine::line::Line;
use paths::routing::Routing;
use process::draft::MOST_FLOWS;
use service::service::Service;

// Makes a call of a count that is set up.
fn perform_set_up<'a>(mut count: SetUp<'a>, call: Call) -> (Count<'a>, Reply)
    ensures { (journal : List Line) (waits : Waits) → Performed (Moment.at (Setting count.entry) journal waits) call result.1 (Moment.at result.0 journal waits) }
{
    match call {
        Call::Set { figure, value } => {
            let reply = count.set(figure, value);
            (Count::Setting(count), Reply::Set(reply))
        }
        Call::Begin => (Count::Going(count.begin()), Reply::Begun),
        _ => (Count::Setting(count), Reply::Untaken),
    }
}

// Makes a call of a count that has begun.
fn perform_begun<S: Service>(
    count: &mut Begun,
    call: Call,
    journal: &mut [Line],
    service: &mut S,
) -> Reply
    ensures { Performed (Moment.at (Going count.old) journal.old (S.waits service.old)) call result (Moment.at (Going count.new) journal.new (S.waits service.new)) }
{
    match call {
        Call::Step { node } => Reply::Stepped(count.step(node, journal, service)),
        Call::Run { budget } => Reply::Ran(count.run(budget, journal, service)),
        Call::Figure { figure } => Reply::Figure(count.figure(figure)),
        Call::Ready { node } => Reply::Ready(count.ready(node)),
        Call::Holding { node } => Reply::Holding(count.holding(node)),
        Call::Why { node } => {
            let mut list = [0; MOST_FLOWS];
            let reason = count.why(node, &mut list);
            Reply::Why(reason, list)
        }
        _ => Reply::Untaken,
    }
}

// Makes a call of a count. Calls are data and no closures: the law speaks of lists of them.
fn perform<'a, S: Service>(
    count: Count<'a>,
    call: Call,
    journal: &mut [Line],
    service: &mut S,
) -> (Count<'a>, Reply)
    ensures { Performed (Moment.at count.entry journal.old (S.waits service.old)) call result.1 (Moment.at result.0 journal.new (S.waits service.new)) }
{
    match count {
        Count::Setting(set_up) => perform_set_up(set_up, call),
        Count::Going(mut begun) => {
            let reply = perform_begun(&mut begun, call, journal, service);
            (Count::Going(begun), reply)
        }
    }
}

/// Makes each of the calls in turn, from a new count of the model, and writes its reply to the same place of `replies`.
/// Where `replies` is the shorter, only as many calls are made as it has places; its other places stay as they were.
/// After every call the law holds: the journal's lines, what is told of inclusive gateways, and the answers.
pub fn attend<'a, S: Service>(
    routing: &'a Routing,
    instance: u16,
    journal: &mut [Line],
    service: &mut S,
    calls: &[Call],
    replies: &mut [Reply],
) -> Count<'a>
    ensures attended { Attended routing.now instance journal.old (S.waits service.old)
        (take (length replies.old) calls.now) (take (length calls.now) replies.new)
        result journal.new (S.waits service.new) }
    ensures rest { drop (length calls.now) replies.new ≡ drop (length calls.now) replies.old }
{
    let mut count = Count::Setting(SetUp::new(routing, instance));
    let number = calls.len().min(replies.len());
    // `replies` is written by place: of a slice that `iter_mut` lends to a zip, a proof knows only the length afterwards.
    for (place, call) in calls[..number].iter().enumerate() {
        let (next, reply) = perform(count, *call, journal, service);
        count = next;
        replies[place] = reply;
    }
    count
}

/// The law holds after every call of every history of a new count, over any journal and any service.
pub fn laws_hold()
    ensures { LawsHold }
{}
