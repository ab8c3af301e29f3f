//! Calls as data, and what they reply.
use engine::counts::{Begun, SetUp};
use engine::line::Line;
use engine::run::Outcome;
use fault::count::CountFault;
use paths::reason::Reason;
use process::draft::MOST_FLOWS;

/// A count in either state.
#[derive(Drop)]
pub enum Count<'a> {
    Setting(SetUp<'a>),
    Going(Begun<'a>),
}

/// A call of a count.
#[derive(Clone, Copy, PartialEq, Eq, Debug)]
pub enum Call {
    Set { figure: u16, value: i32 },
    Begin,
    Step { node: u16 },
    Run { budget: u16 },
    Figure { figure: u16 },
    Ready { node: u16 },
    Holding { node: u16 },
    Why { node: u16 },
}

/// What a call replies.
#[derive(Clone, Copy)]
pub enum Reply {
    /// A figure was set, or not.
    Set(Result<(), CountFault>),
    /// The count has begun.
    Begun,
    /// The line that a step wrote.
    Stepped(Result<Line, CountFault>),
    /// How many steps a run made, and why it stopped.
    Ran(Outcome),
    /// The value of a figure.
    Figure(Result<i32, CountFault>),
    /// Whether a node is ready.
    Ready(Result<bool, CountFault>),
    /// How many flows hold a gateway back.
    Holding(Result<u8, CountFault>),
    /// Why a gateway waits, and a list that begins with the path.
    // The list stands beside the result: a refusal leaves the list that was lent as it was, and the reply shows it.
    Why(Result<Reason, CountFault>, [u8; MOST_FLOWS]),
    /// The state of the count does not take the call, so nothing was done.
    Untaken,
}
