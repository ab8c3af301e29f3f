//! A process that is being put together: each number lies in its range, and each flow joins nodes that are there.
ghost use Rattle.std.specs.Prelude.{◌≡◌, true};
ghost use Rattle.process.specs.Processes.{well_formed};
ghost use Rattle.process.specs.Rows.{items};

use crate::flow::Flow;
use crate::node::Kind;
use crate::row::Row;

mod methods;

/// The most nodes that a process has.
pub const MOST_NODES: usize = 40;
/// The most flows that a process has.
pub const MOST_FLOWS: usize = 64;

/// A process so far: its number, its nodes and its flows.
#[derive(Drop)]
pub struct Draft {
    number: u16,
    nodes: Row<Kind, MOST_NODES>,
    flows: Row<Flow, MOST_FLOWS>,
    ghost formed: { well_formed number (items nodes) (items flows) ≡ true },
}
