//! Whether each node can be reached from the start, asked of the search.
ghost use Rattle.std.specs.Prelude.{◌≡◌, ◌≤◌, length};
ghost use Rattle.process.specs.Drafts.{nodes_of, flows_of};
ghost use Rattle.model.specs.Sound.{successors, start_of, ReachedVerdict};

use crate::check::check;
use crate::rules::outgoing;
use fault::model::ModelFault;
use graph::places::Graph;
use graph::search::reach;
use process::draft::{Draft, MOST_NODES};
use process::flow::Flow;
use process::node::Kind;

// The nodes of a process, next to each other along its flows.
#[derive(Clone, Copy)]
struct Nodes<'a> {
    flows: &'a [Flow],
}

impl<'a> Graph for Nodes<'a> {
    type Place = u8;

    ghost next = { λ g n. successors g.flows.now n };

    fn degree(&self, node: u8) -> usize {
        outgoing(self.flows, node)
    }

    fn neighbour(&self, node: u8, index: usize) -> Option<u8> {
        self.flows
            .iter()
            .filter(|flow| flow.from == node)
            .nth(index)
            .map(|flow| flow.to)
    }
}

// The number of the start; where there is none, the one after the last, as the definition says.
fn start_of(nodes: &[Kind]) -> u8
    requires { length nodes.now ≤ 40 }
    ensures { result ≡ start_of nodes.now }
{
    // at most 40: the cast is proved to lose nothing
    nodes
        .iter()
        .take_while(|kind| !matches!(kind, Kind::Start))
        .count() as u8
        + 1
}

/// Refuses the lowest node that cannot be reached from the start.
pub(crate) fn check_reached(draft: &Draft) -> Result<(), ModelFault>
    requires { start_of (nodes_of draft.now) ≤ length (nodes_of draft.now) }
    ensures { ReachedVerdict (nodes_of draft.now) (flows_of draft.now) result }
{
    let nodes = draft.nodes();
    let flows = draft.flows();
    let mut found = [0; MOST_NODES];
    let mut work = [0; MOST_NODES];
    let start = start_of(nodes);
    let Ok(number) = reach(&Nodes { flows }, &[start], &mut found, &mut work) else {
        unreachable()
    };
    let reached = &found[..number];
    check(
        nodes,
        |node, _| reached.contains(&node),
        |node| ModelFault::NotReached { node },
    )
}
