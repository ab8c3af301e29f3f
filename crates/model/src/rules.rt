//! The rules of a sound model that speak of one node or one flow at a time.
ghost use Rattle.std.specs.Prelude.{◌≡◌, ◌-◌, ◌&&◌, take, ◌==◌};
ghost use Rattle.process.specs.Drafts.{nodes_of, flows_of};
ghost use Rattle.model.specs.Rules.{how_many, inbound, outgoing, ends_right, count_right, chooses, guard_right, is_default, kind_at, count_rule, guard_rule, default_rule, rules_check};

use crate::check::check;
use fault::model::ModelFault;
use process::draft::Draft;
use process::flow::{Flow, Guard};
use process::node::Kind;
use process::numbers::numbered;

// Counted by a sum and no `count` of a `filter`, with which the rules took 1.7 times as long.
// How many flows enter a node. `outgoing` is the same of their other end: one function for both would only take this closure.
fn inbound(flows: &[Flow], node: u8) -> usize
    ensures { result ≡ inbound flows.now node }
{
    flows.iter().map(|flow| usize::from(flow.to == node)).sum()
}

/// How many flows leave a node.
pub(crate) fn outgoing(flows: &[Flow], node: u8) -> usize
    ensures { result ≡ outgoing flows.now node }
{
    flows
        .iter()
        .map(|flow| usize::from(flow.from == node))
        .sum()
}

// Whether there is exactly one start and at least one end.
fn ends_right(nodes: &[Kind]) -> bool
    ensures { result ≡ ends_right nodes.now }
{
    let starts = nodes
        .iter()
        .filter(|kind| matches!(kind, Kind::Start))
        .count();
    starts == 1 && nodes.iter().any(|kind| matches!(kind, Kind::End))
}

// Whether a node of this kind may have so many inbound and outgoing flows.
fn count_right(kind: Kind, inbound: usize, outgoing: usize) -> bool
    ensures { result ≡ count_right kind inbound outgoing }
{
    match kind {
        Kind::Start => inbound == 0 && outgoing == 1,
        Kind::End => inbound == 1 && outgoing == 0,
        Kind::Task { figure: _ } => inbound == 1 && outgoing == 1,
        Kind::Exclusive | Kind::Parallel | Kind::Inclusive => inbound >= 1 && outgoing >= 1,
    }
}

// Whether the node chooses among its outgoing flows: they are counted only for a kind that may. The definition goes by the
// same cases.
fn chooses(nodes: &[Kind], flows: &[Flow], node: u8) -> bool
    ensures { result ≡ chooses (kind_at nodes.now node) (outgoing flows.now node) }
{
    match kind_at(nodes, node) {
        Kind::Exclusive | Kind::Inclusive => outgoing(flows, node) >= 2,
        Kind::Start | Kind::End | Kind::Task { figure: _ } | Kind::Parallel => false,
    }
}

// Whether a flow may have this guard, where its node chooses or does not: a bool, since no value comes with that.
fn guard_right(chosen: bool, guard: Guard) -> bool
    ensures { result ≡ guard_right chosen guard }
{
    match guard {
        Guard::Plain => !chosen,
        Guard::Default | Guard::If(_) => chosen,
    }
}

/// The kind of a node, by its number. A number that no node has is answered with `Start`.
pub(crate) fn kind_at(nodes: &[Kind], node: u8) -> Kind
    ensures { result ≡ kind_at nodes.now node }
{
    numbered(nodes, u16::from(node)).unwrap_or(Kind::Start)
}

// Whether no flow with a lower number is a default of the node.
fn is_first_default(flows: &[Flow], flow: u8, node: u8) -> bool
    ensures { result ≡ (how_many (λ f. (f.from == node) && is_default f.guard) (take (flow - 1) flows.now) == 0) }
{
    let lower = usize::from(flow).saturating_sub(1);
    !flows.iter().take(lower).any(|flow| flow.from == node && matches!(flow.guard, Guard::Default))
}

/// Refuses the first rule that is broken, at the lowest node or flow that breaks it. Whether each node is reached is
/// not asked here.
pub(crate) fn check_rules(draft: &Draft) -> Result<(), ModelFault>
    ensures { result ≡ rules_check (nodes_of draft.now) (flows_of draft.now) }
{
    let nodes = draft.nodes();
    let flows = draft.flows();
    if !ends_right(nodes) {
        return Err(ModelFault::StartsAndEnds);
    }
    check(
        nodes,
        |node, kind| count_right(kind, inbound(flows, node), outgoing(flows, node)),
        |node| ModelFault::FlowCount { node },
    )?;
    check(
        flows,
        |_, flow| flow.from != flow.to,
        |flow| ModelFault::SelfLoop { flow },
    )?;
    check(
        flows,
        |_, flow| guard_right(chooses(nodes, flows, flow.from), flow.guard),
        |flow| ModelFault::Guard { flow },
    )?;
    check(
        flows,
        |number, flow| !matches!(flow.guard, Guard::Default)
            || is_first_default(flows, number, flow.from),
        |flow| ModelFault::SecondDefault { flow },
    )
}
