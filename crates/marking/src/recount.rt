//! The recount after a step: each pair of an inclusive gateway and a flow with a token is looked at again.
//!
//! A token that moves can change who holds a gateway back in two ways: it may begin or cease to hold the gateway back
//! itself, and where it comes to or leaves an inbound flow of the gateway, it changes that for every other token.
ghost use Rattle.std.specs.Prelude.{◌≡◌, [], map};
ghost use Rattle.graph.specs.Ring.{entries, capacity};
ghost use Rattle.process.specs.Sets.{above};
ghost use Rattle.model.specs.Models.{nodes_of};
ghost use Rattle.paths.specs.Paths.{HoldingNumber};
ghost use Rattle.paths.specs.Routings.{model_of, flows_of};
ghost use Rattle.marking.specs.Kept.{Counted, Kept};

use graph::worklist::WorkList;
use paths::routing::Routing;
use paths::rule::holders;
use process::draft::{MOST_FLOWS, MOST_NODES};
use process::node::Kind;
use process::sets::FlowSet;
use std::array;

// Lines up the gateway with each flow that carries a token, lowest first, to be looked at.
fn line_up(work: &mut WorkList<(u8, u8)>, gateway: u8, tokens: FlowSet)
    requires empty { entries work.old ≡ [] }
    requires places { capacity work.old ≡ 64 }
    ensures { entries work.new ≡ map (λ f. (gateway, f)) (above tokens 0) }
{
    for flow in tokens.iter() {
        let _ = work.put((gateway, flow));
    }
}

// How many flows hold the gateway back.
fn recount_gateway(routing: &Routing, tokens: FlowSet, gateway: u8) -> u8
    ensures { HoldingNumber (flows_of routing.now) tokens gateway result }
{
    let held_by = holders(routing, tokens, gateway);
    let mut memory = [(0, 0); MOST_FLOWS];
    let mut work = WorkList::new(&mut memory);
    line_up(&mut work, gateway, tokens);
    let mut number = 0;
    // the work list is no iterator: what is taken out is gone
    while let Ok((_, flow)) = work.take() {
        if held_by.contains(flow) {
            number += 1;
        }
    }
    number
}

// How many flows hold the node back if it is an inclusive gateway, or 0.
fn recount_node(routing: &Routing, tokens: FlowSet, node: u8) -> u8
    ensures { Counted (nodes_of (model_of routing.now)) (flows_of routing.now) tokens node result }
{
    match routing.model().kind(node) {
        Kind::Inclusive => recount_gateway(routing, tokens, node),
        Kind::Start | Kind::End | Kind::Task { .. } | Kind::Exclusive | Kind::Parallel => 0,
    }
}

/// The number of each node, at its place.
pub(crate) fn recount(routing: &Routing, tokens: FlowSet) -> [u8; MOST_NODES]
    ensures { Kept (nodes_of (model_of routing.now)) (flows_of routing.now) tokens result }
{
    // a place below 40: the cast is proved to lose nothing
    array::from_fn(|place| recount_node(routing, tokens, place as u8 + 1))
}
