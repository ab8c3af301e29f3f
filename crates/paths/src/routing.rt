//! A sound model with its tables of flows.
ghost use Rattle.model.specs.Models.{flows_of};
ghost use Rattle.paths.specs.Tables.{Tables};

use model::model::Model;
use process::draft::{MOST_FLOWS, MOST_NODES};
use process::sets::FlowSet;

mod methods;

/// A sound model, and what its flows determine once for all.
#[derive(Drop)]
pub struct Routing {
    model: Model,
    // For each flow, the flows from which some path ends in it that avoids the node that it enters.
    sources: [FlowSet; MOST_FLOWS],
    // For each node, the flows that enter it, and those that leave it. They are two tables and not one of pairs:
    // each is asked alone, and then looked up as the table above is.
    inbound: [FlowSet; MOST_NODES],
    outgoing: [FlowSet; MOST_NODES],
    ghost right: { ∥ Tables (flows_of model) sources inbound outgoing ∥₁ },
}
