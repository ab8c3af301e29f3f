//! The tokens of a count, with the holding numbers that are kept beside them.
ghost use Rattle.model.specs.Models.{nodes_of};
ghost use Rattle.paths.specs.Routings.{model_of, flows_of};
ghost use Rattle.marking.specs.Kept.{Kept};

use paths::routing::Routing;
use process::draft::MOST_NODES;
use process::sets::FlowSet;

mod methods;

/// Which flows of a model carry a token, and how many of them hold each inclusive gateway back.
#[derive(Clone, Copy)]
pub struct Marking<'a> {
    routing: &'a Routing,
    tokens: FlowSet,
    // For each node, at its place: how many flows hold it back if it is an inclusive gateway, or 0, as the definition counts.
    holding: [u8; MOST_NODES],
    ghost right: { ∥ Kept (nodes_of (model_of routing.now)) (flows_of routing.now) tokens holding ∥₁ },
}
