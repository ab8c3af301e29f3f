//! The path rule, asked of the tables of a model: a few operations on sets for each question, and no search.
ghost use Rattle.std.specs.Prelude.{◌≡◌, ℕ, false, Decides};
ghost use Rattle.process.specs.Sets.{has};
ghost use Rattle.paths.specs.Paths.{HoldsBack, HoldingNumber, TokenInbound, PathRule};
ghost use Rattle.paths.specs.Routings.{flows_of};

use crate::routing::Routing;
use process::sets::FlowSet;

// Routing, tokens and gateway are three arguments and no struct: these are public calls, and a marking above
// keeps the first two together, and asks of one gateway after the other.

/// The flows that hold the gateway back: those with a token from which a path leads to an empty inbound flow
/// of the gateway, and none to an inbound flow with a token.
pub fn holders(routing: &Routing, tokens: FlowSet, gateway: u8) -> FlowSet
    ensures { (f : ℕ) → Decides (has result f) (HoldsBack (flows_of routing.now) tokens gateway f) }
{
    let inbound = routing.inbound(gateway);
    let lead_to_empty = routing.leading_to(inbound.difference(tokens));
    let lead_to_token = routing.leading_to(inbound.intersection(tokens));
    tokens.intersection(lead_to_empty).difference(lead_to_token)
}

/// How many flows hold the gateway back.
pub fn holding_number(routing: &Routing, tokens: FlowSet, gateway: u8) -> u32
    ensures { HoldingNumber (flows_of routing.now) tokens gateway result }
{
    holders(routing, tokens, gateway).len()
}

/// Whether the path rule holds of the gateway: an inbound flow carries a token, and no flow holds the gateway back.
/// Where it does not hold although an inbound flow carries a token, some flow holds the gateway back.
pub fn path_rule(routing: &Routing, tokens: FlowSet, gateway: u8) -> bool
    ensures exact { Decides result (PathRule (flows_of routing.now) tokens gateway) }
    ensures held { result ≡ false → TokenInbound (flows_of routing.now) tokens gateway → (f : ℕ) × HoldsBack (flows_of routing.now) tokens gateway f }
{
    let with_token = routing.inbound(gateway).intersection(tokens);
    if with_token.is_empty() {
        return false;
    }
    holders(routing, tokens, gateway).is_empty()
}
