//! Why a gateway waits: the lowest flow that holds it back, and a path from that flow.
ghost use Rattle.std.specs.Prelude.{MatchOption};
ghost use Rattle.paths.specs.Paths.{HoldsBack};
ghost use Rattle.paths.specs.Reasons.{LowestEnd, Explains, Unheld};
ghost use Rattle.paths.specs.Routings.{flows_of};

use crate::avoiding::Avoiding;
use crate::routing::Routing;
use crate::rule::holders;
use process::draft::MOST_FLOWS;
use process::sets::FlowSet;

/// A flow that holds a gateway back, an empty inbound flow of the gateway, and the length of a path from the one to the other.
// The path itself stands at the front of the list that the caller lends.
#[derive(Clone, Copy, PartialEq, Eq, Debug)]
pub struct Reason {
    pub holder: u8,
    pub end: u8,
    pub length: usize,
}

// The lowest empty inbound flow of the gateway that the holder reaches. Its arguments are those of the calls in rule.rt.
fn end_of(routing: &Routing, tokens: FlowSet, gateway: u8, holder: u8) -> u8
    requires { HoldsBack (flows_of routing.now) tokens gateway holder }
    ensures { LowestEnd (flows_of routing.now) tokens gateway holder result }
{
    let empty = routing.inbound(gateway).difference(tokens);
    let Some(end) = routing.reached_from(holder, empty).lowest() else {
        unreachable()
    };
    end
}

/// Why the gateway waits: the lowest flow that holds it back, and a path from that flow to the lowest empty inbound flow
/// of the gateway that it reaches, written at the front of the list. The places of the list behind it are untouched.
/// `None`, and the list unchanged, exactly if no flow holds the gateway back.
pub fn why(
    routing: &Routing,
    tokens: FlowSet,
    gateway: u8,
    list: &mut [u8; MOST_FLOWS],
) -> Option<Reason>
    ensures { MatchOption result
        (Unheld (flows_of routing.now) tokens gateway list.old list.new)
        (Explains (flows_of routing.now) tokens gateway list.old list.new) }
{
    let holder = holders(routing, tokens, gateway).lowest()?;
    let end = end_of(routing, tokens, gateway, holder);
    let avoiding = Avoiding {
        model: routing.model(),
        gateway,
    };
    let length = avoiding.write_path(holder, end, list);
    Some(Reason {
        holder,
        end,
        length,
    })
}
