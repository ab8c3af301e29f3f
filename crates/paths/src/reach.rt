//! From which flows a flow is reached, asked of the search.
//!
//! A flow enters one node only, so one search backwards from each flow tells all that holding back asks:
//! a path that ends in the flow avoids the node that the flow enters.
ghost use Rattle.std.specs.Prelude.{◌≡◌, ℕ, Decides};
ghost use Rattle.process.specs.Sets.{has, above};
ghost use Rattle.model.specs.Models.{flows_of};
ghost use Rattle.paths.specs.Paths.{target, Reaches};
ghost use Rattle.paths.specs.Links.{leaders};

use crate::avoiding::Avoiding;
use graph::places::Graph;
use graph::search::reach;
use model::model::Model;
use process::draft::MOST_FLOWS;
use process::numbers::numbered;
use process::sets::FlowSet;

// Next to a flow are those that may come right before it.
impl<'a> Graph for Avoiding<'a> {
    type Place = u8;

    ghost next = { λ g n. above (leaders (flows_of g.model.now) g.gateway n) 0 };

    fn degree(&self, flow: u8) -> usize {
        // std has no `From<u32>` for usize; the cast is proved to lose nothing
        self.leaders(flow).len() as usize
    }

    fn neighbour(&self, flow: u8, index: usize) -> Option<u8> {
        self.leaders(flow).nth(index)
    }
}

/// The flows from which some path ends in the flow `end` that avoids the node that it enters.
pub(crate) fn sources(model: &Model, end: u8) -> FlowSet
    ensures { (f : ℕ) → Decides (has result f) (Reaches (flows_of model.now) (target (flows_of model.now) end) f end) }
{
    let Some(flow) = numbered(model.flows(), u16::from(end)) else {
        return FlowSet::empty();
    };
    let mut found = [0; MOST_FLOWS];
    let mut work = [0; MOST_FLOWS];
    let avoiding = Avoiding {
        model,
        gateway: flow.to,
    };
    let Ok(number) = reach(&avoiding, &[end], &mut found, &mut work) else {
        unreachable()
    };
    FlowSet::of(&found[..number])
}
