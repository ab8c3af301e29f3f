ghost use Rattle.std.specs.Prelude.{◌≡◌, ℕ, ◌≤◌, ◌&&◌, length, Decides};
ghost use Rattle.process.specs.Sets.{has};
ghost use Rattle.paths.specs.Paths.{Inbound, Outgoing};
ghost use Rattle.paths.specs.Links.{chosen};
ghost use Rattle.paths.specs.Routings.{model_of, flows_of, sources_of};
ghost use Rattle.paths.specs.Tables.{row, LeadsTo};

use super::Routing;
use crate::links::{chosen, entering, leaving};
use crate::reach::sources;
use model::model::Model;
use process::numbers::numbered;
use process::sets::FlowSet;
use std::array;

// The set of each number from 1 to N, at its place.
fn table<const N: usize, F: Fn(u8) -> FlowSet>(set_of: F) -> [FlowSet; N]
    requires few { N ≤ 64 }
    requires callable { F.IsAlwaysCallable set_of }
    ensures value { (n : ℕ) → 1 ≤ n → n ≤ N → F.post set_of n (row result n) }
    ensures long { length result ≡ N }
{
    // a place below 64: the cast is proved to lose nothing
    array::from_fn(|place| set_of(place as u8 + 1))
}

// The set of a number, or none where the table has no such number.
fn row(table: &[FlowSet], number: u8) -> FlowSet
    ensures { result ≡ row table.now number }
{
    numbered(table, u16::from(number)).unwrap_or(FlowSet::empty())
}

impl Routing {
    /// The model with its tables.
    pub fn of(model: Model) -> Routing
        ensures { model_of result ≡ model }
    {
        let sources = table(|end| sources(&model, end));
        let inbound = table(|node| entering(&model, node));
        let outgoing = table(|node| leaving(&model, node));
        Routing {
            model,
            sources,
            inbound,
            outgoing,
        }
    }

    /// The model.
    pub fn model(&self) -> &Model
        ensures { result.now ≡ model_of self.now }
    {
        &self.model
    }

    /// The flows that enter the node. There is none where no node has this number.
    pub fn inbound(&self, node: u8) -> FlowSet
        ensures { (e : ℕ) → Decides (has result e) (Inbound (flows_of self.now) node e) }
    {
        row(&self.inbound, node)
    }

    /// The flows that leave the node. There is none where no node has this number.
    pub fn outgoing(&self, node: u8) -> FlowSet
        ensures { (f : ℕ) → Decides (has result f) (Outgoing (flows_of self.now) node f) }
    {
        row(&self.outgoing, node)
    }

    /// The flows from which some path ends in a flow of `ends` that avoids the node that this flow enters.
    pub(crate) fn leading_to(&self, ends: FlowSet) -> FlowSet
        ensures { (f : ℕ) → Decides (has result f) (LeadsTo (sources_of self.now) ends 64 f) }
    {
        let mut found = FlowSet::empty();
        for end in ends.iter() {
            found = found.union(row(&self.sources, end));
        }
        found
    }

    /// The flows of `ends` in which some path from the flow ends that avoids the node that the end enters.
    pub(crate) fn reached_from(&self, flow: u8, ends: FlowSet) -> FlowSet
        ensures { result ≡ chosen (λ e. has ends e && has (row (sources_of self.now) e) flow) 64 }
    {
        chosen(&self.sources, |sources, end| {
            ends.contains(end) && sources.contains(flow)
        })
    }
}
