//! A count before it is begun.
ghost use Rattle.std.specs.Prelude.{◌≡◌, ℕ, Decides};
ghost use Rattle.process.specs.Sets.{has};
ghost use Rattle.model.specs.Models.{nodes_of, flows_of};
ghost use Rattle.engine.specs.SetUps.{new_figures, SetTo, LeavesStart, Begins};

use crate::counts::{Begun, SetUp};
use choice::conditions::MOST_FIGURES;
use fault::count::CountFault;
use marking::marking::Marking;
use model::model::Model;
use paths::routing::Routing;
use process::node::Kind;
use process::ranges::is_value;
use process::sets::FlowSet;

// The flow that leaves the start, as a set. Collected here, since a public call that takes a test may not ask that it can
// be called.
fn start_flows(model: &Model) -> FlowSet
    ensures { (f : ℕ) → Decides (has result f) (LeavesStart (nodes_of model.now) (flows_of model.now) f) }
{
    let mut found = FlowSet::empty();
    for (place, flow) in model.flows().iter().enumerate() {
        if model.kind(flow.from) == Kind::Start {
            // a place of at most 64: the cast is proved to lose nothing
            found = found.insert(place as u8 + 1);
        }
    }
    found
}

impl<'a> SetUp<'a> {
    /// A new count of the model. All its figures are 0.
    pub fn new(routing: &'a Routing, instance: u16) -> SetUp<'a>
        ensures routing { result.routing ≡ routing.entry }
        ensures instance { result.instance ≡ instance }
        ensures figures { result.figures ≡ new_figures }
    {
        SetUp {
            routing,
            instance,
            figures: [0; MOST_FIGURES],
        }
    }

    /// Lets the figure have the value. Refused if no figure has the number, else if no figure can have the value;
    /// refused, it changes nothing.
    pub fn set(&mut self, figure: u16, value: i32) -> Result<(), CountFault>
        ensures { SetTo self.old figure value result self.new }
    {
        let instance = self.instance;
        if figure < 1 || figure > 16 {
            return Err(CountFault::FigureNumber { figure, instance });
        }
        if !is_value(value) {
            return Err(CountFault::Value { instance });
        }
        // by its place: of an array that `get_mut` lends out, a proof knows only the length afterwards
        self.figures[usize::from(figure) - 1] = value;
        Ok(())
    }

    /// Puts a token on the start's outgoing flow. From here on the count takes steps, and no figure can be set.
    pub fn begin(self) -> Begun<'a>
        ensures { Begins self.entry result }
    {
        let SetUp {
            routing,
            instance,
            figures,
        } = self;
        let tokens = start_flows(routing.model());
        Begun {
            marking: Marking::of(routing, tokens),
            instance,
            figures,
            written: 0,
        }
    }
}
