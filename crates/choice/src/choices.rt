//! Which outgoing flows get a token.
ghost use Rattle.std.specs.Prelude.{◌≡◌, ℕ, ◌≤◌, true, length, Decides, MatchOption};
ghost use Rattle.process.specs.Sets.{has};
ghost use Rattle.model.specs.Models.{nodes_of};
ghost use Rattle.model.specs.Rules.{flow_at};
ghost use Rattle.paths.specs.Paths.{Outgoing};
ghost use Rattle.paths.specs.Routings.{model_of, flows_of};
ghost use Rattle.process.specs.declared.node.Kind.TheVariants.{Exclusive, Inclusive};
ghost use Rattle.choice.specs.Choices.{Open, IsDefault, Chosen, NoWayOn, SomeWay};

use crate::conditions::{MOST_FIGURES, guard_holds};
use paths::routing::Routing;
use process::flow::{Flow, Guard};
use process::node::Kind;
use process::sets::FlowSet;

// A node, the flows of its process, and the figures by which it chooses among those that leave it.
#[derive(Clone, Copy)]
struct Chooser<'a> {
    flows: &'a [Flow],
    figures: &'a [i32; MOST_FIGURES],
    node: u8,
    ghost few: { length flows.now ≤ 64 },
}

impl<'a> Chooser<'a> {
    // The flows that leave the node and whose guards pass the test. Not the call by which paths collects flows: a public one
    // may not ask that its test can be called.
    fn leaving_with<F: Fn(Guard) -> bool>(&self, test: F) -> FlowSet
        requires { F.IsAlwaysCallable test }
        ensures leave { (f : ℕ) → has result f ≡ true → Outgoing self.now.flows.now self.now.node f }
        ensures tested { (f : ℕ) → Outgoing self.now.flows.now self.now.node f → F.post test (flow_at self.now.flows.now f).guard (has result f) }
    {
        let mut found = FlowSet::empty();
        for (place, flow) in self.flows.iter().enumerate() {
            if flow.from == self.node && test(flow.guard) {
                // a place of at most 64: the cast is proved to lose nothing
                found = found.insert(place as u8 + 1);
            }
        }
        found
    }

    // The flows whose conditions hold.
    fn open(&self) -> FlowSet
        ensures { (f : ℕ) → Decides (has result f) (Open self.now.flows.now self.now.figures.now self.now.node f) }
    {
        self.leaving_with(|guard| guard_holds(self.figures, guard))
    }

    // The default, if there is one.
    fn default(&self) -> FlowSet
        ensures { (f : ℕ) → Decides (has result f) (IsDefault self.now.flows.now self.now.node f) }
    {
        self.leaving_with(|guard| guard == Guard::Default)
    }

    // What an exclusive gateway puts a token on: the first flow whose condition holds, or else the default.
    fn exclusive(&self) -> FlowSet
        ensures { (f : ℕ) → Decides (has result f) (Chosen Exclusive self.now.flows.now self.now.figures.now self.now.node f) }
    {
        match self.open().lowest() {
            Some(first) => FlowSet::single(first),
            None => self.default(),
        }
    }

    // What an inclusive gateway puts a token on: every flow whose condition holds, or the default if there is none.
    fn inclusive(&self) -> FlowSet
        ensures { (f : ℕ) → Decides (has result f) (Chosen Inclusive self.now.flows.now self.now.figures.now self.now.node f) }
    {
        let open = self.open();
        if open.is_empty() {
            return self.default();
        }
        open
    }
}

/// The flows that get a token when the node steps. `None` exactly if the node has to choose, no condition holds and
/// there is no default.
pub fn puts(routing: &Routing, figures: &[i32; MOST_FIGURES], node: u8) -> Option<FlowSet>
    ensures { MatchOption result
        (NoWayOn (nodes_of (model_of routing.now)) (flows_of routing.now) figures.now node)
        (SomeWay (nodes_of (model_of routing.now)) (flows_of routing.now) figures.now node) }
{
    let model = routing.model();
    let outgoing = routing.outgoing(node);
    let outgoing_count = outgoing.len();
    let flows = model.flows();
    let chooser = Chooser {
        flows,
        figures,
        node,
    };
    let chosen = match model.kind(node) {
        Kind::Exclusive if outgoing_count >= 2 => chooser.exclusive(),
        Kind::Inclusive if outgoing_count >= 2 => chooser.inclusive(),
        _ => return Some(outgoing),
    };
    if chosen.is_empty() {
        return None;
    }
    Some(chosen)
}
