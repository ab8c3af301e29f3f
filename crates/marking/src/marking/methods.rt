ghost use Rattle.std.specs.Prelude.{◌≡◌, ℕ, Decides};
ghost use Rattle.process.specs.Sets.{has, joined, without};
ghost use Rattle.model.specs.Rules.{kind_at};
ghost use Rattle.marking.specs.Kept.{Counted};
ghost use Rattle.marking.specs.Markings.{routing_of, tokens_of, nodes_of, flows_of};
ghost use Rattle.marking.specs.Nodes.{Ready, Takes};

use super::Marking;
use crate::recount::recount;
use paths::routing::Routing;
use process::node::Kind;
use process::numbers::numbered;
use process::sets::FlowSet;

impl<'a> Marking<'a> {
    /// These tokens on the flows of the model.
    pub fn of(routing: &'a Routing, tokens: FlowSet) -> Marking<'a>
        ensures routing { result.routing ≡ routing.entry }
        ensures tokens { tokens_of result ≡ tokens }
    {
        let holding = recount(routing, tokens);
        Marking {
            routing,
            tokens,
            holding,
        }
    }

    /// The model with its tables.
    pub fn routing(&self) -> &'a Routing
        ensures { result.now ≡ routing_of self.now }
    {
        self.routing
    }

    /// The kind of a node. A number that no node has is answered with `Start`.
    pub fn kind(&self, node: u8) -> Kind
        ensures { result ≡ kind_at (nodes_of self.now) node }
    {
        self.routing.model().kind(node)
    }

    /// The flows that carry a token.
    pub fn tokens(&self) -> FlowSet
        ensures { result ≡ tokens_of self.now }
    {
        self.tokens
    }

    /// Takes tokens away and then puts tokens on flows, and recounts who holds the inclusive gateways back.
    pub fn change(&mut self, taken: FlowSet, put: FlowSet)
        ensures routing { self.new.routing ≡ self.old.routing }
        ensures tokens { tokens_of self.new ≡ joined (without (tokens_of self.old) taken) put }
    {
        let tokens = self.tokens.difference(taken).union(put);
        let holding = recount(self.routing, tokens);
        *self = Marking {
            routing: self.routing,
            tokens,
            holding,
        };
    }

    /// How many flows hold the inclusive gateway back; 0 of any other node.
    pub fn holding_number(&self, node: u8) -> u8
        ensures { Counted (nodes_of self.now) (flows_of self.now) (tokens_of self.now) node result }
    {
        numbered(&self.holding, u16::from(node)).unwrap_or(0)
    }

    /// Whether the node is ready.
    // The definition goes by the same cases.
    pub fn is_ready(&self, node: u8) -> bool
        ensures { Decides result (Ready (nodes_of self.now) (flows_of self.now) (tokens_of self.now) node) }
    {
        let inbound = self.routing.inbound(node);
        let coming_in = inbound.intersection(self.tokens);
        match self.kind(node) {
            Kind::Start => false,
            Kind::Parallel => inbound.difference(self.tokens).is_empty(),
            Kind::Inclusive => !coming_in.is_empty() && self.holding_number(node) == 0,
            Kind::End | Kind::Task { .. } | Kind::Exclusive => !coming_in.is_empty(),
        }
    }

    /// The flows whose tokens the node takes when it steps.
    pub fn takes(&self, node: u8) -> FlowSet
        ensures { (f : ℕ) → Decides (has result f) (Takes (nodes_of self.now) (flows_of self.now) (tokens_of self.now) node f) }
    {
        let coming_in = self.routing.inbound(node).intersection(self.tokens);
        match self.kind(node) {
            Kind::Exclusive => match coming_in.lowest() {
                Some(lowest) => FlowSet::single(lowest),
                None => coming_in,
            },
            Kind::Start | Kind::End | Kind::Task { .. } | Kind::Parallel | Kind::Inclusive => {
                coming_in
            }
        }
    }
}
