//! What a begun count is asked.
ghost use Rattle.std.specs.Prelude.{◌≡◌, Ok, Err, MatchResult};
ghost use Rattle.process.specs.declared.node.Kind.TheVariants.{Inclusive};
ghost use Rattle.engine.specs.Counts.{kind_of};
ghost use Rattle.engine.specs.Questions.{figure_told, ReadyTold, gateway_verdict, HoldingTold, WhyTold};

use crate::counts::Begun;
use fault::count::CountFault;
use paths::reason::{Reason, why};
use process::draft::MOST_FLOWS;
use process::node::Kind;
use process::numbers::numbered;

impl<'a> Begun<'a> {
    /// The value of the figure now. Refused if no figure has the number.
    pub fn figure(&self, figure: u16) -> Result<i32, CountFault>
        ensures { result ≡ figure_told self.now figure }
    {
        let instance = self.instance;
        numbered(&self.figures, figure).ok_or(CountFault::FigureNumber { figure, instance })
    }

    /// Whether the node is ready. Refused if the model has no such node.
    pub fn ready(&self, node: u16) -> Result<bool, CountFault>
        ensures { ReadyTold self.now node result }
    {
        let number = self.number_of(node)?;
        Ok(self.marking.is_ready(number))
    }

    // The number of an inclusive gateway of the model.
    fn gateway(&self, node: u16) -> Result<u8, CountFault>
        ensures { MatchResult result
            (λ number. (gateway_verdict self.now node ≡ Ok tt) × (kind_of self.now node ≡ Inclusive) × (number ≡ node))
            (λ fault. gateway_verdict self.now node ≡ Err fault) }
    {
        let instance = self.instance;
        let number = self.number_of(node)?;
        if self.marking.kind(number) != Kind::Inclusive {
            return Err(CountFault::NotInclusive { node, instance });
        }
        Ok(number)
    }

    /// How many flows hold the inclusive gateway back. Refused if the model has no such node, else if it is none.
    pub fn holding(&self, node: u16) -> Result<u8, CountFault>
        ensures { HoldingTold self.now node result }
    {
        let gateway = self.gateway(node)?;
        Ok(self.marking.holding_number(gateway))
    }

    /// Why the inclusive gateway waits: the lowest flow that holds it back, and a path at the front of the list. Refused
    /// if the model has no such node, else if it is no inclusive gateway, else if it is ready, else if no inbound flow
    /// of it carries a token; refused, it leaves the list as it was.
    pub fn why(&self, node: u16, list: &mut [u8; MOST_FLOWS]) -> Result<Reason, CountFault>
        ensures { WhyTold self.now node list.old result list.new }
    {
        let instance = self.instance;
        let gateway = self.gateway(node)?;
        if self.marking.is_ready(gateway) {
            return Err(CountFault::Ready { node, instance });
        }
        let routing = self.marking.routing();
        let tokens = self.marking.tokens();
        if routing.inbound(gateway).intersection(tokens).is_empty() {
            return Err(CountFault::NoToken { node, instance });
        }
        let Some(reason) = why(routing, tokens, gateway, list) else {
            unreachable()
        };
        Ok(reason)
    }
}
