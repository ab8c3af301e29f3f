//! What a step would move: found without changing anything, so that a refusal leaves everything as it was.
ghost use Rattle.std.specs.Prelude.{◌≡◌, Decides, MatchResult};
ghost use Rattle.engine.specs.Steps.{Room, Unanswered, Hinders, Clear};

use crate::counts::Begun;
use choice::choices::puts;
use fault::count::CountFault;
use fault::service::ServiceFault;
use process::node::Kind;
use process::sets::FlowSet;
use service::service::Service;

/// The flows whose tokens a step takes, and those that it puts tokens on.
#[derive(Clone, Copy)]
pub(crate) struct Movement {
    pub(crate) taken: FlowSet,
    pub(crate) put: FlowSet,
}

impl<'a> Begun<'a> {
    // Whether the node is a task for which no answer waits.
    fn lacks_answer<S: Service>(&self, node: u8, service: &S) -> bool
        ensures { Decides result (Unanswered self.now (S.waits service.now) node) }
    {
        matches!(self.marking.kind(node), Kind::Task { .. })
            && service.waiting(u16::from(node)) == 0
    }

    /// Whether the journal has a next place for a line of this count.
    pub(crate) fn has_room(&self, places: usize) -> bool
        ensures { Decides result (Room self.now places) }
    {
        usize::from(self.written) < places && self.written < 65_535
    }

    /// What a step of the node would move, or what hinders it: no answer, no way, or the lowest flow that is to be put
    /// on and still carries a token after the taking.
    pub(crate) fn movement<S: Service>(&self, node: u8, service: &S) -> Result<Movement, CountFault>
        ensures { MatchResult result
            (Clear self.now (S.waits service.now) node)
            (Hinders self.now (S.waits service.now) node) }
    {
        let instance = self.instance;
        let number = u16::from(node);
        if self.lacks_answer(node, service) {
            let fault = ServiceFault::NoAnswer { node: number };
            return Err(CountFault::Service { fault, instance });
        }
        let put = puts(self.marking.routing(), &self.figures, node).ok_or(CountFault::NoWay {
            node: number,
            instance,
        })?;
        let taken = self.marking.takes(node);
        let occupied = self.marking.tokens().difference(taken).intersection(put);
        match occupied.lowest() {
            Some(flow) => Err(CountFault::Occupied { flow, instance }),
            None => Ok(Movement { taken, put }),
        }
    }
}
