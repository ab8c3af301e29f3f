//! The step that a run makes next.
ghost use Rattle.std.specs.Prelude.{◌≡◌, ◌≤◌, MatchResult};
ghost use Rattle.engine.specs.Runs.{Stops, Turns, Idle, NextTurn};

use crate::counts::Begun;
use crate::movement::Movement;
use crate::run::Stop;
use service::service::Service;

/// A node that can go, and what its step moves.
#[derive(Clone, Copy)]
pub(crate) struct Turn {
    pub(crate) node: u8,
    pub(crate) movement: Movement,
}

impl<'a> Begun<'a> {
    // The lowest node that can go. Where there is none: held if some node is ready, else resting.
    fn lowest_to_go<S: Service>(&self, service: &S) -> Result<Turn, Stop>
        ensures { MatchResult result
            (Turns self.now (S.waits service.now))
            (Idle self.now (S.waits service.now)) }
    {
        let mut stop = Stop::Resting;
        let last = self.last_node();
        for node in 1..last + 1 {
            if self.marking.is_ready(node) {
                stop = Stop::Held;
                if let Ok(movement) = self.movement(node, service) {
                    return Ok(Turn { node, movement });
                }
            }
        }
        Err(stop)
    }

    /// The step that a run makes after so many of its budget, or why it stops.
    pub(crate) fn next<S: Service>(
        &self,
        steps: u16,
        budget: u16,
        places: usize,
        service: &S,
    ) -> Result<Turn, Stop>
        requires { steps ≤ budget }
        ensures { MatchResult result
            (NextTurn self.now places (S.waits service.now) budget steps)
            (Stops self.now places (S.waits service.now) budget steps) }
    {
        if self.marking.tokens().is_empty() {
            return Err(Stop::Finished);
        }
        let turn = self.lowest_to_go(service)?;
        if steps >= budget {
            return Err(Stop::Spent);
        }
        if !self.has_room(places) {
            return Err(Stop::JournalFull);
        }
        Ok(turn)
    }
}
