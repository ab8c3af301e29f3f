//! A run of steps, within a budget.
ghost use Rattle.std.specs.Prelude.{◌≡◌};
ghost use Rattle.engine.specs.Runs.{Ran};

use crate::counts::Begun;
use crate::line::Line;
use service::service::Service;

/// Why a run stops.
#[derive(Clone, Copy, PartialEq, Eq, Debug)]
pub enum Stop {
    /// No flow carries a token.
    Finished,
    /// No node is ready.
    Resting,
    /// No node can go.
    Held,
    /// As many steps are done as the budget has.
    Spent,
    /// The journal has no place left, or as many lines stand in it as can be counted.
    JournalFull,
}

/// How many steps a run made, and why it stopped.
#[derive(Clone, Copy)]
pub struct Outcome {
    pub steps: u16,
    pub stop: Stop,
}

impl<'a> Begun<'a> {
    /// Steps the lowest node that can go, again and again, until it has to stop: finished, resting, held, spent, or with
    /// the journal full.
    pub fn run<S: Service>(&mut self, budget: u16, journal: &mut [Line], service: &mut S) -> Outcome
        ensures { Ran self.old journal.old (S.waits service.old) budget result.steps result.stop self.new journal.new (S.waits service.new) }
    {
        let mut steps = 0;
        // Ends by `next`, which counts the steps against the budget: a `for` over the budget would not say why it ends.
        loop {
            match self.next(steps, budget, journal.len(), service) {
                Err(stop) => return Outcome { steps, stop },
                Ok(turn) => {
                    self.carry_out(turn, journal, service);
                    steps += 1;
                }
            }
        }
    }
}
