ghost use Rattle.std.specs.Prelude.{◌≡◌, ℕ, []};
ghost use Rattle.service.specs.Piles.{waits_in};
ghost use Rattle.service.specs.PilesLemmas.{ranged-in, numbered-in};
ghost use Rattle.service.specs.Waits.{put_verdict, Put};

use super::Pile;
use crate::answer::Answer;
use crate::service::Service;
use crate::waiting::{Waiting, count_for, place_for};
use fault::service::ServiceFault;
use process::ranges::is_node_number;
use process::row::Row;

impl<const N: usize> Pile<N> {
    /// An empty pile.
    pub fn new() -> Self
        ensures { (n : ℕ) → waits_in result n ≡ [] }
    {
        let filler = Waiting {
            node: 0,
            answer: Answer { value: 0 },
        };
        Pile {
            entries: Row::new(filler),
        }
    }

    /// Puts an answer behind those that wait for the node. Refused, it changes nothing.
    pub fn put(&mut self, node: u16, answer: Answer) -> Result<(), ServiceFault>
        ensures reply { result ≡ put_verdict N (waits_in self.old) node answer }
        ensures after { Put waits_in self.old node answer result self.new }
    {
        if !is_node_number(node) {
            return Err(ServiceFault::NodeNumber { node });
        }
        if !answer.in_range() {
            return Err(ServiceFault::Value);
        }
        if self.entries.len() >= N {
            return Err(ServiceFault::Full { node });
        }
        self.entries.push(Waiting { node, answer });
        Ok(())
    }
}

impl<const N: usize> Service for Pile<N> {
    ghost waits = { waits_in };

    ghost ranged = { ranged-in };

    ghost numbered = { numbered-in };

    #[tactic(auto, using(crate::proofs::Entries::counted))]
    fn waiting(&self, node: u16) -> usize {
        count_for(self.entries.as_slice(), node)
    }

    fn take(&mut self, node: u16) -> Result<Answer, ServiceFault> {
        let none = ServiceFault::NoAnswer { node };
        let place = place_for(self.entries.as_slice(), node).ok_or(none)?;
        let entry = self.entries.remove(place).ok_or(none)?;
        Ok(entry.answer)
    }
}
