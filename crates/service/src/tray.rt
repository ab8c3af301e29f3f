//! The tray, which officers fill.
ghost use Rattle.std.specs.Prelude.{◌≡◌, ℕ, ◌≤◌, []};
ghost use Rattle.service.specs.Answers.{answer};
ghost use Rattle.service.specs.Piles.{waits_on};
ghost use Rattle.service.specs.Waits.{waiting_in_all, put_verdict, Put};
ghost use Rattle.service.specs.PilesLemmas.{ranged-in, numbered-in};

use crate::answer::Answer;
use crate::pile::Pile;
use crate::service::Service;
use fault::service::ServiceFault;

/// The most answers that wait in a tray.
pub const MOST_WAITING: usize = 64;

/// At most 64 answers, over all nodes. A struct around its pile, as the order file is: only a tray can be put into, and only
/// an order file has a fault. What both do as a service is the pile's.
#[derive(Drop)]
pub struct Tray {
    pile: Pile<MOST_WAITING>,
}

impl Tray {
    /// An empty tray.
    pub fn new() -> Tray
        ensures { (n : ℕ) → waits_on result n ≡ [] }
    {
        Tray { pile: Pile::new() }
    }

    /// Puts an answer behind those that wait for the node. Refused if no node can have the number, else if no figure
    /// can have the value, else if 64 answers wait over all nodes; refused, it changes nothing.
    pub fn put(&mut self, node: u16, value: i32) -> Result<(), ServiceFault>
        ensures reply { result ≡ put_verdict 64 (waits_on self.old) node (answer value) }
        ensures after { Put waits_on self.old node (answer value) result self.new }
        ensures few { waiting_in_all (waits_on self.new) ≤ 64 }
    {
        self.pile.put(node, Answer { value })
    }
}

impl Service for Tray {
    ghost waits = { waits_on };

    ghost ranged = { λ t. ranged-in t.pile };

    ghost numbered = { λ t. numbered-in t.pile };

    fn waiting(&self, node: u16) -> usize {
        self.pile.waiting(node)
    }

    fn take(&mut self, node: u16) -> Result<Answer, ServiceFault> {
        self.pile.take(node)
    }
}
