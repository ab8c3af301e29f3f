//! The order file: the answers of an order text.
ghost use Rattle.std.specs.Prelude.{◌≡◌, ◌≤◌, true, length};
ghost use Rattle.reading.specs.Orders.{orders_in_range};
ghost use Rattle.service.specs.OrderFiles.{order_waits, waits_from, fault_of, Over};
ghost use Rattle.service.specs.Piles.{waits_in};
ghost use Rattle.service.specs.PilesLemmas.{ranged-in, numbered-in};

use crate::answer::Answer;
use crate::pile::Pile;
use crate::service::Service;
use fault::line::LineFault;
use fault::service::ServiceFault;
use reading::order::{MOST_LINES, OrderLine, read_order};

/// The answers of an order text. Where the text is refused there is none, and the fault is known. The fault stands beside the
/// pile and not in place of it: so each call of the service is the pile's, and need not ask which is there.
#[derive(Drop)]
pub struct OrderFile {
    pile: Pile<MOST_LINES>,
    fault: Option<LineFault>,
}

// The answers of the lines, in line order. None is refused: their numbers lie in their ranges, and there is room for all.
fn pile_of(lines: &[OrderLine]) -> Pile<MOST_LINES>
    requires in_range { orders_in_range lines.now ≡ true }
    requires few { length lines.now ≤ 1489 }
    ensures { waits_in result ≡ order_waits lines.now }
{
    let mut pile = Pile::new();
    for line in lines {
        let answer = Answer { value: line.value };
        let _ = pile.put(line.node, answer);
    }
    pile
}

impl OrderFile {
    /// The answers of the text; none where it is refused.
    pub fn over(text: &[u8]) -> OrderFile
        ensures { Over text.now result }
    {
        match read_order(text) {
            Ok(lines) => OrderFile {
                pile: pile_of(lines.as_slice()),
                fault: None,
            },
            Err(fault) => OrderFile {
                pile: Pile::new(),
                fault: Some(fault),
            },
        }
    }

    /// Why the text is refused: `None` where it is accepted.
    pub fn fault(&self) -> Option<LineFault>
        ensures { result ≡ fault_of self.now }
    {
        self.fault
    }
}

// Hands on to the pile, as the tray does: each is a struct of its own.
impl Service for OrderFile {
    ghost waits = { waits_from };

    ghost ranged = { λ f. ranged-in f.pile };

    ghost numbered = { λ f. numbered-in f.pile };

    fn waiting(&self, node: u16) -> usize {
        self.pile.waiting(node)
    }

    fn take(&mut self, node: u16) -> Result<Answer, ServiceFault> {
        self.pile.take(node)
    }
}
