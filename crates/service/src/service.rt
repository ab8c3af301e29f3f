//! What every service promises.
ghost use Rattle.std.specs.Prelude.{◌≡◌, ℕ, ◌<◌, ◌≤◌, List, length, is_ok, if◌then◌else◌};
ghost use Rattle.service.specs.declared.answer.Answer.{Answer};
ghost use Rattle.service.specs.Waits.{Ranged, oldest, taken};

use crate::answer::Answer;
use fault::service::ServiceFault;

// A trait and no closures: a public call may not require that a closure can be called.
/// Holds for each node the answers that still wait, oldest first. That is all that is known of a service.
pub trait Service {
    ghost waits: { Self → ℕ → List Answer };

    /// How many answers wait for the node.
    fn waiting(&self, node: u16) -> usize
        ensures { result ≡ length (waits self.now node) };

    /// Gives and removes the oldest answer that waits for the node. Refused exactly if none waits.
    fn take(&mut self, node: u16) -> Result<Answer, ServiceFault>
        ensures reply { result ≡ oldest (waits self.old node) node }
        ensures after { waits self.new ≡ (if is_ok result then taken (waits self.old) node else waits self.old) };

    ghost ranged: { (s : Self) (n : ℕ) → Ranged (waits s n) };

    ghost numbered: { (s : Self) (n : ℕ) → 0 < length (waits s n) → (1 ≤ n) × (n ≤ 40) };
}
