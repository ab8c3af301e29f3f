//! A service with one answer, for one node.
ghost use Rattle.std.specs.Prelude.{◌≡◌, true};
ghost use Rattle.service_tests.specs.Sound.{may_wait};

use service::answer::Answer;

mod methods;

/// The node, and its answer until it is taken.
#[derive(Drop)]
pub struct Single {
    node: u16,
    answer: Option<Answer>,
    ghost sound: { may_wait node answer ≡ true },
}
