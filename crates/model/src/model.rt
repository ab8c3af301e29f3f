//! A sound model.
ghost use Rattle.process.specs.Drafts.{nodes_of, flows_of};
ghost use Rattle.model.specs.Sound.{Sound};

use process::draft::Draft;

mod methods;

/// A process that keeps every rule. No other can be made.
#[derive(Drop)]
pub struct Model {
    process: Draft,
    ghost sound: { ∥ Sound (nodes_of process) (flows_of process) ∥₁ },
}
