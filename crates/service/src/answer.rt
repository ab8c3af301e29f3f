//! What an officer enters at a task.
ghost use Rattle.std.specs.Prelude.{◌≡◌};
ghost use Rattle.service.specs.Answers.{in_range};

use process::ranges::is_value;

/// An answer: what the task's figure becomes.
#[derive(Clone, Copy, PartialEq, Eq, Debug)]
pub struct Answer {
    pub value: i32,
}

impl Answer {
    /// Whether a figure may have the answer's value.
    pub fn in_range(self) -> bool
        ensures { result ≡ in_range self }
    {
        is_value(self.value)
    }
}
