//! Answers that wait, in the order in which they came.
ghost use Rattle.std.specs.Prelude.{◌≡◌, true};
ghost use Rattle.process.specs.Rows.{items};
ghost use Rattle.service.specs.Entries.{all_sound};

use crate::waiting::Waiting;
use process::row::Row;

mod methods;

/// At most N answers, whichever nodes they wait for.
#[derive(Drop)]
pub struct Pile<const N: usize> {
    entries: Row<Waiting, N>,
    ghost sound: { all_sound (items entries) ≡ true },
}
