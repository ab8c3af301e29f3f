//! A list of entries that wait, first in first out, over lent memory.
//!
//! The contracts speak of the list of waiting entries, `entries`, oldest first, and of `capacity`, how many can wait at once.
ghost use Rattle.std.specs.Prelude.{◌≤◌, length};

mod methods;

// No impl Model: contracts would still name both the entries and the capacity, and a refused call would promise less
// than that nothing at all is changed.
/// Entries that wait in a ring: the first free place after the memory's end is its start.
#[derive(Drop)]
pub struct WorkList<'a, T> {
    memory: &'a mut [T],
    // Where the oldest entry stands. It may be the memory's length, which stands for place 0,
    // so that a step forward needs no division and memory without places no case of its own.
    first: usize,
    waiting: usize,
    ghost inside: { (first ≤ length memory.now) × (waiting ≤ length memory.now) },
}
