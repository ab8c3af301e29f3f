//! The calls of a work list. Their contracts cite definitions that name the struct, so they cannot stand in its file.
ghost use Rattle.std.specs.Prelude.{◌≡◌, ◌<◌, [], ◌∷◌, ◌++◌, length, MatchResult};
ghost use Rattle.graph.specs.Ring.{entries, capacity};

use super::WorkList;
use fault::graph::GraphFault;

impl<'a, T: Copy> WorkList<'a, T> {
    /// An empty list over the lent memory. As many entries can wait as the memory has places.
    pub fn new(memory: &'a mut [T]) -> Self
        ensures empty { entries result ≡ [] }
        ensures places { capacity result ≡ length memory.old }
    {
        WorkList {
            memory,
            first: 0,
            waiting: 0,
        }
    }

    /// How many entries wait.
    pub fn waiting(&self) -> usize
        ensures { result ≡ length (entries self.now) }
    {
        self.waiting
    }

    /// Puts an entry behind those that wait.
    /// Refused as full exactly when as many entries wait as the memory has places, and then nothing is changed.
    pub fn put(&mut self, entry: T) -> Result<(), GraphFault>
        ensures cases { MatchResult result
            (λ _. (length (entries self.old) < capacity self.old) × (entries self.new ≡ entries self.old ++ entry ∷ []))
            (λ e. (e ≡ GraphFault.Full) × (length (entries self.old) ≡ capacity self.old) × (self.new ≡ self.old)) }
        ensures places { capacity self.new ≡ capacity self.old }
    {
        if self.waiting >= self.memory.len() {
            return Err(GraphFault::Full);
        }
        let behind = self.memory.len() - self.first;
        let at = if self.waiting < behind {
            self.first + self.waiting
        } else {
            self.waiting - behind
        };
        self.memory[at] = entry;
        self.waiting += 1;
        Ok(())
    }

    /// Takes the oldest entry out.
    /// Refused as empty exactly when no entry waits, and then nothing is changed.
    pub fn take(&mut self) -> Result<T, GraphFault>
        ensures cases { MatchResult result
            (λ x. entries self.old ≡ x ∷ entries self.new)
            (λ e. (e ≡ GraphFault.Empty) × (entries self.old ≡ []) × (self.new ≡ self.old)) }
        ensures places { capacity self.new ≡ capacity self.old }
    {
        if self.waiting == 0 {
            return Err(GraphFault::Empty);
        }
        let at = if self.first < self.memory.len() {
            self.first
        } else {
            0
        };
        let entry = self.memory[at];
        self.first = at + 1;
        self.waiting -= 1;
        Ok(entry)
    }
}
