ghost use Rattle.std.specs.Prelude.{◌≡◌, ◌≤◌, [], ◌∷◌, ◌++◌, length, if◌then◌else◌, nat_lt};
ghost use Rattle.std.specs.List.{slice_get, remove};
ghost use Rattle.process.specs.Rows.{items};

use super::Row;

impl<T: Copy, const N: usize> Row<T, N> {
    /// No item. `filler` is what the unused memory holds.
    pub fn new(filler: T) -> Self
        ensures { items result ≡ [] }
    {
        Row {
            memory: [filler; N],
            count: 0,
        }
    }

    /// How many items there are.
    pub fn len(&self) -> usize
        ensures { result ≡ length (items self.now) }
    {
        self.as_slice().len()
    }

    /// The items.
    pub fn as_slice(&self) -> &[T]
        ensures value { result.now ≡ items self.now }
        ensures few { length result.now ≤ N }
    {
        let memory = &self.memory[..];
        &memory[0..self.count]
    }

    /// Puts an item behind the others, and tells whether there was room for it.
    // A bool, as a set of std tells of an insert: no fault of the rules speaks of a row.
    pub fn push(&mut self, item: T) -> bool
        ensures told { result ≡ nat_lt (length (items self.old)) N }
        ensures after { items self.new ≡ (if result then items self.old ++ item ∷ [] else items self.old) }
    {
        if self.count >= N {
            return false;
        }
        self.memory[self.count] = item;
        self.count += 1;
        true
    }

    /// Takes out the item at an index and closes the gap. `None`, and no change, where no item stands there.
    pub fn remove(&mut self, index: usize) -> Option<T>
        ensures told { result ≡ slice_get (items self.old) index }
        ensures after { items self.new ≡ remove (items self.old) index }
    {
        if index >= self.count {
            return None;
        }
        let item = self.memory[index];
        self.memory.copy_within(index + 1..self.count, index);
        self.count -= 1;
        Some(item)
    }
}
