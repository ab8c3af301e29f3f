//! What the search asks of a graph and of its places.
ghost use Rattle.std.specs.Prelude.{◌≡◌, Bool, List, length, Decides};
ghost use Rattle.std.specs.List.{slice_get};
ghost use Rattle.std.proofs.Common.{rules};

// Both are traits and no closures: a public call may not require that a closure can be called.

/// Values on which `==` is sameness.
pub trait Same: PartialEq + Sized {
    ghost lawful: { (x y : Self) (r : Bool) → (r ≡ Self.PartialEq.eq x y) → Decides r (x ≡ y) };
}

// One impl for each type of numbers: no bound of std says that `==` is sameness, and a trait that did would need the same five.
impl Same for u8 {
    ghost lawful = { Prim.search rules };
}

impl Same for u16 {
    ghost lawful = { Prim.search rules };
}

impl Same for u32 {
    ghost lawful = { Prim.search rules };
}

impl Same for u64 {
    ghost lawful = { Prim.search rules };
}

impl Same for usize {
    ghost lawful = { Prim.search rules };
}

/// Places, and for each place the places next to it. A place may be next to itself, and twice next to the same place.
pub trait Graph {
    type Place: Copy + Same;

    /// The places next to a place, by which the calls below and the search are described.
    ghost next: { Self → Self.Place → List Self.Place };

    /// How many places are next to a place.
    fn degree(&self, place: Self::Place) -> usize
        ensures { result ≡ length (next self.now place) };

    /// The place at an index, from 0, among those next to a place.
    fn neighbour(&self, place: Self::Place, index: usize) -> Option<Self::Place>
        ensures { result ≡ slice_get (next self.now place) index };
}
