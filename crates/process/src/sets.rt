//! Sets of sequence flows. Flow n is bit n - 1 of a word, which has a bit for each flow that a process can have.
ghost use Rattle.std.specs.Prelude.{◌≡◌};
ghost use Rattle.std.specs.Iterator.{YieldsFirst, item_count};
ghost use Rattle.std.specs.List.{slice_get};
ghost use Rattle.process.specs.Left.{left};
ghost use Rattle.process.specs.Sets.{in_range, has, no_flows, just, joined, shared, without, these, is_none, above, tally, SetLaws};

/// A set of flows, by their numbers.
#[derive(Clone, Copy, PartialEq, Eq, Debug)]
pub struct FlowSet {
    bits: u64,
}

// Whether a flow can have this number.
fn in_range(flow: u8) -> bool
    ensures { result ≡ in_range flow }
{
    1 <= flow && flow <= 64
}

impl FlowSet {
    /// The set without a flow.
    #[tactic(auto, unfolding(crate::specs::Sets::no_flows))]
    pub fn empty() -> FlowSet
        ensures { result ≡ no_flows }
    {
        FlowSet { bits: 0 }
    }

    /// The set with this flow alone. No flow has the number 0 or a number above 64: then the set is empty.
    pub fn single(flow: u8) -> FlowSet
        ensures { result ≡ just flow }
    {
        if !in_range(flow) {
            return FlowSet::empty();
        }
        FlowSet {
            bits: 1 << (flow - 1),
        }
    }

    /// The set with the flows that the list names.
    pub fn of(flows: &[u8]) -> FlowSet
        ensures { result ≡ these flows.now }
    {
        let mut found = FlowSet::empty();
        for flow in flows {
            found = found.insert(*flow);
        }
        found
    }

    /// Whether the flow is in the set.
    pub fn contains(self, flow: u8) -> bool
        ensures { result ≡ has self flow }
    {
        if !in_range(flow) {
            return false;
        }
        (self.bits >> (flow - 1)) & 1 == 1
    }

    /// The flows of either set.
    #[tactic(auto, unfolding(crate::specs::Sets::joined))]
    pub fn union(self, other: FlowSet) -> FlowSet
        ensures { result ≡ joined self other }
    {
        FlowSet {
            bits: self.bits | other.bits,
        }
    }

    /// The flows of both sets.
    #[tactic(auto, unfolding(crate::specs::Sets::shared))]
    pub fn intersection(self, other: FlowSet) -> FlowSet
        ensures { result ≡ shared self other }
    {
        FlowSet {
            bits: self.bits & other.bits,
        }
    }

    /// The flows of this set that the other does not have.
    #[tactic(auto, unfolding(crate::specs::Sets::without))]
    pub fn difference(self, other: FlowSet) -> FlowSet
        ensures { result ≡ without self other }
    {
        FlowSet {
            bits: self.bits ^ (self.bits & other.bits),
        }
    }

    /// The set with the flow besides.
    pub fn insert(self, flow: u8) -> FlowSet
        ensures { result ≡ joined self (just flow) }
    {
        self.union(FlowSet::single(flow))
    }

    /// The set without the flow.
    pub fn remove(self, flow: u8) -> FlowSet
        ensures { result ≡ without self (just flow) }
    {
        self.difference(FlowSet::single(flow))
    }

    /// Whether the set has no flow.
    #[tactic(auto, unfolding(crate::specs::Sets::is_none))]
    pub fn is_empty(self) -> bool
        ensures { result ≡ is_none self }
    {
        self.bits == 0
    }

    /// How many flows the set has.
    pub fn len(self) -> u32
        ensures { result ≡ tally (has self) 64 }
    {
        self.bits.count_ones()
    }

    /// The lowest flow of the set above a number.
    pub fn next_after(self, number: u8) -> Option<u8>
        ensures { result ≡ slice_get (above self number) 0 }
    {
        if number >= 64 {
            return None;
        }
        let higher = self.bits >> number;
        if higher == 0 {
            return None;
        }
        // at most 63: the cast is proved to lose nothing
        Some(number + 1 + higher.trailing_zeros() as u8)
    }

    /// The lowest flow of the set.
    pub fn lowest(self) -> Option<u8>
        ensures { result ≡ slice_get (above self 0) 0 }
    {
        self.next_after(0)
    }

    /// The flows of the set, lowest first.
    pub fn iter(self) -> Flows
        ensures { left result ≡ above self 0 }
    {
        Flows { rest: self }
    }

    /// The flow of the set that has this many lower ones.
    pub fn nth(self, index: usize) -> Option<u8>
        ensures { result ≡ slice_get (above self 0) index }
    {
        self.iter().nth(index)
    }
}

/// The flows of a set that are still to come, lowest first.
// What has come is taken out of the set: to look above the last one that came took up to twice the time in a full set.
#[derive(Clone, Copy)]
pub struct Flows {
    rest: FlowSet,
}

impl Iterator for Flows {
    type Item = u8;

    ghost next_gives = { YieldsFirst left };

    ghost remaining = { item_count left };

    fn next(&mut self) -> Option<u8> {
        let flow = self.rest.lowest()?;
        self.rest = self.rest.remove(flow);
        Some(flow)
    }
}

/// What the operations do, by membership.
pub fn set_laws_hold()
    ensures { SetLaws }
{}
