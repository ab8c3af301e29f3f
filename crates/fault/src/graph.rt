//! Faults of the work list and of the search (layer 4).
ghost use Rattle.std.specs.Prelude.{◌≡◌};
ghost use Rattle.fault.specs.Records.{graph_record};

use crate::record::FaultRecord;

const LAYER: u8 = 4;

/// Why the work list or the search refuses.
#[derive(Clone, Copy, PartialEq, Eq, Debug)]
pub enum GraphFault {
    /// As many entries wait as the work list has places.
    Full,
    /// No entry waits in the work list.
    Empty,
    /// More places can be reached than the list holds.
    TooMany,
}

impl GraphFault {
    /// The fault's record, outside a count.
    pub fn record(self) -> FaultRecord
        ensures { result ≡ graph_record self }
    {
        match self {
            GraphFault::Full => FaultRecord::told(68, LAYER, 0),
            GraphFault::Empty => FaultRecord::told(69, LAYER, 0),
            GraphFault::TooMany => FaultRecord::told(70, LAYER, 0),
        }
    }
}
