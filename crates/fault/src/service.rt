//! Faults of a service (layer 5).
ghost use Rattle.std.specs.Prelude.{◌≡◌};
ghost use Rattle.fault.specs.Records.{service_record};

use crate::record::FaultRecord;

const LAYER: u8 = 5;

/// Why a service refuses. A node is the number that was given.
#[derive(Clone, Copy, PartialEq, Eq, Debug)]
pub enum ServiceFault {
    /// No node can have this number.
    NodeNumber { node: u16 },
    /// The answer is out of the range of a figure's value.
    Value,
    /// As many answers wait as the tray holds.
    Full { node: u16 },
    /// No answer waits for the node.
    NoAnswer { node: u16 },
}

impl ServiceFault {
    /// The fault's record, outside a count.
    pub fn record(self) -> FaultRecord
        ensures { result ≡ service_record self }
    {
        match self {
            ServiceFault::NodeNumber { node } => FaultRecord::told(43, LAYER, usize::from(node)),
            ServiceFault::Value => FaultRecord::told(42, LAYER, 0),
            ServiceFault::Full { node } => FaultRecord::told(66, LAYER, usize::from(node)),
            ServiceFault::NoAnswer { node } => FaultRecord::told(63, LAYER, usize::from(node)),
        }
    }
}
