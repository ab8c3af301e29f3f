//! Faults of a count (layer 4), and those that it passes on from its service (layer 5).
ghost use Rattle.std.specs.Prelude.{◌≡◌};
ghost use Rattle.fault.specs.Records.{count_record, of_count};

use crate::record::FaultRecord;
use crate::service::ServiceFault;

const LAYER: u8 = 4;

/// Why a count refuses a call. Each fault names the instance, and a node or figure by the number that was given.
#[derive(Clone, Copy, PartialEq, Eq, Debug)]
pub enum CountFault {
    /// No figure has this number.
    FigureNumber { figure: u16, instance: u16 },
    /// The value is out of the range of a figure's value.
    Value { instance: u16 },
    /// No node of the model has this number.
    NodeNumber { node: u16, instance: u16 },
    /// The node is not an inclusive gateway.
    NotInclusive { node: u16, instance: u16 },
    /// The node is not ready.
    NotReady { node: u16, instance: u16 },
    /// The journal has no place left, or as many lines stand in it as can be counted.
    JournalFull { node: u16, instance: u16 },
    /// The service refuses.
    Service { fault: ServiceFault, instance: u16 },
    /// No condition holds and there is no default.
    NoWay { node: u16, instance: u16 },
    /// The flow is to be put on, and still carries a token after the taking. It is the lowest such flow.
    Occupied { flow: u8, instance: u16 },
    /// The gateway is ready, so nothing holds it back.
    Ready { node: u16, instance: u16 },
    /// No inbound flow of the gateway carries a token.
    NoToken { node: u16, instance: u16 },
}

// A fault of the count itself.
fn of_count(number: u8, place: u16, instance: u16) -> FaultRecord
    ensures { result ≡ of_count number place instance }
{
    FaultRecord {
        instance,
        ..FaultRecord::told(number, LAYER, usize::from(place))
    }
}

impl CountFault {
    /// The fault's record. A fault of the service keeps its own, in the count's instance.
    pub fn record(self) -> FaultRecord
        ensures { result ≡ count_record self }
    {
        match self {
            CountFault::FigureNumber { figure, instance } => of_count(41, figure, instance),
            CountFault::Value { instance } => of_count(42, 0, instance),
            CountFault::NodeNumber { node, instance } => of_count(43, node, instance),
            CountFault::NotInclusive { node, instance } => of_count(44, node, instance),
            CountFault::NotReady { node, instance } => of_count(61, node, instance),
            CountFault::JournalFull { node, instance } => of_count(62, node, instance),
            CountFault::Service { fault, instance } => FaultRecord {
                instance,
                ..fault.record()
            },
            CountFault::NoWay { node, instance } => of_count(64, node, instance),
            CountFault::Occupied { flow, instance } => of_count(65, u16::from(flow), instance),
            CountFault::Ready { node, instance } => of_count(71, node, instance),
            CountFault::NoToken { node, instance } => of_count(72, node, instance),
        }
    }
}
