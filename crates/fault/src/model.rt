//! Faults of a process as a whole (layer 3).
ghost use Rattle.std.specs.Prelude.{◌≡◌};
ghost use Rattle.fault.specs.Records.{model_record};
ghost use Rattle.fault.specs.declared.model.ModelFault.TheVariants.{Line};

use crate::line::LineFault;
use crate::record::FaultRecord;

const LAYER: u8 = 3;

/// Why a text is refused when it is read as a model. A node or flow that is named is the lowest that breaks the rule.
#[derive(Clone, Copy, PartialEq, Eq, Debug)]
pub enum ModelFault {
    /// The text has a fault as a whole or in a line.
    Line(LineFault),
    /// There is not exactly one start, or there is no end.
    StartsAndEnds,
    /// The node has too few or too many inbound or outgoing flows.
    FlowCount { node: u8 },
    /// The flow leads from a node to itself.
    SelfLoop { flow: u8 },
    /// The flow lacks a condition or default that it has to have, or has one that it may not have.
    Guard { flow: u8 },
    /// The flow is a second default of its gateway.
    SecondDefault { flow: u8 },
    /// The node cannot be reached from the start.
    NotReached { node: u8 },
}

// By hand: a derived `From` does not say what it gives.
impl From<LineFault> for ModelFault {
    ghost from_gives = { λ fault r. r ≡ Line fault };

    fn from(fault: LineFault) -> ModelFault {
        ModelFault::Line(fault)
    }
}

impl ModelFault {
    /// The fault's record.
    pub fn record(self) -> FaultRecord
        ensures { result ≡ model_record self }
    {
        match self {
            ModelFault::Line(fault) => fault.record(),
            ModelFault::StartsAndEnds => FaultRecord::told(31, LAYER, 0),
            ModelFault::FlowCount { node } => FaultRecord::told(32, LAYER, usize::from(node)),
            ModelFault::SelfLoop { flow } => FaultRecord::told(33, LAYER, usize::from(flow)),
            ModelFault::Guard { flow } => FaultRecord::told(34, LAYER, usize::from(flow)),
            ModelFault::SecondDefault { flow } => FaultRecord::told(35, LAYER, usize::from(flow)),
            ModelFault::NotReached { node } => FaultRecord::told(36, LAYER, usize::from(node)),
        }
    }
}
