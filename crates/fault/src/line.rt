//! Faults of a line of a text (layer 2). Lines are numbered from 1.
ghost use Rattle.std.specs.Prelude.{◌≡◌};
ghost use Rattle.fault.specs.Records.{line_record};
ghost use Rattle.fault.specs.declared.line.LineFault.TheVariants.{Text};

use crate::record::FaultRecord;
use crate::text::TextFault;

const LAYER: u8 = 2;

/// Why a text is refused when its lines are read.
#[derive(Clone, Copy, PartialEq, Eq, Debug)]
pub enum LineFault {
    /// The text has a fault as a whole.
    Text(TextFault),
    /// The line has no form that is allowed here.
    Form { line: usize },
    /// A number is badly written or out of its range.
    Number { line: usize },
    /// The number of the node or flow is not the next one.
    Sequence { line: usize },
    /// The node or flow is one more than a process may have.
    TooMany { line: usize },
    /// The flow names a node that is missing.
    MissingNode { line: usize },
}

// By hand: a derived `From` does not say what it gives.
impl From<TextFault> for LineFault {
    ghost from_gives = { λ fault r. r ≡ Text fault };

    fn from(fault: TextFault) -> LineFault {
        LineFault::Text(fault)
    }
}

impl LineFault {
    /// The fault's record.
    pub fn record(self) -> FaultRecord
        ensures { result ≡ line_record self }
    {
        match self {
            LineFault::Text(fault) => fault.record(),
            LineFault::Form { line } => FaultRecord::told(21, LAYER, line),
            LineFault::Number { line } => FaultRecord::told(22, LAYER, line),
            LineFault::Sequence { line } => FaultRecord::told(23, LAYER, line),
            LineFault::TooMany { line } => FaultRecord::told(24, LAYER, line),
            LineFault::MissingNode { line } => FaultRecord::told(25, LAYER, line),
        }
    }
}
