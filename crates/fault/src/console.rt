//! Faults that the console shows (layer 6 and those below it).
ghost use Rattle.std.specs.Prelude.{◌≡◌};
ghost use Rattle.fault.specs.Records.{console_record};
ghost use Rattle.fault.specs.declared.console.ConsoleFault.TheVariants.{Model, Order};

use crate::line::LineFault;
use crate::model::ModelFault;
use crate::record::FaultRecord;

const LAYER: u8 = 6;

/// Why the console refuses its input.
#[derive(Clone, Copy, PartialEq, Eq, Debug)]
pub enum ConsoleFault {
    /// The model text is refused.
    Model(ModelFault),
    /// The order text is refused.
    Order(LineFault),
    /// Fewer than 512 bytes stand from the place given.
    NoRoom { place: usize },
}

// Both by hand: a derived `From` does not say what it gives.
impl From<ModelFault> for ConsoleFault {
    ghost from_gives = { λ fault r. r ≡ Model fault };

    fn from(fault: ModelFault) -> ConsoleFault {
        ConsoleFault::Model(fault)
    }
}

impl From<LineFault> for ConsoleFault {
    ghost from_gives = { λ fault r. r ≡ Order fault };

    fn from(fault: LineFault) -> ConsoleFault {
        ConsoleFault::Order(fault)
    }
}

impl ConsoleFault {
    /// The fault's record.
    pub fn record(self) -> FaultRecord
        ensures { result ≡ console_record self }
    {
        match self {
            ConsoleFault::Model(fault) => fault.record(),
            ConsoleFault::Order(fault) => fault.record(),
            ConsoleFault::NoRoom { place } => FaultRecord::told(46, LAYER, place),
        }
    }
}
