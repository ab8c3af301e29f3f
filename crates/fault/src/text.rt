//! Faults of a text as a whole (layer 1).
ghost use Rattle.std.specs.Prelude.{◌≡◌};
ghost use Rattle.fault.specs.Records.{text_record};

use crate::record::FaultRecord;

const LAYER: u8 = 1;

/// Why the bytes are no text.
#[derive(Clone, Copy, PartialEq, Eq, Debug)]
pub enum TextFault {
    /// The text is empty or too long.
    Size,
    /// The first byte that is not allowed stands at this offset.
    Byte { offset: usize },
    /// The last byte of a text of this length is no line feed.
    Ending { length: usize },
}

impl TextFault {
    /// The fault's record.
    pub fn record(self) -> FaultRecord
        ensures { result ≡ text_record self }
    {
        match self {
            TextFault::Size => FaultRecord::told(11, LAYER, 0),
            TextFault::Byte { offset } => FaultRecord::told(12, LAYER, offset),
            TextFault::Ending { length } => FaultRecord::told(13, LAYER, length),
        }
    }
}
