//! The record of a fault.
ghost use Rattle.std.specs.Prelude.{◌≡◌};
ghost use Rattle.fault.specs.Records.{told};

/// What is told of a fault: its number, the layer that found it, where, and in which instance (0 outside a count).
// Numbers, since the record is what is printed and compared: the enums beside it say what each number stands for.
#[derive(Clone, Copy, PartialEq, Eq, Debug)]
pub struct FaultRecord {
    pub number: u8,
    pub layer: u8,
    pub place: usize,
    pub instance: u16,
}

impl FaultRecord {
    /// The record of a fault outside a count.
    pub(crate) fn told(number: u8, layer: u8, place: usize) -> FaultRecord
        ensures { result ≡ told number layer place }
    {
        FaultRecord {
            number,
            layer,
            place,
            instance: 0,
        }
    }
}
