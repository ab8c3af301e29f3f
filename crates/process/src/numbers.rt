//! Numbers from 1: item n of a list stands at place n - 1.
ghost use Rattle.std.specs.Prelude.{◌≡◌};
ghost use Rattle.process.specs.Numbered.{numbered};

/// The item with this number.
pub fn numbered<T: Copy>(items: &[T], number: u16) -> Option<T>
    ensures { result ≡ numbered items.now number }
{
    let place = usize::from(number).checked_sub(1)?;
    items.get(place).copied()
}
