//! The ranges of the numbers in a process.
ghost use Rattle.std.specs.Prelude.{◌≡◌};
ghost use Rattle.process.specs.Processes.{is_node_number, is_figure, is_value};

// Tests of one shape: each is a rule with a name of its own, and one generic test would only move its numbers to the callers.

/// Whether some process has a node with this number.
pub fn is_node_number(node: u16) -> bool
    ensures { result ≡ is_node_number node }
{
    1 <= node && node <= 40
}

/// Whether a figure has this number.
pub fn is_figure(figure: u8) -> bool
    ensures { result ≡ is_figure figure }
{
    1 <= figure && figure <= 16
}

/// Whether a figure may have this value.
pub fn is_value(value: i32) -> bool
    ensures { result ≡ is_value value }
{
    -1_000_000_000 <= value && value <= 1_000_000_000
}
