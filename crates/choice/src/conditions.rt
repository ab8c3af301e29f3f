//! Conditions of sequence flows.
ghost use Rattle.std.specs.Prelude.{◌≡◌, Decides};
ghost use Rattle.choice.specs.Conditions.{Compares, GuardHolds, figure};

use process::flow::{Guard, Operator};
use process::numbers::numbered;

/// How many figures a count has.
pub const MOST_FIGURES: usize = 16;

// Here and below the definition goes by the same cases.

/// Whether the left number compares with the right one as the operator says.
pub fn compares(operator: Operator, left: i32, right: i32) -> bool
    ensures { Decides result (Compares operator left right) }
{
    match operator {
        Operator::Less if left < right => true,
        Operator::AtMost if left <= right => true,
        Operator::Equal if left == right => true,
        Operator::NotEqual if left != right => true,
        Operator::AtLeast if left >= right => true,
        Operator::Greater if left > right => true,
        _ => false,
    }
}

/// The value of a figure. No figure has the number 0 or a number above 16: then it is 0.
pub fn figure(figures: &[i32; MOST_FIGURES], number: u8) -> i32
    ensures { result ≡ figure figures.now number }
{
    numbered(figures, u16::from(number)).unwrap_or(0)
}

/// Whether the flow has a condition, and it holds.
pub fn guard_holds(figures: &[i32; MOST_FIGURES], guard: Guard) -> bool
    ensures { Decides result (GuardHolds figures.now guard) }
{
    match guard {
        Guard::Plain | Guard::Default => false,
        Guard::If(condition) => compares(
            condition.operator,
            figure(figures, condition.figure),
            condition.value,
        ),
    }
}
