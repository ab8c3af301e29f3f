//! Sequence flows of a process. Flow n stands at place n - 1.

/// How a figure is compared with a value.
#[derive(Clone, Copy, PartialEq, Eq, Debug)]
pub enum Operator {
    Less,
    AtMost,
    Equal,
    NotEqual,
    AtLeast,
    Greater,
}

/// A condition: the figure with this number, compared with the value.
#[derive(Clone, Copy, PartialEq, Eq, Debug)]
pub struct Condition {
    pub figure: u8,
    pub operator: Operator,
    pub value: i32,
}

/// What a flow says of when it is taken.
#[derive(Clone, Copy, PartialEq, Eq, Debug)]
pub enum Guard {
    /// It has neither a condition nor the mark of a default.
    Plain,
    /// It is the default of its gateway.
    Default,
    /// It has a condition.
    If(Condition),
}

/// A sequence flow from a node to a node, by their numbers.
#[derive(Clone, Copy, PartialEq, Eq, Debug)]
pub struct Flow {
    pub from: u8,
    pub to: u8,
    pub guard: Guard,
}
