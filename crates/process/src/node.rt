//! Nodes of a process. Node n stands at place n - 1.

/// What a node is.
#[derive(Clone, Copy, PartialEq, Eq, Debug)]
pub enum Kind {
    /// The start event.
    Start,
    /// An end event.
    End,
    /// A task, whose answer sets the figure with this number.
    Task { figure: u8 },
    /// An exclusive gateway.
    Exclusive,
    /// A parallel gateway.
    Parallel,
    /// An inclusive gateway.
    Inclusive,
}
