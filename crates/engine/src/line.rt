//! A line of the journal.
use process::sets::FlowSet;
use service::answer::Answer;

/// One accepted step: the node, the flows whose tokens it took, the flows that it put tokens on, and the answer that a
/// task's figure became, or 0 where the node is no task.
// No Option: that a line has 0 there is part of what docs/counts.md says of a journal.
#[derive(Clone, Copy, PartialEq, Eq, Debug)]
pub struct Line {
    pub node: u8,
    pub taken: FlowSet,
    pub put: FlowSet,
    pub answer: Answer,
}
