ghost use Rattle.std.specs.Prelude.{◌≡◌, ◌≤◌, true, false, [], length, MatchResult};
ghost use Rattle.fault.specs.declared.line.LineFault.TheVariants.{Number};
ghost use Rattle.process.specs.Drafts.{number_of, nodes_of, flows_of, next_check, NodeAdded, FlowAdded};
ghost use Rattle.process.specs.Rows.{items};
ghost use Rattle.process.specs.Processes.{is_number, kind_in_range, guard_in_range, is_node};

use super::Draft;
use crate::flow::{Condition, Flow, Guard};
use crate::node::Kind;
use crate::ranges::{is_figure, is_value};
use crate::row::Row;
use fault::line::LineFault;

// Here and below the definition goes by the same cases.

fn kind_in_range(kind: Kind) -> bool
    ensures { result ≡ kind_in_range kind }
{
    match kind {
        Kind::Task { figure } => is_figure(figure),
        Kind::Start | Kind::End | Kind::Exclusive | Kind::Parallel | Kind::Inclusive => true,
    }
}

fn guard_in_range(guard: Guard) -> bool
    ensures { result ≡ guard_in_range guard }
{
    match guard {
        Guard::Plain | Guard::Default => true,
        Guard::If(condition) => is_figure(condition.figure) && is_value(condition.value),
    }
}

// Refuses an item, named in a line of the text, that the list has no room for, or whose number is not the next.
fn check_next<T: Copy, const N: usize>(
    list: &Row<T, N>,
    line: usize,
    number: u16,
) -> Result<(), LineFault>
    ensures { result ≡ next_check N (length (items list.now)) line number }
{
    let count = list.len();
    if count >= N {
        return Err(LineFault::TooMany { line });
    }
    if usize::from(number) != count + 1 {
        return Err(LineFault::Sequence { line });
    }
    Ok(())
}

impl Draft {
    /// A process with this number and nothing else, named in a line of the text. Refused if the number is out of its range.
    pub fn new(line: usize, number: u16) -> Result<Draft, LineFault>
        ensures { MatchResult result (λ d. (is_number number ≡ true) × (number_of d ≡ number) × (nodes_of d ≡ []) × (flows_of d ≡ [])) (λ fault. (is_number number ≡ false) × (fault ≡ Number line)) }
    {
        if number == 0 {
            return Err(LineFault::Number { line });
        }
        let plain = Flow {
            from: 0,
            to: 0,
            guard: Guard::Plain,
        };
        Ok(Draft {
            number,
            nodes: Row::new(Kind::Start),
            flows: Row::new(plain),
        })
    }

    /// The number of the process.
    pub fn number(&self) -> u16
        ensures { result ≡ number_of self.now }
    {
        self.number
    }

    /// The nodes: node n stands at place n - 1.
    pub fn nodes(&self) -> &[Kind]
        ensures value { result.now ≡ nodes_of self.now }
        ensures few { length result.now ≤ 40 }
    {
        self.nodes.as_slice()
    }

    /// The flows: flow n stands at place n - 1.
    pub fn flows(&self) -> &[Flow]
        ensures value { result.now ≡ flows_of self.now }
        ensures few { length result.now ≤ 64 }
    {
        self.flows.as_slice()
    }

    // Whether a node has this number.
    fn has_node(&self, number: u16) -> bool
        ensures { result ≡ is_node (nodes_of self.now) number }
    {
        1 <= number && usize::from(number) <= self.nodes.len()
    }

    /// Adds a node that is named in a line of the text. Refused, it changes nothing.
    pub fn add_node(&mut self, line: usize, number: u16, kind: Kind) -> Result<(), LineFault>
        ensures { NodeAdded self.old line number kind result self.new }
    {
        if !kind_in_range(kind) {
            return Err(LineFault::Number { line });
        }
        check_next(&self.nodes, line, number)?;
        self.nodes.push(kind);
        Ok(())
    }

    /// Adds a flow that is named in a line of the text. Refused, it changes nothing.
    pub fn add_flow(
        &mut self,
        line: usize,
        number: u16,
        from: u16,
        to: u16,
        guard: Guard,
    ) -> Result<(), LineFault>
        ensures { FlowAdded self.old line number from to guard result self.new }
    {
        if !guard_in_range(guard) {
            return Err(LineFault::Number { line });
        }
        check_next(&self.flows, line, number)?;
        if !self.has_node(from) || !self.has_node(to) {
            return Err(LineFault::MissingNode { line });
        }
        // Both are numbers of nodes: each cast is proved to lose nothing.
        self.flows.push(Flow {
            from: from as u8,
            to: to as u8,
            guard,
        });
        Ok(())
    }
}
