//! A step of a count.
ghost use Rattle.std.specs.Prelude.{◌≡◌, true, false, length, MatchResult};
ghost use Rattle.fault.specs.declared.count.CountFault.TheVariants.{NodeNumber};
ghost use Rattle.engine.specs.Counts.{nodes_of, has_node, kind_of, IsReady};
ghost use Rattle.engine.specs.Lines.{figures_after};
ghost use Rattle.engine.specs.Steps.{Room, Unanswered, Answered, Clear, Went, Stepped, TakesAnswer};

use crate::counts::Begun;
use crate::line::Line;
use crate::next::Turn;
use fault::count::CountFault;
use process::node::Kind;
use service::answer::Answer;
use service::service::Service;

impl<'a> Begun<'a> {
    /// How many nodes the model has, which is the highest number of a node.
    pub(crate) fn last_node(&self) -> u8
        ensures { result ≡ length (nodes_of self.now) }
    {
        // at most 40: the cast is proved to lose nothing
        self.marking.routing().model().nodes().len() as u8
    }

    // The number of a node of the model.
    pub(crate) fn number_of(&self, node: u16) -> Result<u8, CountFault>
        ensures { MatchResult result
            (λ number. (has_node self.now node ≡ true) × (number ≡ node))
            (λ fault. (has_node self.now node ≡ false) × (fault ≡ NodeNumber node self.now.instance)) }
    {
        let instance = self.instance;
        if node < 1 || node > u16::from(self.last_node()) {
            return Err(CountFault::NodeNumber { node, instance });
        }
        // at most 40: the cast is proved to lose nothing
        Ok(node as u8)
    }

    // Takes the answer of a task, which its figure becomes. Any other node takes none.
    fn take_answer<S: Service>(&mut self, node: u8, service: &mut S) -> Answer
        requires { Unanswered self.old (S.waits service.old) node → ⊥ }
        ensures { TakesAnswer self.old (S.waits service.old) node result self.new (S.waits service.new) }
    {
        match self.marking.kind(node) {
            Kind::Task { figure } => {
                let Ok(answer) = service.take(u16::from(node)) else {
                    unreachable()
                };
                self.figures[usize::from(figure) - 1] = answer.value;
                answer
            }
            // no Option: the journal's line has 0 where the node is no task
            Kind::Start | Kind::End | Kind::Exclusive | Kind::Parallel | Kind::Inclusive => {
                Answer { value: 0 }
            }
        }
    }

    // Makes a step that nothing hinders: takes the answer, writes the line at the journal's next place and moves the tokens.
    pub(crate) fn carry_out<S: Service>(
        &mut self,
        turn: Turn,
        journal: &mut [Line],
        service: &mut S,
    ) -> Line
        requires node { has_node self.old turn.node ≡ true }
        requires ready { IsReady self.old turn.node }
        requires room { Room self.old (length journal.old) }
        requires clear { Clear self.old (S.waits service.old) turn.node turn.movement }
        ensures { Went self.old journal.old (S.waits service.old) turn.node result self.new journal.new (S.waits service.new) }
    {
        let Turn { node, movement } = turn;
        let answer = self.take_answer(node, service);
        let line = Line {
            node,
            taken: movement.taken,
            put: movement.put,
            answer,
        };
        journal[usize::from(self.written)] = line;
        self.written += 1;
        self.marking.change(movement.taken, movement.put);
        line
    }

    /// Steps the node, and tells the line that it wrote at the journal's next place. Refused for the first reason that
    /// applies: no such node, not ready, no place in the journal, no answer, no way, a flow that is still occupied.
    /// Refused, it changes neither the count nor the journal nor what waits in the service.
    pub fn step<S: Service>(
        &mut self,
        node: u16,
        journal: &mut [Line],
        service: &mut S,
    ) -> Result<Line, CountFault>
        ensures { Stepped self.old journal.old (S.waits service.old) node result self.new journal.new (S.waits service.new) }
    {
        let instance = self.instance;
        let number = self.number_of(node)?;
        if !self.marking.is_ready(number) {
            return Err(CountFault::NotReady { node, instance });
        }
        if !self.has_room(journal.len()) {
            return Err(CountFault::JournalFull { node, instance });
        }
        let movement = self.movement(number, service)?;
        let turn = Turn {
            node: number,
            movement,
        };
        Ok(self.carry_out(turn, journal, service))
    }
}
