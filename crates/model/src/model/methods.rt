ghost use Rattle.std.specs.Prelude.{◌≡◌, ◌≤◌, length, is_ok, Decides, MatchResult};
ghost use Rattle.process.specs.Drafts as drafts;
ghost use Rattle.model.specs.Models.{draft_of, number_of, nodes_of, flows_of, first_nodes, first_flows};
ghost use Rattle.model.specs.Rules.{kind_at};
ghost use Rattle.model.specs.Sound.{Sound, TheFault};

use super::Model;
use crate::reached::check_reached;
use crate::rules::{check_rules, kind_at};
use fault::model::ModelFault;
use process::draft::Draft;
use process::flow::{Flow, Guard};
use process::node::Kind;

impl Model {
    /// A new place: process 1, with start 1, end 2 and flow 1 between them.
    pub fn new() -> Model
        ensures number { number_of result ≡ 1 }
        ensures nodes { nodes_of result ≡ first_nodes }
        ensures flows { flows_of result ≡ first_flows }
    {
        let Ok(mut process) = Draft::new(0, 1) else {
            unreachable()
        };
        let _ = process.add_node(0, 1, Kind::Start);
        let _ = process.add_node(0, 2, Kind::End);
        let _ = process.add_flow(0, 1, 1, 2, Guard::Plain);
        let Ok(model) = Model::check(process) else {
            unreachable()
        };
        model
    }

    /// The model of a process. Refused exactly if the process is not sound.
    pub fn check(process: Draft) -> Result<Model, ModelFault>
        ensures cases { MatchResult result (λ m. draft_of m ≡ process) (TheFault (drafts.nodes_of process) (drafts.flows_of process)) }
        ensures exact { Decides (is_ok result) (∥ Sound (drafts.nodes_of process) (drafts.flows_of process) ∥₁) }
    {
        check_rules(&process)?;
        check_reached(&process)?;
        Ok(Model { process })
    }

    // The getters are the draft's again: a model hides its draft, so that nothing can change it.

    /// The number of the process.
    pub fn number(&self) -> u16
        ensures { result ≡ number_of self.now }
    {
        self.process.number()
    }

    /// The nodes: node n stands at place n - 1.
    pub fn nodes(&self) -> &[Kind]
        ensures value { result.now ≡ nodes_of self.now }
        ensures few { length result.now ≤ 40 }
    {
        self.process.nodes()
    }

    /// The kind of a node. A number that no node has is answered with `Start`, of which a model has one.
    pub fn kind(&self, node: u8) -> Kind
        ensures { result ≡ kind_at (nodes_of self.now) node }
    {
        kind_at(self.nodes(), node)
    }

    /// The flows: flow n stands at place n - 1.
    pub fn flows(&self) -> &[Flow]
        ensures value { result.now ≡ flows_of self.now }
        ensures few { length result.now ≤ 64 }
    {
        self.process.flows()
    }
}
