//! Which flows may come right before a flow on a path that avoids a gateway.
ghost use Rattle.std.specs.Prelude.{◌≡◌};
ghost use Rattle.model.specs.Models.{flows_of};
ghost use Rattle.paths.specs.Links.{leaders};

use crate::links::entering;
use model::model::Model;
use process::numbers::numbered;
use process::sets::FlowSet;

/// A model and a gateway: what is asked here is asked of the paths along the model's flows that avoid the gateway.
#[derive(Clone, Copy)]
pub(crate) struct Avoiding<'a> {
    pub(crate) model: &'a Model,
    pub(crate) gateway: u8,
}

impl<'a> Avoiding<'a> {
    /// The flows that may come right before the flow. Each of them enters the node that the flow leaves;
    /// where that is the gateway there is none.
    pub(crate) fn leaders(&self, flow: u8) -> FlowSet
        ensures { result ≡ leaders (flows_of self.now.model.now) self.now.gateway flow }
    {
        match numbered(self.model.flows(), u16::from(flow)) {
            Some(flow) if flow.from != self.gateway => entering(self.model, flow.from),
            _ => FlowSet::empty(),
        }
    }
}
