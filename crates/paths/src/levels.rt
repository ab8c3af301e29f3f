//! How far a flow is from another along paths that avoid a gateway: sets that grow by one flow of the path at a time.
ghost use Rattle.std.specs.Prelude.{◌≡◌, ℕ, ◌+◌, ◌≤◌, true, List, length, take, drop};
ghost use Rattle.process.specs.Rows.{items};
ghost use Rattle.process.specs.Sets.{has};
ghost use Rattle.model.specs.Models.{flows_of};
ghost use Rattle.paths.specs.Paths.{IsFlow, Reaches, Route};
ghost use Rattle.paths.specs.Links.{Step};
ghost use Rattle.paths.specs.Levels.{comes_after, grown, LevelsBelow};

use crate::avoiding::Avoiding;
use crate::links::chosen;
use process::draft::MOST_FLOWS;
use process::row::Row;
use process::sets::FlowSet;

impl<'a> Avoiding<'a> {
    // Whether the flow may come right after some flow of the set.
    fn may_follow(&self, near: FlowSet, flow: u8) -> bool
        ensures { result ≡ comes_after (flows_of self.now.model.now) self.now.gateway near flow }
    {
        !self.leaders(flow).intersection(near).is_empty()
    }

    // The set with the flows that may come right after one of it.
    fn grow(&self, near: FlowSet) -> FlowSet
        ensures { result ≡ grown (flows_of self.now.model.now) self.now.gateway near }
    {
        near.union(chosen(self.model.flows(), |_, flow| self.may_follow(near, flow)))
    }

    // A flow of the set that the flow may come right after.
    fn flow_before(&self, near: FlowSet, flow: u8) -> u8
        requires { (m : ℕ) × Step (flows_of self.now.model.now) self.now.gateway m flow × (has near m ≡ true) }
        ensures { Step (flows_of self.now.model.now) self.now.gateway result flow × (has near result ≡ true) }
    {
        let Some(before) = self.leaders(flow).intersection(near).lowest() else {
            unreachable()
        };
        before
    }

    // The flows that `from` reaches by paths of at most one, two, .. flows: the sets before the first that has `end`.
    fn levels_below(&self, from: u8, end: u8) -> Row<FlowSet, MOST_FLOWS>
        requires { Reaches (flows_of self.now.model.now) self.now.gateway from end }
        ensures { LevelsBelow (flows_of self.now.model.now) self.now.gateway from end (items result) }
    {
        let mut levels = Row::new(FlowSet::empty());
        let mut level = FlowSet::single(from);
        // how many sets come before the one that has `end` is known only at the end
        while !level.contains(end) {
            levels.push(level);
            level = self.grow(level);
        }
        levels
    }

    /// Writes a path from `from` to `end` into the front of the list, and tells its length. It goes up from level to level,
    /// and is written from its end, since each level tells which flows may come before.
    pub(crate) fn write_path(&self, from: u8, end: u8, list: &mut [u8; MOST_FLOWS]) -> usize
        requires { Reaches (flows_of self.now.model.now) self.now.gateway from end }
        ensures few { result ≤ 64 }
        ensures levels { (sets : List FlowSet) × LevelsBelow (flows_of self.now.model.now) self.now.gateway from end sets × (result ≡ length sets + 1) }
        ensures route { Route (flows_of self.now.model.now) self.now.gateway from end (take result list.new) }
        ensures rest { drop result list.new ≡ drop result list.old }
    {
        let row = self.levels_below(from, end);
        let levels = row.as_slice();
        let mut flow = end;
        list[levels.len()] = flow;
        // The same place of both lists, from behind: an index says that plainer than a zip of the two.
        for place in (0..levels.len()).rev() {
            flow = self.flow_before(levels[place], flow);
            list[place] = flow;
        }
        levels.len() + 1
    }
}
