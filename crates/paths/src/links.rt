//! Which numbers pass a test, and so which flows enter and leave a node.
ghost use Rattle.std.specs.Prelude.{◌≡◌, ℕ, ◌≤◌, Bool, length};
ghost use Rattle.model.specs.Models.{flows_of};
ghost use Rattle.paths.specs.Links.{chosen, TestIs, entering, leaving};

use model::model::Model;
use process::sets::FlowSet;

/// The numbers of the items that pass the test, which is given an item and its number.
pub(crate) fn chosen<T, F: Fn(&T, u8) -> bool>(items: &[T], test: F) -> FlowSet
    requires few { length items.now ≤ 64 }
    requires callable { F.IsAlwaysCallable test }
    ensures { (p : ℕ → Bool) → TestIs (F.post test) items.now p → result ≡ chosen p (length items.now) }
{
    let mut found = FlowSet::empty();
    // No zip with the numbers 1..: with it the tables took nearly twice the instructions that docs/path-rule.md tells.
    for (place, item) in items.iter().enumerate() {
        // a place of at most 64: the cast is proved to lose nothing
        let number = place as u8 + 1;
        if test(item, number) {
            found = found.insert(number);
        }
    }
    found
}

/// The flows that enter the node.
pub(crate) fn entering(model: &Model, node: u8) -> FlowSet
    ensures { result ≡ entering (flows_of model.now) node }
{
    chosen(model.flows(), |flow, _| flow.to == node)
}

/// The flows that leave the node.
pub(crate) fn leaving(model: &Model, node: u8) -> FlowSet
    ensures { result ≡ leaving (flows_of model.now) node }
{
    chosen(model.flows(), |flow, _| flow.from == node)
}
