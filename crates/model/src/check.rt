//! A rule, checked item by item.
ghost use Rattle.std.specs.Prelude.{◌≡◌, ℕ, ◌≤◌, Bool, length};
ghost use Rattle.fault.specs.declared.model.ModelFault.{ModelFault};
ghost use Rattle.model.specs.Asking.{Asks, Tells};
ghost use Rattle.model.specs.Rules.{checked};

use fault::model::ModelFault;

/// Refuses the first of some nodes or flows that breaks a rule. `keeps` is asked of the number and the node or flow
/// itself, and `fault` tells the fault of the number.
pub(crate) fn check<T: Copy, K: Fn(u8, T) -> bool, F: Fn(u8) -> ModelFault>(
    items: &[T],
    keeps: K,
    fault: F,
) -> Result<(), ModelFault>
    requires few { length items.now ≤ 64 }
    requires keeps_callable { K.IsAlwaysCallable keeps }
    requires fault_callable { F.IsAlwaysCallable fault }
    ensures { (rule : ℕ → Bool) (broken : ℕ → ModelFault)
        → Asks (K.post keeps) items.now rule → Tells (F.post fault) (length items.now) broken
        → result ≡ checked rule broken (length items.now) }
{
    for (place, item) in items.iter().enumerate() {
        // The cast is proved to lose nothing, where `try_from` would bring a refusal that cannot come.
        let number = place as u8 + 1;
        if !keeps(number, *item) {
            return Err(fault(number));
        }
    }
    Ok(())
}
