//! A list over fixed memory.
ghost use Rattle.std.specs.Prelude.{◌≡◌, ◌≤◌, length};

mod methods;

// No library's ArrayVec: its `new` asks for a default of the item, which a kind or a flow has not, and its `push` for room.
// No impl Model: drafts, piles and order texts rest on the limit N, which a model would hide. The memory is fixed: there is no heap.
/// At most N items, in the order in which they came.
#[derive(Drop)]
pub struct Row<T, const N: usize> {
    memory: [T; N],
    count: usize,
    ghost whole: { length memory ≡ N },
    ghost fits: { count ≤ N },
}
