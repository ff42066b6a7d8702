//! What is recorded for the nodes of a text, by their numbers: an item's own list, with a place for each node in preorder.
//! It stands on the numbers of nodes in `syntax_tree`, and knows nothing of what is recorded.
//! Above, a contract sees an index as a function from an item and a number in it to what is recorded there, if anything
//! (`seen_at`). A note changes one place, cutting forgets the items from one on, and nothing else changes any place;
//! looking up takes the same time for each node.
#![tactic(auto)]

ghost use Rattle.std.specs.Prelude.{◌≡◌, ℕ, ◌<◌, ◌^◌, Some};
ghost use Rattle.typed_index.specs.Lists.{seen_among};

mod notes;

use std::alloc::Global;

/// What is recorded for the nodes of one item, by their numbers; None where nothing is.
pub(crate) type Nodes<S> = Vec<Option<S>>;

/// What is recorded for the nodes of a text.
#[derive(Drop)]
pub struct TypedIndex<S> {
    alloc: Global,
    items: Vec<Nodes<S>>,
    ghost low: { (i p : ℕ) (s : S) → seen_among items.items i p ≡ Some s → p < 2 ^ 32 },
}
