//! Type nodes that share and link, changed in place and rolled back: variables with level and scope, rigid variables, arrows, tuples, constructors.
//! It stands on the plain types of `type_model`, the origins of `type_terms` and the trail of `undo_trail`.
//! Above, a contract sees a store as its nodes and its trail (`State`): each call says what it wrote, which nodes read otherwise,
//! and that the states at earlier marks stay (`Keeps`). A chain of links is as long as the number of times that its end was linked on.
#![tactic(auto)]

mod building;
mod cells;
mod changing;
mod store;
mod view;

pub use store::Store;
pub use type_terms::{NoMemory, NodeRef, Origin};
pub use undo_trail::Mark;
pub use view::View;
