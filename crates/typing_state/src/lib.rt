//! What the typing of a text works on (`Parts`): the store of types, the index of nodes, the faults, and the demands on types and names.
//! It stands on unification, the names in scope, the index of nodes and the printing of types.
//! Above, each demand is a call on `Parts` that keeps it or adds its one fault (`Verdict`), and `bound` finds a name. New variables
//! have the level of the `let`s round them (`level`). A number that is no node of the store stands for a type that nothing else
//! restricts, so every call takes any nodes.
#![tactic(auto, using(crate::proofs::Going::goes_trans, crate::proofs::Going::goes_refl))]

mod built_ins;
mod demands;
mod depth;
mod entries;
mod messages;
mod names;
mod nodes;
mod parts;

pub use built_ins::{BuiltIn, Constants};
pub use demands::Verdict;
pub use depth::Depth;
pub use entries::{declaration_of, share_entry};
pub use env_table::{Entry, Env, Faults};
pub use messages::Word;
pub use names::{modules_of, path_of};
pub use nodes::{NO_SCOPE, are_nodes, is_node};
pub use parts::{Parts, Telling, Written};
pub use type_nodes::{NoMemory, NodeRef};
