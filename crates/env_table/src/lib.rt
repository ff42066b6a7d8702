//! The names in scope: entries, environments that share their entries, and lookups; and what is recorded of a text's names.
//! It stands on the rules of `signature_model`, which are stated over any entries, and on the nodes of `type_nodes`.
//! Above, a contract sees an environment as the list of its entries, the newest first; what a path and what
//! labels find in it are `lookup_by` and `record_by` over that list. An entry's types are nodes of a store. Inside a module
//! stand its components, the newest last; a path that leads into a hole finds a hole.
#![tactic(auto)]

mod entries;
mod env;
mod faults;
mod index;
mod links;
mod lookup;
mod origins;
mod records;
mod seen;
mod walk;

pub use entries::{
    Components, Constructor, Declaration, Entry, Found, Kind, Label, Path, Place, Shape, Sig,
    Template, What,
};
pub use env::Env;
pub use faults::{Fault, FaultKind, Faults};
pub use seen::Seen;
pub use type_nodes::{NoMemory, NodeRef, Origin};
pub use walk::Entries;
