//! Unification, generalisation, instances and rigid instances by level over the store of type nodes.
//! It stands on the store of `type_nodes`. One walk lists the roots that stand in a node, each behind its parts.
//! Above, `unify` is seen by `Unified` and `Clashes`: the readings, levels and scopes after it are exactly those that give both nodes
//! one type, or it tells why no reading does and leaves the store as it was. `generalise` is seen by `Generalised`, `instantiate` by
//! `Instantiated` and `freeze` by `Frozen`: the copy has exactly the instances at each reading, and no node of before changes. `reached`
//! lists the roots that stand in a node, and `reached_beyond` those that were not listed yet.
#![tactic(auto)]

mod copies;
mod fault;
mod levels;
mod limits;
mod plan;
mod schemes;
mod solve;
mod unifying;
mod walk;

pub use fault::{Clash, ClashKind, UnifyFault};
pub use schemes::{freeze, generalise, instantiate};
pub use unifying::unify;
pub use walk::{reached, reached_beyond};
