//! Types as the code keeps them: finite trees with variables by number and constructors by origin.
//! It stands on the definitions of `type_model` and the words of `text_terms`.
//! Above, a contract sees a type as the plain type that it means (`type_of`), and as that with the names of its origins (`spelled`).
#![tactic(auto)]

mod copies;
mod instances;
mod sameness;
mod types;

pub use instances::{instance_of, replace_origins};
pub use sameness::same_type;
pub use text_terms::NoMemory;
pub use types::{NodeRef, Origin, OriginMap, Scheme, Ty};
