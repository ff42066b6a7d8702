//! Types as text: their parentheses, the names of their variables, and the paths by which their constructors are named.
//! It stands on the nodes of `type_nodes` and on the environments of `env_table`, and changes neither.
//! Above, a contract sees a printed text by `type_print_model`: at the types that a store's nodes show, and at an environment.
#![tactic(auto)]

mod cut;
mod paths;
mod pieces;
mod printing;
mod scopes;
mod variables;
mod ways;

pub use paths::name_of;
pub use printing::{print_two, print_type};
