//! The laws of typings: what generalising and a substitution have in common, that most general typings print alike, and that which
//! demands are kept is decided in order.
//! No program calls it; a proof may cite the lemmas of `proofs/`, whose facts the functions carry.
#![tactic(auto)]

mod choosing;
mod firsts;
mod generalising;
mod keeping;
mod printing;

pub use choosing::{
    free_variables_are_renamed, most_general_choices_are_renamed, types_of_choices_print_alike,
    weak_variables_of_plain_texts_print_alike, weak_variables_print_alike,
};
pub use firsts::no_variable_is_free_in_a_first_environment;
pub use generalising::{
    closed_bodies_stay_closed, instances_come_from_before, substituting_before_or_behind,
    substitutions_of_environments_exist,
};
pub use keeping::{
    a_demand_is_decided_by_those_before, demands_are_asked_in_order, kept_demands_are_one,
    kept_demands_of_plain_texts_are_one, kept_demands_without_closings_are_one,
};
pub use printing::{
    messages_print_alike, most_general_typings_are_renamed, principal_typings_print_alike,
    renamed_types_print_alike,
};
