//! Worked examples of the typed language: what its definitions come to on texts and types that can be checked by eye.
//! It stands on the definitions alone, and on trees that the parser of `grammar_model` gives for lists of tokens.
//! Each function is one fact, named for what it shows, and has no body: its contract is proved.
//! No program calls it; the proofs of `prelude_checks` cite some of its lemmas.
#![tactic(auto)]

mod demands;
mod kept;
mod matches;
mod names;
mod preludes;
mod printing;
mod signatures;
mod typings;

pub use demands::{
    demands_of_a_constructor_in_an_unknown_module, demands_of_a_constructor_with_its_argument,
    demands_of_a_constructor_with_two_arguments, demands_of_a_match_with_a_guard,
    demands_of_a_name_behind_a_functor, demands_of_a_one_sided_name, demands_of_a_punned_pattern,
    demands_of_a_re_export_of_itself, demands_of_a_record_with_a_missing_field,
    demands_of_a_recursive_binding, demands_of_an_undetermined_body, demands_of_branches,
    demands_of_cyclic_types, demands_of_identity, demands_of_reference,
    demands_of_self_application,
};
pub use kept::{
    a_later_type_is_a_fault, a_later_type_is_not_kept, a_match_misses_a_value,
    a_record_is_principal, a_record_keeps_all, a_reference_is_principal, a_reference_keeps_all,
    a_sealed_type_is_a_fault, a_sealed_type_is_not_kept, an_absent_component_is_a_fault,
    an_absent_component_is_not_kept, an_inner_binding_is_principal, an_inner_binding_keeps_all,
    an_unbound_constructor_applied_is_not_kept, an_unbound_constructor_applied_is_of_the_whole,
    an_unbound_constructor_is_of_the_whole, an_undetermined_body_is_a_fault,
    an_undetermined_body_is_not_closed, the_argument_of_itself_is_a_fault,
    the_argument_of_itself_is_not_kept, the_second_branch_is_a_fault,
    the_second_branch_is_not_kept, two_applications_are_a_fault, two_applications_are_not_one,
};
pub use matches::{
    a_list_of_two, a_list_without_the_empty_one, a_match_in_a_match, a_pair_of_booleans, a_record,
    an_argument_in_parentheses, an_option_without_none,
};
pub use names::{
    generalisation, names_in_scope, names_of_types, ranges_of_integers, records_by_their_labels,
};
pub use preludes::a_prelude_is_read;
pub use printing::{
    arrow_left_of_an_arrow, long_texts, one_argument_in_parentheses, several_arguments,
    tuple_in_a_tuple, variables_in_order, variables_past_z, weak_variables,
};
pub use signatures::{
    a_sealed_value, a_structure_meets_its_seal, an_application_makes_its_types_anew,
    made_anew_at_a_node, the_component_that_fails, two_applications,
};
pub use typings::{
    a_later_type_is_refused, a_record_has_its_type, a_reference_is_weak,
    an_inner_binding_is_generalised, branches_differ, identity_is_principal,
    self_application_has_no_typing, two_labels_choose_apart,
};
