//! What a signature is: declarations, components, templates, what a seal, a functor and `with` make of them, matching, and the names in scope.
//! Definitions alone. They stand on the types of `type_model` and on the places of `tree_model`.
#![tactic(auto)]
