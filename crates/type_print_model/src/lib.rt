//! How a type is printed: the names of its variables and of its constructors, its parentheses, and the cut of a long text.
//! Definitions alone. They stand on the types of `type_model` and on the environments of `signature_model`.
#![tactic(auto)]
