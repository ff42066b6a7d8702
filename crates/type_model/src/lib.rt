//! What a type is: types, substitutions, schemes and their instances, origins, and what a level and a scope allow.
//! Definitions and lemmas alone. They stand on nothing of the repository.
#![tactic(auto)]
