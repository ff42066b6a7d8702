//! What a typing of a program is: the demands of each row in order, which of them are kept, and the most general types.
//! Definitions alone. They stand on trees, types and signatures; no store, no unifier and no level stands here.
#![tactic(auto)]
