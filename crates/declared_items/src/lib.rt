//! What declares something between items: an exception, and one type of its own, is an item that carries what it asks, and after it the next item starts among its names too.
//! It stands on what typing a declaration denotes (`decl_typing`), and on the names after declarations (`first_laws`). No program calls it.
//! `specs/Adding` says that what is declared adds the same names whatever is chosen (`AddsAlike`), and `proofs/Adding` takes that from item to item.
//! `Frames` starts a declaration from a state between items: its frame, its first assignment and the types that are known there. `Exceptions` has the law of an item
//! `exception A of t`, by its node (`exception_added`, `exception_given`), and `TypeItems` that of an item `type d` of one type of its own (`type_given`); `signature_typing` uses both.
//! `TypeItems` stands on `Written` and `Declared` (what is written is what the definitions take), `Shapes` (what a type tells: `shape_is`, `shape_as`), `Entries`, `Types` and `Grouped` (its
//! entries, and the names after it and inside its group), `Within` and `Judged` (the demand that its name is new: `judged_carried`).
#![tactic(auto)]
