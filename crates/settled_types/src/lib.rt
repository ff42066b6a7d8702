//! In a principal typing of a text of `let`, `;;` and exceptions without an argument the types of nodes have no other constructors than the names in scope before it: a fact of the definitions alone.
//! It stands on the definitions of typing (`typing_model`) and on the law that such a text makes the same demands whatever types are chosen (`demand_laws`). No program calls it; `prelude_checks` cites it.
//! `specs/Made` has types and names in scope that are made of some constructors alone. `Erasing` takes every other constructor out of a type, `Found` says that what is found is made of these; `Goes` has conditions that hold of the types so left where they hold of the types,
//! and then each row in turn: `Types`, `Patterns`, `Bindings`, `Expressions`, and `Rows` and `Texts` for the trees. `Settled` has the law (`principal_types_are_made`, `told_types_are_made`), and `Pairs` that of the two types of a demand.
#![tactic(auto)]
