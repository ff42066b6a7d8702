//! What the nodes of the store denote inside a declaration of a type or of an exception, where names alone decide the type of each type expression (`Settled` of `typing_rows`), for clauses on what reads one.
//! It stands on `typing_rows`. No program calls it.
//! `specs/Assignments`: types for all nodes, by which each new variable is a parameter of the declaration or an unknown type. `specs/Unknowns`: what becomes of the scopes of variables. `specs/Contracts`,
//! `Operands` and `Applied`: what each function denotes that reads type expressions.
//! Laws: `Opening`, `Made`, `Going` (a new node, and the nodes of before); `Closed` (a root as a type of the declaration); `Parts`, `Copied`, `Opens`, `Opened`, `Joined` (an instance, and its unknown types); `Abbreviated`,
//! `Applied`, `Named` (constructors of types); `Judged`, `Ends`, `Ordered`, `Ended` (rows); `Starting`, `Own` (the frame at its start, and a type of its own).
#![tactic(auto)]
