//! The parser's trees are made of the rows whose conditions the typer carries.
//! It stands on the grammar and on `binding_rows`, for the words that say so (`IsTreeOfSort`, `IsItemNode`, `IsCarriedItem`), and knows nothing of the typer's code. No program calls it.
//! `specs/Items` says what each item of a program or a structure is. In `proofs/`, `Tabled` reads off the grammar's table which sort stands in each slot and which names the rows
//! of a sort have, `Signs` that a minus sign is one of two, `Rows` that each tree of the grammar is of its sort (`tree_of_sort`), `Sized` that its named form tells its true sizes,
//! and `Items` that the items of a program (`program_carried`) and of a structure (`structure_carried`) are carried or of another kind.
#![tactic(auto)]
