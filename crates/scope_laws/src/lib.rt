//! In a text without modules each typed node is told with its type, in some environment: a fact of the definitions alone.
//! It stands on the definitions of typing (`typing_model`) and of typed nodes (`query_model`), on the grammar and on `operand_laws`. No program calls it.
//! `specs/Sorts` says what the parts of each row are, `ParsedSorts` that the parser's are so, and `Heard` to `HeardRows` that each row tells the typed nodes of its parts with
//! their types; `Labels` has the paths that are labels of records and no typed nodes, and `TypedNodes` the trees (`plain_nodes_are_typed`, and `typed_nodes_are_typed` of a text of `let` and `;;`).
#![tactic(auto)]
