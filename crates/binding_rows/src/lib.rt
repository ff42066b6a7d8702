//! What each function has to carry that types cases, functions or a group of bindings, what closing the group does, and the laws of their rows: `match`, `try`, `function`, `fun`, `let` and
//! an item's own `let`; for clauses on them.
//! It stands on `pattern_rows`, for patterns and the names that they bind, and on `typing_rows`, for rows in general and for the type that is written for a right side. No program calls it.
//! Of cases: `specs/CaseScopes`, `Cases`, `Parameters`, `CaseCarried`. Of a group up to its close: `specs/Rights`, `Groups`, `Carried`, `Operands`, `Decided`; of the close and the row: `Closing`,
//! `Lets`, `LetGroups`, `LetNodes`. Of an item: `Scopes`, `Outside` (what it is typed among, and items in order), `ItemGroups`, `ItemRows`. The laws of `proofs/` have the same names, or those of what they join.
#![tactic(auto)]
