//! The texts of types that a query shows for a text of `let` and `;;` are those of one principal typing, by what an analysis of it records.
//! It stands on what an analysis records (`analysis_api`) on what a query shows of it (`query_engine`) and on the laws of printed types (`print_laws`). No program calls it; `session` cites it for `type-enclosing`.
//! `Numbers` has the numbers of typed nodes, `Called` the text of a type whose constructors are called by paths, and `Shown` the law.
#![tactic(auto)]
