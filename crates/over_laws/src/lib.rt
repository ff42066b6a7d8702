//! In a text of `let`, exceptions and `;;` each node is treated in the first environment with values and exceptions in front, and told with its own type: facts of the definitions alone.
//! It stands on the definitions of typing (`typing_model`); what has values and exceptions in front is in `typed_model`. No program calls it; `shown_alike` and `prelude_checks` cite it.
//! `proofs/Told` has conditions that tell such environments alone; then each row in turn, which tells them where its parts do: `Types`, `Patterns`, `Expressions`, `Records`
//! (and cases), `Bindings`, and `Rows` and `Texts` for the trees (`values_tell_over`, `values_tell_typed_over`, `values_tell_own`).
#![tactic(auto)]
