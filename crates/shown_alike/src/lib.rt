//! What is shown of a text of `let` and `;;` is one text for each type: facts of the definitions alone.
//! It stands on the definition of what is shown (`typed_model`) and on the laws of typings, of names, of scopes and of demands (`typing_laws`, `print_laws`, `over_laws`, `demand_laws`). No program calls it; `prelude_checks` cites it.
//! `specs/Told` has nodes that are told with their types, `Texts` a type and a renamed one in two environments, `Shown` the law (`two_shown_alike`), and `Programs` the same of the typed nodes of a program that the parser gives, each of which is told with its type (`programs_shown_alike`).
//! `two_shown_alike` asks that no variable of the type is weak. `Weak` has the law without that, for items of `let` and `;;` (`lets_shown_alike`): the names after them have types of nodes alone (`AtNodes`, `Behind`).
//! `Messages` has that a demand's message is one, and `Faults` that the faults of a text of `let`, exceptions and `;;` are one list but for warnings (`values_faults_one`).
#![tactic(auto)]
