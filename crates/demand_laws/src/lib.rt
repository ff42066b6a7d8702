//! Which demands a text without modules makes doesn't depend on the types that are chosen, but for the origins of the record types that it re-exports: a fact of the definitions alone.
//! It stands on the definitions of typing (`typing_model`) and on what a judgement of a demand is (`typing_conditions`) and which fault it is (`fault_model`). No program calls it.
//! `Alike` has what it is for conditions to make the same demands, and for environments to differ in types alone (`Values`: in the types of values alone); then each row in turn:
//! `Types`, `Patterns`, `Declarations`, `Bindings`, `Expressions`, and `Rows` and `Texts` for the trees; `specs/Agreeing` and `Agreed`: which choices agree on what is re-exported; `Bare`: exceptions without an argument; `Left`: the sites of the demands that aren't kept. Above, `text_laws` uses `asks_alike`; `refused_alike` says the same of the faults.
#![tactic(auto)]
