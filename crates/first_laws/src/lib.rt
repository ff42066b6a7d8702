//! The names before the first item: the built-in types are declared, and those of the code are those of the definitions (`Outside`).
//! It is based on `binding_rows`, for states between items. No program calls it.
//! `specs/Declaring` says what is declared from one state between items to the next, whatever it is, and `specs/Built` what typing does for the built-in types.
//! Laws: `Declared` (after declarations the names are those of the definitions), `Within` (names that were added go out of scope again), `Built` (one built-in type), `First` (all of them), `Whole`, `Exceptions`, `Types` and `Values`
//! (one declaration of an exception, of a type of its own, or of a value that is specified, that is closed).
#![tactic(auto)]
