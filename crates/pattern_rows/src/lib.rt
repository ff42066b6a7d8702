//! What each function of a row of patterns has to carry, and the law of each such row.
//! It stands on `typing_steps`, which has what each call on the state of typing carries, on `operand_laws`, and on `typing_rows` for rows in general.
//! No program calls it. `specs/Bounds` says how a name that the code binds stands for one of the definitions, `specs/Contracts` and `specs/Sides` what is carried,
//! `specs/CarriedPatterns` of which patterns;
//! the laws of `proofs/` are of such names (`Naming`), of letters that stay open for their types (`Opened`), of rows once they are recorded (`Recorded`), of rows over their operands (`Terms`), of patterns in order
//! (`Ordered`), and of whole rows: those without patterns in them (`Leaves`), those whose patterns are matched in order (`Typed`, `Listed`), and or-patterns (`Beside`).
//! `Matching` has each row in the form in which `pattern_typing` matches it, `Applied` constructors with their arguments (`specs/Applied`).
#![tactic(auto)]
