//! What each function that types a record has to carry: the fields of a pattern, one after the other, and the row around them; the fields of an expression, and the
//! rows `{ l = e }` and `{ e with l = e }`; and whether such a row is non-expansive. Its laws are for `pattern_typing`'s and `core_typing`'s clauses `carries`.
//! It stands on `record_steps`, for the record type of labels and the type of a field, and on `pattern_rows`. No program calls it.
//! `specs/Fields` says what the fields of a pattern carry, and `specs/Operands` the same of the operands of the code. The laws of `proofs/` are of letters that are open around fields (`Opened`),
//! of the fields (`Fields`), of those without a pattern of their own, whose names have letters that stay open (`Punned`), of operands that are fields (`Going`, `Operands`),
//! and of the whole row (`Rows`, `Nodes`).
//! Of expressions `specs/Values` says what fields carry, `specs/ValueOperands` the same of operands, `specs/Completing` what the demand carries that all labels are written, `specs/RecordExpressions` what
//! the functions around them carry, and `specs/NonExpansive` how the code decides whether a record is non-expansive. The laws have the same names in `proofs/`; those of the whole row over operands are
//! in `proofs/RecordNodes`. A record that is made, whose first part is missing, has no law: the type of that part is recorded, while the definitions ask nothing of it.
#![tactic(auto)]
