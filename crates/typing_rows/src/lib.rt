//! The rows of expressions without patterns and bindings, and those of type expressions: whose conditions the typer can be shown to carry, what each function of such a row has to
//! carry, and the law of each row.
//! It stands on `typing_steps`, which has what each call on the state of typing carries, and on `operand_laws`. No program calls it.
//! Of expressions: `specs/Contracts`; laws of operands (`Going`), rows over them (`Terms`), heads with arguments, constructors, parts in order and the ends of rows. Of type expressions in items:
//! `specs/TypeContracts`, `Operands`, `Rows`, `Declaring`; laws `Reading` to `Ended`. In declarations, where names alone decide a type: `specs/Settled`, `DeclaredContracts`; laws `Settling`, `Judging`, `Declared..`.
#![tactic(auto)]
