//! What rows of expressions need that types nothing else: leaves, operators, heads, what is asked of parts and behind them, and fields. It
//! keeps nothing.
//! It is built on `use_typing` and `value_forms`, and below them on `typing_state`, whose `Parts` keep the store, the index and the faults.
//! The layer above types the parts of a row and calls these between and behind them: each makes its demands in order, and those of rows
//! without patterns and bindings carry their conditions (`carries`).
#![tactic(auto, using(typing_state::proofs::Going::goes_trans, typing_state::proofs::Going::goes_refl))]

mod ends;
mod fields;
mod forms;
mod heads;
mod leaves;
mod operators;
mod parts;

pub use ends::{behind_parts, field_node, settable};
pub use fields::{Pieces, begin_loose, complete, fields_in, pun, record_of_made, type_of_record};
pub use forms::{RowForm, form_of};
pub use heads::{Head, ask_arrow, built_by_unknown, note_head};
pub use leaves::{constructor_path, leaf};
pub use operators::{Operator, is_float, negative_float, operator_of, operator_value};
pub use parts::{Scope, behind_part, loop_scope};
