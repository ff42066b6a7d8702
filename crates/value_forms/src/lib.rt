//! Which expressions are non-expansive, so that the names of their bindings are generalised, and which operands are a constructor alone, a
//! label or the word `false`. It keeps nothing.
//! It is built on `row_parts`, which reads the operands of a row, and on `use_typing`, which reads the labels of a record and finds their type.
//! The layer above may use `is_value` and `has_parameters` where it decides whether a binding's names are generalised, `label_path` for the
//! first part of a record, and `is_false` for what is asserted.
#![tactic(auto)]

mod values;

pub use values::{has_parameters, is_false, is_value, label_path};
