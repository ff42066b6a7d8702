//! What the parser asks of the table of a text.
ghost use Rattle.std.specs.Prelude.{◌≡◌, ◌<◌, length, option_map};
ghost use Rattle.grammar_model.specs.Machine.{first_of, grower_in};
ghost use Rattle.recovery_model.specs.Numbers as numbers;
ghost use Rattle.grammar_model.specs.Ocaml as ocaml;
ghost use Rattle.grammar_model.specs.Separate.{head_of};
ghost use Rattle.syntax_rows.specs.Numbers.{key_number, sort_number};
ghost use Rattle.syntax_rows.specs.View.{text_of};
ghost use Rattle.syntax_tree.specs.Names.{row_of};
ghost use Rattle.frame_steps.specs.View.{IsWanted, text_table};

use syntax_rows::{
    Key, Sort, Text, What, begins, grammar, grower, must_at, name_at, start_of, what_at,
};
use syntax_tree::RowName;

/// What stands at a spot of a row.
#[derive(Clone, Copy, Debug, PartialEq, Eq)]
pub(crate) enum Wanted {
    /// nothing: the row's start, or its left operand
    Nothing,
    /// a token
    Token,
    /// an operand of this sort
    Operand(Sort),
}

/// What stands at a spot of a row.
pub(crate) fn wanted_at(text: Text, row: u8, spot: u8) -> Wanted
    ensures { IsWanted result ((text_table text).what row spot) }
{
    match what_at(grammar(text), row, spot) {
        What::Nothing => Wanted::Nothing,
        What::Token { first: _, count: _ } => Wanted::Token,
        What::Operand { sort, level: _ } => Wanted::Operand(sort),
    }
}

/// The spot that must come next in a row. None where it can end.
pub(crate) fn must_come(text: Text, row: u8, spot: u8) -> Option<u8>
    ensures { result ≡ option_map (λ e. e.spot) (numbers.must_at (text_table text) row spot) }
{
    must_at(grammar(text), row, spot)
}

/// The first of the rows that a key begins in an operand of a sort. None where it begins none.
pub(crate) fn row_begun(text: Text, sort: Sort, key: Key) -> Option<u8>
    ensures { result ≡ head_of ((text_table text).chain (sort_number sort) (key_number key)) }
{
    begins(grammar(text), sort, key)
}

/// The spot that a row begins at.
pub(crate) fn spot_begun(text: Text, row: u8) -> u8
    ensures { result ≡ first_of (text_table text) row }
{
    start_of(grammar(text), row)
}

/// The row by which a key grows the operand at a spot. None where it grows none.
pub(crate) fn row_grown(text: Text, row: u8, spot: u8, key: Key) -> Option<u8>
    ensures { result ≡ grower_in (text_table text) ((text_table text).what row spot) (key_number key) }
{
    let table = grammar(text);
    match what_at(table, row, spot) {
        What::Nothing => None,
        What::Token { first: _, count: _ } => None,
        What::Operand { sort, level: _ } => grower(table, sort, key),
    }
}

/// The name of a row.
pub(crate) fn row_named(row: u8) -> RowName
    ensures { row_of result ≡ ocaml.row_name row }
{
    name_at(grammar(Text::Program), row)
}
