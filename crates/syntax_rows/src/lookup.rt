//! The row of a sort, a left operand and a token.
ghost use Rattle.std.specs.Prelude.{◌≡◌, ◌<◌, length, true};
ghost use Rattle.grammar_model.specs.Keys.{key_of};
ghost use Rattle.grammar_model.specs.Ocaml as ocaml;
ghost use Rattle.grammar_model.specs.Rows as lists;
ghost use Rattle.grammar_model.specs.Separate as separate;
ghost use Rattle.grammar_model.specs.Separate.{AreSeparate, is_same_left};
ghost use Rattle.syntax_rows.specs.Numbers.{key_number, sort_number};
ghost use Rattle.syntax_rows.specs.View.{IsNamedRow, left_of, rows_of};
ghost use Rattle.syntax_tree.specs.View.{tok_of};

use crate::keys::Key;
use crate::ocaml::{Text, grammar};
use crate::rows::{Left, Sort, Table, left_at, name_at, number_of_name};
use crate::starts::{begins, grower};
use syntax_tree::{RowName, Token};

/// Whether two rows need the same on their left.
fn is_same(one: Left, other: Left) -> bool
    ensures { result ≡ is_same_left (left_of one) (left_of other) }
{
    match (one, other) {
        (Left::None, Left::None) => true,
        (Left::Level(a), Left::Level(b)) => a == b,
        (Left::Row(a), Left::Row(b)) => number_of_name(a) == number_of_name(b),
        _ => false,
    }
}

/// The number of the row of a sort that begins with a key, or goes on with it behind this left operand.
#[tactic(auto, unfolding(grammar_model::specs::Separate::row_for))]
fn number_for(table: Table<'_>, sort: Sort, left: Left, key: Key) -> Option<u8>
    requires few { length table.rows.now < 256 }
    ensures { result ≡ separate.row_for ocaml.sizes (rows_of table.entry) (sort_number sort) (left_of left) (key_number key) }
{
    match left {
        Left::None => begins(table, sort, key),
        Left::Level(_) => grower_with(table, sort, left, key),
        Left::Row(_) => grower_with(table, sort, left, key),
    }
}

/// The number of the row of a sort that goes on with a key behind this left operand.
fn grower_with(table: Table<'_>, sort: Sort, left: Left, key: Key) -> Option<u8>
    requires few { length table.rows.now < 256 }
    ensures { result ≡ separate.with_left (rows_of table.entry) (left_of left) (lists.grower_of ocaml.sizes (rows_of table.entry) (sort_number sort) (key_number key)) }
{
    match grower(table, sort, key) {
        None => None,
        Some(row) => {
            if is_same(left_at(table, row), left) {
                Some(row)
            } else {
                None
            }
        }
    }
}

/// The name of the row of a sort that needs this on its left and that the token then begins or goes on with; a row that
/// begins with its first operand begins with that operand's tokens. None where the table has no such row.
pub fn row_for(sort: Sort, left: Left, token: &Token) -> Option<RowName>
    ensures { IsNamedRow result (sort_number sort) (left_of left) (key_of (tok_of token.now)) }
{
    let table = grammar(Text::Program);
    match number_for(table, sort, left, Key::of(token)) {
        None => None,
        Some(row) => Some(name_at(table, row)),
    }
}

/// Whether no sort has two rows of one key at one place, which is so.
pub fn rows_are_separate() -> bool
    ensures separate { (text : ocaml.Text) → AreSeparate (ocaml.grammar text) }
    ensures so { result ≡ true }
{
    true
}
