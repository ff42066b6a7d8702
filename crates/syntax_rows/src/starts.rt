//! The row of a sort that a key begins, and the row by which a key grows an operand.
ghost use Rattle.std.specs.Prelude.{◌≡◌, ◌<◌, ℕ, length, map, slice_get};
ghost use Rattle.grammar_model.specs.Machine as machine;
ghost use Rattle.grammar_model.specs.Tables as tables;
ghost use Rattle.grammar_model.specs.Rows.{chain_to, what_takes, first_what, is_left, grower_in, or_else, edge, spot_at};
ghost use Rattle.grammar_model.specs.Separate.{head_of};
ghost use Rattle.syntax_rows.specs.Numbers.{key_number, sort_number};
ghost use Rattle.syntax_rows.specs.View.{table_of, rows_of, row_of, what_of, is_begun, is_grown};

use crate::keys::{Key, number_of_key};
use crate::rows::{Left, Row, Sort, Table, What, next_at, number_of_sort, part_of, stand_of};

/// Whether a key is one of these.
pub fn has(keys: &[Key], key: Key) -> bool
    ensures { result ≡ tables.has (map key_number keys.now) (key_number key) }
{
    for k in keys {
        if number_of_key(*k) == number_of_key(key) {
            return true;
        }
    }
    false
}

/// Whether a row has a left operand.
fn has_left(table: Table<'_>, row: Row) -> bool
    ensures { result ≡ is_left (row_of table.entry row).left }
{
    match row.left {
        Left::None => false,
        Left::Level(_) => true,
        Left::Row(_) => true,
    }
}

/// The spot that a row begins at.
fn first_spot_of(table: Table<'_>, row: Row) -> u8
    ensures { result ≡ (or_else (edge 0) (slice_get (spot_at (row_of table.entry row) 0).next 0)).spot }
{
    match part_of(table.spots, row.first, row.count).get(0) {
        Some(s) => match part_of(table.edges, s.first, s.count).get(0) {
            Some(e) => e.spot,
            None => 0,
        },
        None => 0,
    }
}

/// What a row begins with.
fn first_of(table: Table<'_>, row: Row) -> What
    ensures { what_of table.entry result ≡ first_what (row_of table.entry row) }
{
    let at = first_spot_of(table, row);
    match part_of(table.spots, row.first, row.count).get(usize::from(at)) {
        Some(s) => s.what,
        None => What::Nothing,
    }
}

/// The first row of a sort that a key begins, by at most so many rows that begin with their first operand.
#[cycle(chains)]
fn begins_within(table: Table<'_>, depth: u8, sort: Sort, key: Key) -> Option<u8>
    requires few { length table.rows.now < 256 }
    ensures { result ≡ head_of (chain_to depth (rows_of table.entry) (sort_number sort) (key_number key)) }
{
    if depth == 0 {
        return None;
    }
    let mut at = 0;
    for row in table.rows {
        if begins_here(table, depth - 1, *row, sort, key) {
            return Some(at);
        }
        at += 1;
    }
    None
}

#[cycle(chains)]
fn begins_here(table: Table<'_>, depth: u8, row: Row, sort: Sort, key: Key) -> bool
    requires few { length table.rows.now < 256 }
    ensures { result ≡ is_begun (rows_of table.entry) (chain_to depth (rows_of table.entry)) (row_of table.entry row) (sort_number sort) (key_number key) }
{
    number_of_sort(row.sort) == number_of_sort(sort)
        && !has_left(table, row)
        && starts(table, depth, first_of(table, row), key)
}

#[cycle(chains)]
fn starts(table: Table<'_>, depth: u8, what: What, key: Key) -> bool
    requires few { length table.rows.now < 256 }
    ensures { result ≡ what_takes (rows_of table.entry) (chain_to depth (rows_of table.entry)) (what_of table.entry what) (key_number key) }
{
    match what {
        What::Nothing => false,
        What::Token { first, count } => has(part_of(table.keys, first, count), key),
        What::Operand { sort, level } => match begins_within(table, depth, sort, key) {
            None => false,
            Some(row) => level <= stand_of(table, row),
        },
    }
}

/// The spot that a row of this number begins at.
pub fn start_of(table: Table<'_>, row: u8) -> u8
    ensures { result ≡ machine.first_of (table_of table.entry) row }
{
    match next_at(table, row, 0).get(0) {
        Some(e) => e.spot,
        None => 0,
    }
}

/// The first row of a sort that a key begins. Where it begins with an operand, the operand's first row is what the key
/// begins in the operand's sort, and so on. None where no row of the sort begins with the key.
#[tactic(auto, unfolding(grammar_model::specs::Rows::chain_of), using(crate::proofs::Bounds::sort_below, crate::proofs::Bounds::key_below))]
pub fn begins(table: Table<'_>, sort: Sort, key: Key) -> Option<u8>
    requires few { length table.rows.now < 256 }
    ensures { result ≡ head_of ((table_of table.entry).chain (sort_number sort) (key_number key)) }
{
    begins_within(table, 4, sort, key)
}

/// The row by which a key grows an operand of a sort. None where there is none.
#[tactic(auto, unfolding(grammar_model::specs::Rows::grower_of), using(crate::proofs::Bounds::sort_below, crate::proofs::Bounds::key_below))]
pub fn grower(table: Table<'_>, sort: Sort, key: Key) -> Option<u8>
    requires few { length table.rows.now < 256 }
    ensures { result ≡ (table_of table.entry).grower (sort_number sort) (key_number key) }
{
    grower_within(table, sort, key)
}

fn grower_within(table: Table<'_>, sort: Sort, key: Key) -> Option<u8>
    requires few { length table.rows.now < 256 }
    ensures { result ≡ grower_in (rows_of table.entry) (chain_to 4 (rows_of table.entry)) 0 (rows_of table.entry) (sort_number sort) (key_number key) }
{
    let mut at = 0;
    for row in table.rows {
        if grows_here(table, *row, sort, key) {
            return Some(at);
        }
        at += 1;
    }
    None
}

fn grows_here(table: Table<'_>, row: Row, sort: Sort, key: Key) -> bool
    requires few { length table.rows.now < 256 }
    ensures { result ≡ is_grown (rows_of table.entry) (chain_to 4 (rows_of table.entry)) (row_of table.entry row) (sort_number sort) (key_number key) }
{
    number_of_sort(row.sort) == number_of_sort(sort)
        && has_left(table, row)
        && starts(table, 4, first_of(table, row), key)
}
