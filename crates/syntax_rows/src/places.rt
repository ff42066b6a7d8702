//! The first place that may take a key in a row in progress.
ghost use Rattle.std.specs.Prelude.{◌≡◌, ◌<◌, ◌&&◌, ℕ, length, map, List, nat_eq, nat_le};
ghost use Rattle.grammar_model.specs.Rows as lists;
ghost use Rattle.grammar_model.specs.Tables as tables;
ghost use Rattle.syntax_rows.specs.Numbers.{key_number, sort_number, name_number};
ghost use Rattle.syntax_rows.specs.View.{table_of, rows_of, what_of, last_of, place_of, edge_of};

use crate::keys::Key;
use crate::rows::{
    Edge, Left, Sort, Table, What, next_at, number_of_name, number_of_sort, part_of, stand_of,
    what_at,
};
use crate::starts::{begins, grower, has};
use syntax_tree::RowName;

/// What the newest part of a row in progress is.
#[derive(Clone, Copy, Debug, PartialEq, Eq)]
pub enum Last {
    /// no operand: a token, taken or missing, or no part at all
    Plain,
    /// an operand that is missing
    Hole,
    /// an operand that is a node of this row
    Row(u8),
}

/// Where a row in progress takes a token.
#[derive(Clone, Copy, Debug, PartialEq, Eq)]
pub enum Place {
    /// nowhere
    Nowhere,
    /// by growth of its newest operand
    Growth,
    /// at this spot
    AtSpot(u8),
}

/// Whether a spot may come behind the newest part.
pub fn allowed(behind: Option<u8>, last: Last) -> bool
    ensures { result ≡ tables.allowed behind (last_of last) }
{
    match behind {
        None => true,
        Some(r) => match last {
            Last::Row(q) => r == q,
            Last::Plain => false,
            Last::Hole => false,
        },
    }
}

/// Whether a row may have this left operand.
pub fn left_takes(table: Table<'_>, row: u8, last: Last) -> bool
    ensures { result ≡ (table_of table.entry).left_ok row (last_of last) }
{
    match table.rows.get(usize::from(row)) {
        None => false,
        Some(r) => match r.left {
            Left::None => false,
            Left::Level(level) => match last {
                Last::Plain => false,
                Last::Hole => true,
                Last::Row(q) => has_level(table, q, r.sort, level),
            },
            Left::Row(name) => match last {
                Last::Plain => false,
                Last::Hole => false,
                Last::Row(q) => has_name(table, q, r.sort, name),
            },
        },
    }
}

/// Whether a row has a sort and a level or a higher one.
fn has_level(table: Table<'_>, row: u8, sort: Sort, level: u8) -> bool
    ensures { result ≡ (nat_eq (lists.row_at (rows_of table.entry) row).sort (sort_number sort) && nat_le level (lists.row_at (rows_of table.entry) row).level) }
{
    match table.rows.get(usize::from(row)) {
        Some(r) => number_of_sort(r.sort) == number_of_sort(sort) && level <= r.level,
        None => number_of_sort(sort) == 0 && level == 0,
    }
}

/// Whether a row has a sort and a name.
fn has_name(table: Table<'_>, row: u8, sort: Sort, name: RowName) -> bool
    ensures { result ≡ (nat_eq (lists.row_at (rows_of table.entry) row).sort (sort_number sort) && nat_eq (lists.row_at (rows_of table.entry) row).name (name_number name)) }
{
    match table.rows.get(usize::from(row)) {
        Some(r) => number_of_sort(r.sort) == number_of_sort(sort)
            && number_of_name(r.name) == number_of_name(name),
        None => number_of_sort(sort) == 0 && number_of_name(name) == 0,
    }
}

/// Whether a key stands at, or begins, this.
pub fn takes(table: Table<'_>, what: What, key: Key) -> bool
    requires few { length table.rows.now < 256 }
    ensures { result ≡ tables.takes (table_of table.entry) (what_of table.entry what) (key_number key) }
{
    match what {
        What::Nothing => false,
        What::Token { first, count } => has(part_of(table.keys, first, count), key),
        What::Operand { sort, level } => match begins(table, sort, key) {
            None => false,
            Some(row) => level <= stand_of(table, row),
        },
    }
}

/// Whether a key grows the newest part, which stands in this.
pub fn grows(table: Table<'_>, what: What, last: Last, key: Key) -> bool
    requires few { length table.rows.now < 256 }
    ensures { result ≡ tables.grows (table_of table.entry) (what_of table.entry what) (last_of last) (key_number key) }
{
    match what {
        What::Nothing => false,
        What::Token { first: _, count: _ } => false,
        What::Operand { sort, level } => match grower(table, sort, key) {
            None => false,
            Some(row) => level <= stand_of(table, row) && left_takes(table, row, last),
        },
    }
}

/// The first place that may take a key in a row in progress: growth of its newest part, and then the spots that may come
/// next, in order.
#[tactic(auto, unfolding(grammar_model::specs::Tables::first_place))]
pub fn first_place(table: Table<'_>, row: u8, at: u8, last: Last, key: Key) -> Place
    requires few { length table.rows.now < 256 }
    ensures { place_of result ≡ tables.first_place (table_of table.entry) row at (last_of last) (key_number key) }
{
    if grows(table, what_at(table, row, at), last, key) {
        return Place::Growth;
    }
    first_spot(table, row, last, key, next_at(table, row, at))
}

fn first_spot(table: Table<'_>, row: u8, last: Last, key: Key, next: &[Edge]) -> Place
    requires few { length table.rows.now < 256 }
    ensures { place_of result ≡ tables.first_spot (table_of table.entry) row (last_of last) (key_number key) (map edge_of next.now) }
{
    for edge in next {
        if allowed(edge.behind, last) && takes(table, what_at(table, row, edge.spot), key) {
            return Place::AtSpot(edge.spot);
        }
    }
    Place::Nowhere
}
