//! How a row in progress comes to take a token past parts that are missing.
ghost use Rattle.std.specs.Prelude.{◌≡◌, ◌<◌, ◌≤◌, length, map, option_map, IfSome, Option};
ghost use Rattle.recovery_model.specs.Numbers as numbers;
ghost use Rattle.recovery_model.specs.Steps as recovery;
ghost use Rattle.syntax_rows.specs.declared.rows.Table.{Table as CodeTable};
ghost use Rattle.syntax_rows.specs.Numbers.{key_number};
ghost use Rattle.syntax_rows.specs.View.{table_of, what_of, last_of, edge_of, place_of, way_of};

use crate::keys::Key;
use crate::places::{Last, Place, allowed, first_place};
use crate::rows::{Edge, Table, What, ends_at, next_at, what_at};

/// How a row in progress comes to take a token.
#[derive(Clone, Copy, Debug, PartialEq, Eq)]
pub struct Way {
    /// How many parts that must come are missing first.
    pub musts: u8,
    /// The spot of an operand that is then missing too, if any.
    pub past: Option<u8>,
    /// Where the token is taken then, which isn't nowhere.
    pub place: Place,
}

/// What a missing part is as the newest part.
fn hole_in(what: What) -> Last
    ensures { (t : CodeTable) → last_of result ≡ numbers.hole_in (what_of t what) }
{
    match what {
        What::Operand { sort: _, level: _ } => Last::Hole,
        What::Token { first: _, count: _ } => Last::Plain,
        What::Nothing => Last::Plain,
    }
}

/// Whether an operand stands there.
fn is_operand(what: What) -> bool
    ensures { (t : CodeTable) → result ≡ recovery.is_operand (what_of t what) }
{
    match what {
        What::Operand { sort: _, level: _ } => true,
        What::Token { first: _, count: _ } => false,
        What::Nothing => false,
    }
}

/// The way to a place, if it is one.
fn way_to(past: Option<u8>, place: Place) -> Option<Way>
    ensures way { (w : Option numbers.Way) → numbers.or_way (option_map way_of result) w ≡ numbers.way_by past (place_of place) w }
    ensures few { IfSome result (λ w. w.musts ≡ 0) }
{
    match place {
        Place::Nowhere => None,
        Place::Growth => Some(Way {
            musts: 0,
            past,
            place,
        }),
        Place::AtSpot(_) => Some(Way {
            musts: 0,
            past,
            place,
        }),
    }
}

/// The way past one of the operands that may come.
fn past_way(table: Table<'_>, row: u8, last: Last, key: Key, next: &[Edge]) -> Option<Way>
    requires few { length table.rows.now < 256 }
    ensures way { option_map way_of result ≡ numbers.past_way (table_of table.entry) row (last_of last) (key_number key) (map edge_of next.now) }
    ensures few { IfSome result (λ w. w.musts ≡ 0) }
{
    for edge in next {
        let what = what_at(table, row, edge.spot);
        if is_operand(what) && allowed(edge.behind, last) {
            let found = way_to(
                Some(edge.spot),
                first_place(table, row, edge.spot, hole_in(what), key),
            );
            if found.is_some() {
                return found;
            }
        }
    }
    None
}

/// The last of the spots that may come.

fn last_spot(next: &[Edge]) -> Option<u8>
    ensures { result ≡ option_map (λ e. e.spot) (recovery.last_edge (map edge_of next.now)) }
{
    let mut last = None;
    for edge in next {
        last = Some(edge.spot);
    }
    last
}

/// The spot that must come next. None where the row may end.
pub fn must_at(table: Table<'_>, row: u8, at: u8) -> Option<u8>
    ensures { result ≡ option_map (λ e. e.spot) (numbers.must_at (table_of table.entry) row at) }
{
    if ends_at(table, row, at) {
        return None;
    }
    last_spot(next_at(table, row, at))
}

/// The way of a key in a row in progress, past at most so many parts that must come.
fn way_within(table: Table<'_>, fuel: u8, row: u8, at: u8, last: Last, key: Key) -> Option<Way>
    requires few { length table.rows.now < 256 }
    ensures way { option_map way_of result ≡ numbers.find_way fuel (table_of table.entry) row at (last_of last) (key_number key) }
    ensures few { IfSome result (λ w. w.musts ≤ fuel) }
{
    if fuel == 0 {
        return None;
    }
    let here = way_to(None, first_place(table, row, at, last, key));
    if here.is_some() {
        return here;
    }
    let past = past_way(table, row, last, key, next_at(table, row, at));
    if past.is_some() {
        return past;
    }
    match must_at(table, row, at) {
        None => None,
        Some(spot) => match way_within(
            table,
            fuel - 1,
            row,
            spot,
            hole_in(what_at(table, row, spot)),
            key,
        ) {
            None => None,
            Some(way) => Some(Way {
                musts: way.musts + 1,
                past: way.past,
                place: way.place,
            }),
        },
    }
}

/// The way of a key in a row in progress. None where it has no place there, however many parts are missing.
pub fn find_way(table: Table<'_>, row: u8, at: u8, last: Last, key: Key) -> Option<Way>
    requires few { length table.rows.now < 256 }
    ensures way { option_map way_of result ≡ numbers.find_way recovery.most_parts (table_of table.entry) row at (last_of last) (key_number key) }
    ensures few { IfSome result (λ w. w.musts ≤ 16) }
{
    way_within(table, 16, row, at, last, key)
}
