//! The form of the table: rows with their spots, in flat arrays.
ghost use Rattle.std.specs.Prelude.{◌≡◌, ◌<◌, ℕ, length, map, take, drop};
ghost use Rattle.grammar_model.specs.Rows as lists;
ghost use Rattle.syntax_rows.specs.Numbers.{sort_number, name_number};
ghost use Rattle.syntax_rows.specs.View.{table_of, rows_of, row_of, spot_of, edge_of, left_of, what_of};

use crate::keys::Key;
use syntax_tree::RowName;

/// What an operand is.
#[derive(Clone, Copy, Debug, PartialEq, Eq)]
pub enum Sort {
    /// no operand: a whole program
    Program,
    /// no operand: a whole signature
    SignatureText,
    Item,
    SignatureItem,
    Expression,
    Pattern,
    TypeExpression,
    ModuleExpression,
    ModuleType,
    Binding,
    Case,
    Declaration,
    Head,
    RightSide,
    TypeKind,
    Constructor,
    Label,
    Field,
    FieldPattern,
    WithClause,
}

/// What a row needs on its left.
#[derive(Clone, Copy, Debug, PartialEq, Eq)]
pub enum Left {
    /// no operand
    None,
    /// an operand of this level or a higher one
    Level(u8),
    /// an operand that is a row of this name
    Row(RowName),
}

/// A row of the table.
#[derive(Clone, Copy, Debug, PartialEq, Eq)]
pub struct Row {
    pub name: RowName,
    pub sort: Sort,
    pub left: Left,
    /// The level that it has as a left operand.
    pub level: u8,
    /// The highest level of a slot in which it may stand.
    pub stand: u8,
    /// The number of its first spot, its start, among the table's spots.
    pub first: u16,
    /// How many spots it has, its start included.
    pub count: u8,
}

/// What stands at a spot of a row.
#[derive(Clone, Copy, Debug, PartialEq, Eq)]
pub enum What {
    /// nothing: the row's start, or its left operand
    Nothing,
    /// a token with one of so many keys, from this one among the table's keys
    Token { first: u16, count: u8 },
    /// an operand of this sort and level
    Operand { sort: Sort, level: u8 },
}

/// A spot of a row: its start, or one of its parts.
#[derive(Clone, Copy, Debug, PartialEq, Eq)]
pub struct Spot {
    pub what: What,
    /// The first of the spots that may come next, among the table's edges.
    pub first: u16,
    /// How many spots may come next.
    pub count: u8,
    /// Whether the row may end behind it.
    pub ends: bool,
}

/// A spot that may come next, and the row that the operand before it must have, if any.
#[derive(Clone, Copy, Debug, PartialEq, Eq)]
pub struct Edge {
    pub spot: u8,
    pub behind: Option<u8>,
}

/// A table of rows, of which one is the row of a whole text.
#[derive(Clone, Copy, Debug)]
pub struct Table<'a> {
    pub root: u8,
    pub rows: &'a [Row],
    pub spots: &'a [Spot],
    pub edges: &'a [Edge],
    pub keys: &'a [Key],
}

/// So many of these, from this one; fewer where there aren't so many.
pub fn part_of<'a, T>(items: &'a [T], first: u16, count: u8) -> &'a [T]
    ensures { result.now ≡ take count (drop first items.now) }
{
    let first = usize::from(first);
    let count = usize::from(count);
    if first > items.len() {
        return &[];
    }
    let rest = &items[first..];
    if count > rest.len() {
        return rest;
    }
    &rest[..count]
}

/// The number by which sorts are compared.
#[tactic(auto, unfolding(crate::specs::Numbers::sort_number))]
pub fn number_of_sort(sort: Sort) -> u8
    ensures { result ≡ sort_number sort }
{
    sort as u8
}

/// The number by which names of rows are compared.
#[tactic(auto, unfolding(crate::specs::Numbers::name_number))]
pub fn number_of_name(name: RowName) -> u8
    ensures { result ≡ name_number name }
{
    name as u8
}

/// The spots of a row.
pub fn spots_at<'a>(table: Table<'a>, row: u8) -> &'a [Spot]
    ensures { map (spot_of table.entry) result.now ≡ (lists.row_at (rows_of table.entry) row).spots }
{
    match table.rows.get(usize::from(row)) {
        Some(r) => part_of(table.spots, r.first, r.count),
        None => &[],
    }
}

/// What stands at a spot.
pub fn what_at(table: Table<'_>, row: u8, spot: u8) -> What
    ensures { what_of table.entry result ≡ (table_of table.entry).what row spot }
{
    match spots_at(table, row).get(usize::from(spot)) {
        Some(s) => s.what,
        None => What::Nothing,
    }
}

/// The spots that may come behind a spot, in order.
pub fn next_at<'a>(table: Table<'a>, row: u8, spot: u8) -> &'a [Edge]
    ensures { map edge_of result.now ≡ (table_of table.entry).next row spot }
{
    match spots_at(table, row).get(usize::from(spot)) {
        Some(s) => part_of(table.edges, s.first, s.count),
        None => &[],
    }
}

/// Whether a row may end behind a spot.
pub fn ends_at(table: Table<'_>, row: u8, spot: u8) -> bool
    ensures { result ≡ (table_of table.entry).ends row spot }
{
    match spots_at(table, row).get(usize::from(spot)) {
        Some(s) => s.ends,
        None => true,
    }
}

/// The highest level of a slot in which a row may stand.
pub fn stand_of(table: Table<'_>, row: u8) -> u8
    ensures { result ≡ (table_of table.entry).stand row }
{
    match table.rows.get(usize::from(row)) {
        Some(r) => r.stand,
        None => 0,
    }
}

/// What a row needs on its left.
pub fn left_at(table: Table<'_>, row: u8) -> Left
    ensures { left_of result ≡ (lists.row_at (rows_of table.entry) row).left }
{
    match table.rows.get(usize::from(row)) {
        Some(r) => r.left,
        None => Left::None,
    }
}

/// The name of a row.
#[tactic(auto, unfolding(crate::specs::Numbers::name_number))]
pub fn name_at(table: Table<'_>, row: u8) -> RowName
    ensures { name_number result ≡ (lists.row_at (rows_of table.entry) row).name }
{
    match table.rows.get(usize::from(row)) {
        Some(r) => r.name,
        None => RowName::Program,
    }
}
