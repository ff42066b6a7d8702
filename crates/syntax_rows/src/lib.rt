//! The table of the rows of the grammar as data, and what a parser asks of it.
//! It stands on the definition of the table in `grammar_model` and on the tokens and names of `syntax_tree`.
//! Above, a contract sees a `Table` as the definition's table (`table_of`), a key, a sort and a row's name as their numbers,
//! and a place in a row as the definition's; `grammar` gives the table of each kind of text.
#![tactic(auto)]

mod keys;
mod lookup;
mod ocaml;
mod places;
mod rows;
mod starts;
mod ways;

pub use keys::{Key, number_of_key};
pub use lookup::{row_for, rows_are_separate};
pub use ocaml::{ROWS, Text, grammar};
pub use places::{Last, Place, first_place};
pub use rows::{Edge, Left, Row, Sort, Spot, Table, What, ends_at, name_at, what_at};
pub use starts::{begins, grower, start_of};
pub use ways::{Way, find_way, must_at};
