//! Where a token is taken, found by the numbers of the frames alone.
ghost use Rattle.std.specs.Prelude.{◌≡◌, ◌<◌, ◌≤◌, ◌^◌, length, option_map, None, IfSome, IsTrue, ℕ, ◌∷◌, ◌+◌, ◌-◌};
ghost use Rattle.recovery_model.specs.Numbers as numbers;
ghost use Rattle.recovery_model.specs.Steps.{most_parts};
ghost use Rattle.grammar_model.specs.Tables.{first_place, nowhere};
ghost use Rattle.syntax_rows.specs.Numbers.{key_number};
ghost use Rattle.syntax_rows.specs.View.{last_of, table_of, what_of, place_of, way_of};
ghost use Rattle.syntax_rows.specs.declared.rows.Table.{Table as CodeTable};
ghost use Rattle.parse_frames.specs.View.{frames_view};
ghost use Rattle.grammar_model.specs.Keys.{key_of};
ghost use Rattle.grammar_model.specs.Machine as machine;
ghost use Rattle.token_model.specs.Kinds.{Tok};
ghost use Rattle.parse_frames.specs.Stacks.{stack_view};
ghost use Rattle.frame_steps.specs.Course.{bare, course_of, fit_of, out_of};
ghost use Rattle.frame_steps.specs.View.{course_view, text_table, Stands, Standing};

use parse_frames::{Frames, Stack as FrameStack};
use syntax_rows::{
    Key, Last, Place, Table, Text, Way, What, ends_at, find_way, first_place, grammar, what_at,
};

/// Where a token is taken: so many frames are closed first, and this is its way in the frame that is then the innermost.
#[derive(Clone, Copy, Debug, PartialEq, Eq)]
pub(crate) struct Course {
    pub closed: u32,
    pub way: Way,
}

/// What the newest part of a frame is once a node of this row stands there.
fn operand_of(what: What, row: u8) -> Last
    ensures { (t : CodeTable) → last_of result ≡ numbers.last_row (what_of t what) row }
{
    match what {
        What::Operand { sort: _, level: _ } => Last::Row(row),
        What::Token { first: _, count: _ } => Last::Plain,
        What::Nothing => Last::Plain,
    }
}

/// What tells where a key is taken in a frame.
#[derive(Clone, Copy, Debug, PartialEq, Eq)]
struct Spot {
    /// The frame's row.
    number: u8,
    /// The spot of its newest part.
    spot: u8,
    /// What its newest part is.
    last: Last,
}

/// Whether a frame that may be none is this one.
fn is_at(one: Option<Spot>, at: Spot) -> bool
    ensures { IsTrue result → one ≡ Some at }
{
    one == Some(at)
}

/// The first place of a key in a frame, where these two frames have none. In a deep nest of one kind of row all frames
/// are alike, and a key is looked for once.
fn place_beside(
    table: Table<'_>,
    at: Spot,
    key: Key,
    one: Option<Spot>,
    other: Option<Spot>,
) -> Place
    requires few { length table.rows.now < 256 }
    requires one { IfSome one (λ p. first_place (table_of table) p.number p.spot (last_of p.last) (key_number key) ≡ nowhere) }
    requires other { IfSome other (λ p. first_place (table_of table) p.number p.spot (last_of p.last) (key_number key) ≡ nowhere) }
    ensures { place_of result ≡ first_place (table_of table.entry) at.number at.spot (last_of at.last) (key_number key) }
{
    if is_at(one, at) {
        return Place::Nowhere;
    }
    if is_at(other, at) {
        return Place::Nowhere;
    }
    first_place(table, at.number, at.spot, at.last, key)
}

/// The way of a key in a frame, where these two frames have none.
fn way_beside(
    table: Table<'_>,
    at: Spot,
    key: Key,
    one: Option<Spot>,
    other: Option<Spot>,
) -> Option<Way>
    requires few { length table.rows.now < 256 }
    requires one { IfSome one (λ p. numbers.find_way most_parts (table_of table) p.number p.spot (last_of p.last) (key_number key) ≡ None) }
    requires other { IfSome other (λ p. numbers.find_way most_parts (table_of table) p.number p.spot (last_of p.last) (key_number key) ≡ None) }
    ensures { option_map way_of result ≡ numbers.find_way most_parts (table_of table.entry) at.number at.spot (last_of at.last) (key_number key) }
{
    if is_at(one, at) {
        return None;
    }
    if is_at(other, at) {
        return None;
    }
    find_way(table, at.number, at.spot, at.last, key)
}

/// The course of a token that fits: the innermost frame takes it, or it can end and the frames below take it. The two
/// frames that were passed before have no place for it.
fn find_fit(
    table: Table<'_>,
    at: Spot,
    below: &Frames,
    key: Key,
    one: Option<Spot>,
    other: Option<Spot>,
) -> Option<Course>
    requires few { length table.rows.now < 256 }
    requires room { length (frames_view below.now) < 2 ^ 32 }
    requires one { IfSome one (λ p. first_place (table_of table) p.number p.spot (last_of p.last) (key_number key) ≡ nowhere) }
    requires other { IfSome other (λ p. first_place (table_of table) p.number p.spot (last_of p.last) (key_number key) ≡ nowhere) }
    ensures course { option_map course_view result ≡ course_of (numbers.find_fit (table_of table.entry) at.number at.spot (last_of at.last) (bare (frames_view below.now)) (key_number key)) }
    ensures enough { IfSome result (λ c. c.closed ≤ length (frames_view below.now)) }
{
    let place = place_beside(table, at, key, one, other);
    match place {
        Place::Growth => Some(at_once(place)),
        Place::AtSpot(_) => Some(at_once(place)),
        Place::Nowhere => {
            if !ends_at(table, at.number, at.spot) {
                return None;
            }
            match below {
                None => None,
                Some(level) => {
                    let what = what_at(table, level.number, level.spot);
                    let next = Spot {
                        number: level.number,
                        spot: level.spot,
                        last: operand_of(what, at.number),
                    };
                    further(find_fit(table, next, &level.below, key, Some(at), one))
                }
            }
        }
    }
}

/// The course to a place of the innermost frame.
fn at_once(place: Place) -> Course
    ensures { course_view result ≡ (0, numbers.way 0 None (place_of place)) }
{
    Course {
        closed: 0,
        way: Way {
            musts: 0,
            past: None,
            place,
        },
    }
}

/// The same course where one frame more is closed first.
fn further(course: Option<Course>) -> Option<Course>
    requires room { IfSome course (λ c. c.closed < 2 ^ 32 - 1) }
    ensures course { option_map course_view result ≡ option_map (λ c. (c.0 + 1, c.1)) (option_map course_view course) }
    ensures one { (n : ℕ) → IfSome course (λ c. c.closed ≤ n) → IfSome result (λ c. c.closed ≤ n + 1) }
{
    match course {
        None => None,
        Some(course) => Some(Course {
            closed: course.closed + 1,
            way: course.way,
        }),
    }
}

/// The course of a token that doesn't fit: the first frame, from the innermost outward, that takes it past missing parts,
/// as if all frames further in were closed. The two frames that were passed before have no way for it.
fn find_out(
    table: Table<'_>,
    at: Spot,
    below: &Frames,
    key: Key,
    one: Option<Spot>,
    other: Option<Spot>,
) -> Option<Course>
    requires few { length table.rows.now < 256 }
    requires room { length (frames_view below.now) < 2 ^ 32 }
    requires one { IfSome one (λ p. numbers.find_way most_parts (table_of table) p.number p.spot (last_of p.last) (key_number key) ≡ None) }
    requires other { IfSome other (λ p. numbers.find_way most_parts (table_of table) p.number p.spot (last_of p.last) (key_number key) ≡ None) }
    ensures course { option_map course_view result ≡ numbers.find_out (table_of table.entry) at.number at.spot (last_of at.last) (bare (frames_view below.now)) (key_number key) }
    ensures enough { IfSome result (λ c. c.closed ≤ length (frames_view below.now)) }
{
    match way_beside(table, at, key, one, other) {
        Some(way) => Some(Course { closed: 0, way }),
        None => match below {
            None => None,
            Some(level) => {
                let what = what_at(table, level.number, level.spot);
                let next = Spot {
                    number: level.number,
                    spot: level.spot,
                    last: operand_of(what, at.number),
                };
                further(find_out(table, next, &level.below, key, Some(at), one))
            }
        },
    }
}

/// The course of a token that fits on these frames.
pub(crate) fn fitting_course(text: Text, frames: &FrameStack, key: Key) -> Option<Course>
    requires standing { Standing text (stack_view frames.now) }
    ensures course { (f : machine.Frame) (S : machine.Stack) (at : ℕ) (t : Tok) → Stands text (f ∷ S) at (stack_view frames.now) → key_number key ≡ key_of t
        → option_map course_view result ≡ course_of (fit_of (text_table text) f S t) }
    ensures enough { IfSome result (λ c. c.closed ≤ length (stack_view frames.now).below) }
{
    let at = Spot {
        number: frames.number(),
        spot: frames.spot(),
        last: frames.last(),
    };
    find_fit(grammar(text), at, frames.below(), key, None, None)
}

/// The course of a token that doesn't fit on these frames and is reached.
pub(crate) fn reaching_course(text: Text, frames: &FrameStack, key: Key) -> Option<Course>
    requires standing { Standing text (stack_view frames.now) }
    ensures course { (f : machine.Frame) (S : machine.Stack) (at : ℕ) (t : Tok) → Stands text (f ∷ S) at (stack_view frames.now) → key_number key ≡ key_of t
        → option_map course_view result ≡ out_of (text_table text) f S t }
    ensures enough { IfSome result (λ c. c.closed ≤ length (stack_view frames.now).below) }
{
    let at = Spot {
        number: frames.number(),
        spot: frames.spot(),
        last: frames.last(),
    };
    find_out(grammar(text), at, frames.below(), key, None, None)
}
