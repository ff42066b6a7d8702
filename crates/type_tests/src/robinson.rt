//! Unification by substitution (Robinson 1965) over types in prefix order, one byte a head. It knows no levels, no scopes and
//! no nodes: the tests compare the store's unification with it.
use std::alloc::{AllocError, Global};
use type_nodes::NoMemory;

/// How many parts a head has: two at `>`, an arrow; as many as it says at a digit, a tuple; one at `L` and `M`, two lists
/// of one name. Small letters are variables, and the other capitals have no part.
pub fn arity(head: u8) -> usize {
    match head {
        b'>' => 2,
        b'2' => 2,
        b'3' => 3,
        b'4' => 4,
        b'L' | b'M' => 1,
        _ => 0,
    }
}

pub fn is_variable(head: u8) -> bool {
    head.is_ascii_lowercase()
}

/// After the last head of the type that begins at a place.
pub fn end_of(term: &[u8], at: usize) -> usize {
    let mut open: usize = 1;
    for i in at..term.len() {
        open = open.saturating_sub(1).saturating_add(arity(term[i]));
        if open == 0 {
            return i + 1;
        }
    }
    term.len()
}

/// The type that begins at a place; empty where none does.
pub fn part(term: &[u8], at: usize) -> &[u8] {
    let end = end_of(term, at);
    if at <= end && end <= term.len() {
        &term[at..end]
    } else {
        &term[..0]
    }
}

fn put(alloc: Global, term: &[u8], var: u8, by: &[u8]) -> Result<Vec<u8>, NoMemory> {
    let mut out = Vec::new(alloc);
    for head in term {
        if *head == var {
            out.extend_from_slice(by)?;
        } else {
            out.push(*head)?;
        }
    }
    Ok(out)
}

fn first_difference(left: &[u8], right: &[u8]) -> usize {
    for (i, head) in left.iter().enumerate() {
        if right.get(i) != Some(head) {
            return i;
        }
    }
    left.len()
}

// What a variable has to be where two types first differ; none where they are kept apart there.
fn equation<'a>(left: &'a [u8], right: &'a [u8]) -> Option<(u8, &'a [u8])> {
    let at = first_difference(left, right);
    if at >= left.len() || at >= right.len() {
        return None;
    }
    let (var, by) = if is_variable(left[at]) {
        (left[at], part(right, at))
    } else {
        (right[at], part(left, at))
    };
    if !is_variable(var) || by.contains(&var) {
        return None;
    }
    Some((var, by))
}

/// Two types, one after the other, with the most general types in place of their variables that make them one; None if
/// there are none.
pub fn unified(alloc: Global, both: &[u8]) -> Result<Option<Vec<u8>>, NoMemory> {
    let mut both = both.to_vec(alloc)?;
    for _turn in 0..27 {
        let left = part(&both, 0);
        let right = part(&both, left.len());
        if left == right {
            return Ok(Some(both));
        }
        let Some((var, by)) = equation(left, right) else {
            return Ok(None);
        };
        both = put(alloc, &both, var, by)?;
    }
    Err(AllocError)
}

// How many other variables come before the first place of this one.
fn number_of(term: &[u8], var: u8) -> usize {
    let mut count: usize = 0;
    for (i, head) in term.iter().enumerate() {
        if *head == var {
            return count;
        }
        if is_variable(*head) && !term[..i].contains(head) {
            count = count.saturating_add(1);
        }
    }
    count
}

// A head, with a variable by its number.
fn marked(term: &[u8], head: u8) -> (u8, usize) {
    if is_variable(head) {
        (b'a', number_of(term, head))
    } else {
        (head, 0)
    }
}

/// Whether two texts have the same types but for the names of the variables.
pub fn are_alike(left: &[u8], right: &[u8]) -> bool {
    if left.len() != right.len() {
        return false;
    }
    for (a, b) in left.iter().zip(right) {
        if marked(left, *a) != marked(right, *b) {
            return false;
        }
    }
    true
}
