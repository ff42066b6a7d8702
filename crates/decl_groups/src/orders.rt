//! In which order the types of a group are read that are other names of types: each behind those that it mentions.
ghost use Rattle.std.specs.Prelude.{◌≡◌, slice_get};
ghost use Rattle.decl_groups.specs.Marks.{mark_of};

use crate::groups::{DeclarationPart, Right, Standing, arguments_in_front, is_several};
use env_table::{Env, Found, Kind};
use owned_lists::push;
use row_parts::{Operand, WrittenPath, written_path};
use std::alloc::{AllocError, Global};
use std::collections::HashMap;
use syntax_tree::{Node, Part, RowName};
use type_nodes::NoMemory;
use typing_state::{declaration_of, path_of};

/// What the names of types in a group stand for: their places in it, of two the later one, and what is in scope outside.
#[derive(Drop)]
struct Known<'a> {
    places: HashMap<String, usize>,
    arities: Vec<usize>,
    env: &'a Env,
}

/// For each declaration of a group the places in the group of the types that it is another name of.
#[derive(Drop)]
pub struct Mentions {
    pub of: Vec<Vec<usize>>,
}

/// The places of the names of a group, of two the later one.
fn places(
    alloc: Global,
    parts: &[DeclarationPart<'_>],
) -> Result<HashMap<String, usize>, NoMemory> {
    let mut places = HashMap::new(alloc);
    for (place, part) in parts.iter().enumerate() {
        if let Some(name) = part.name {
            let key = text(alloc, name.name.as_str())?;
            if places.insert(key, place).is_err() {
                return Err(AllocError);
            }
        }
    }
    Ok(places)
}

/// The type expression of a declaration that is another name of a type.
fn renamed<'a>(right: &Right<'a>) -> Option<Operand<'a>> {
    match right {
        Right::Abbreviation(_, ty) => Some(*ty),
        Right::Reexport(_, ty, _, _) => Some(*ty),
        _ => None,
    }
}

impl<'a> Known<'a> {
    fn new(
        alloc: Global,
        parts: &[DeclarationPart<'_>],
        env: &'a Env,
    ) -> Result<Known<'a>, NoMemory> {
        let mut arities = Vec::new(alloc);
        for part in parts {
            push(&mut arities, part.parameters.len())?;
        }
        Ok(Known {
            places: places(alloc, parts)?,
            arities,
            env,
        })
    }

    /// The place in the group that a path names.
    fn place(&self, alloc: Global, path: &WrittenPath<'_>) -> Result<Option<usize>, NoMemory> {
        let (Some(last), true) = (path.last, path.qualifiers.is_empty()) else {
            return Ok(None);
        };
        let key = text(alloc, last.name.as_str())?;
        Ok(self.places.get(&key).copied())
    }

    /// How many parameters the type of a path has; None where it isn't known.
    fn arity(&self, alloc: Global, path: &WrittenPath<'_>) -> Result<Option<usize>, NoMemory> {
        if let Some(place) = self.place(alloc, path)? {
            return Ok(self.arities.get(place).copied());
        }
        let Some(last) = path.last else {
            return Ok(None);
        };
        let named = path_of(alloc, path, last)?;
        match self.env.lookup(&named, Kind::TypeName) {
            Found::Entry(entry) => match declaration_of(entry) {
                Some(declaration) => Ok(Some(declaration.arity as usize)),
                None => Ok(None),
            },
            _ => Ok(None),
        }
    }
}

fn text(alloc: Global, text: &str) -> Result<String, NoMemory> {
    match String::from_str(alloc, text) {
        Ok(text) => Ok(text),
        Err(_) => Err(AllocError),
    }
}

/// The path of a constructor in a type expression, and how many arguments stand in front of it; None of another row.
fn constructor_of<'a>(
    alloc: Global,
    node: &'a Node,
) -> Result<Option<(WrittenPath<'a>, usize)>, NoMemory> {
    match node.row {
        RowName::Tcon => Ok(Some((written_path(alloc, node, 0, 1)?, 0))),
        RowName::Tapp => Ok(Some((written_path(alloc, node, 1, 2)?, arguments_in_front(node)))),
        _ => Ok(None),
    }
}

/// Whether a type expression has no constructor, or one that is known and has as many arguments as it takes. The place of one in the
/// group is added to those found so far.
fn is_known(
    alloc: Global,
    known: &Known<'_>,
    node: &Node,
    found: &mut Vec<usize>,
) -> Result<bool, NoMemory> {
    let Some((path, given)) = constructor_of(alloc, node)? else {
        return Ok(true);
    };
    if known.arity(alloc, &path)? != Some(given) {
        return Ok(false);
    }
    if let Some(place) = known.place(alloc, &path)? {
        push(found, place)?;
    }
    Ok(true)
}

/// The places in the group of the types that stand in a type expression, added to those found so far. What stands in a type that
/// isn't known doesn't count.
fn mentioned_in(
    alloc: Global,
    known: &Known<'_>,
    node: &Node,
    standing: Standing,
    found: &mut Vec<usize>,
) -> Result<(), NoMemory> {
    if is_several(node, standing) {
        return Ok(());
    }
    if !is_known(alloc, known, node, found)? {
        return Ok(());
    }
    let inner = if node.row == RowName::Tapp {
        Standing::InFront
    } else {
        Standing::Alone
    };
    for child in &node.children {
        if let Part::Inner(part) = &child.part {
            mentioned_in(alloc, known, part, inner, found)?;
        }
    }
    Ok(())
}

/// The places in the group of the names in the type that a declaration is another name of.
fn mentioned(alloc: Global, known: &Known<'_>, right: &Right<'_>) -> Result<Vec<usize>, NoMemory> {
    let mut found = Vec::new(alloc);
    if let Some(ty) = renamed(right) {
        if let Some(node) = ty.node {
            mentioned_in(alloc, known, node, Standing::Alone, &mut found)?;
        }
    }
    Ok(found)
}

impl Mentions {
    pub fn new(
        alloc: Global,
        parts: &[DeclarationPart<'_>],
        env: &Env,
    ) -> Result<Mentions, NoMemory> {
        let known = Known::new(alloc, parts, env)?;
        let mut of = Vec::new(alloc);
        for part in parts {
            let found = mentioned(alloc, &known, &part.right)?;
            push(&mut of, found)?;
        }
        Ok(Mentions { of })
    }

    /// Whether all that a declaration mentions is done or isn't another name of a type.
    fn is_ready(&self, place: usize, renames: &[bool], done: &[bool]) -> bool {
        match self.of.get(place) {
            Some(mentioned) => mentioned
                .iter()
                .all(|m| !is_set(renames, *m) || is_set(done, *m)),
            None => true,
        }
    }

    /// The places of the declarations that are other names of types, each behind those that it mentions; those that are in a
    /// cycle, or mention one, are left out.
    pub fn order(&self, alloc: Global, renames: &[bool]) -> Result<Vec<usize>, NoMemory> {
        let mut order = Vec::new(alloc);
        let mut done = vec![in alloc; false; renames.len()]?;
        for _ in 0..renames.len() {
            let before = order.len();
            self.go_on(renames, &mut done, &mut order)?;
            if order.len() == before {
                return Ok(order);
            }
        }
        Ok(order)
    }

    /// Marks those that have a place in this order.
    pub fn ordered(&self, alloc: Global, renames: &[bool]) -> Result<Vec<bool>, NoMemory> {
        let mut marks = vec![in alloc; false; renames.len()]?;
        for place in self.order(alloc, renames)? {
            set(&mut marks, place);
        }
        Ok(marks)
    }

    /// Adds those that are ready.
    fn go_on(
        &self,
        renames: &[bool],
        done: &mut Vec<bool>,
        order: &mut Vec<usize>,
    ) -> Result<(), NoMemory> {
        for place in 0..renames.len() {
            if is_set(renames, place)
                && !is_set(done, place)
                && self.is_ready(place, renames, done)
            {
                set(done, place);
                push(order, place)?;
            }
        }
        Ok(())
    }

    /// Whether a declaration is met again from itself by other names of types alone.
    pub fn leads_to_itself(
        &self,
        alloc: Global,
        place: usize,
        renames: &[bool],
    ) -> Result<bool, NoMemory> {
        let mut reached = vec![in alloc; false; renames.len()]?;
        let mut ahead = Vec::new(alloc);
        self.reach(place, &mut reached, &mut ahead)?;
        // each place is put ahead once at most
        for _ in 0..renames.len() {
            let Some(next) = ahead.pop() else {
                break;
            };
            if is_set(renames, next) {
                self.reach(next, &mut reached, &mut ahead)?;
            }
        }
        Ok(is_set(&reached, place))
    }

    /// Marks what a declaration mentions; what wasn't marked before is ahead, to be gone on from.
    fn reach(
        &self,
        place: usize,
        reached: &mut Vec<bool>,
        ahead: &mut Vec<usize>,
    ) -> Result<(), NoMemory> {
        let Some(mentioned) = self.of.get(place) else {
            return Ok(());
        };
        for m in mentioned {
            if !is_set(reached, *m) {
                set(reached, *m);
                push(ahead, *m)?;
            }
        }
        Ok(())
    }
}

/// Whether a place is marked.
pub fn is_set(marks: &[bool], place: usize) -> bool
    ensures { result ≡ mark_of (slice_get marks.now place) }
{
    match marks.get(place) {
        Some(mark) => *mark,
        None => false,
    }
}

/// Marks a place.
pub fn set(marks: &mut Vec<bool>, place: usize) {
    if place < marks.len() {
        marks[place] = true;
    }
}

/// Takes a mark away.
pub fn clear(marks: &mut Vec<bool>, place: usize) {
    if place < marks.len() {
        marks[place] = false;
    }
}
