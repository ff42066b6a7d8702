//! The shortest path in scope to a constructor or a label.
ghost use Rattle.std.specs.Prelude.{◌≡◌, ◌==◌, if◌then◌else◌, None, IfOk, option_map, option_and_then};
ghost use Rattle.text_terms.specs.Bytes.{str_bytes};
ghost use Rattle.type_terms.specs.Views.{path_of};
ghost use Rattle.signature_model.specs.Records.{is_of_type};
ghost use Rattle.env_table.specs.Views.{names_of, kind_of};
ghost use Rattle.type_alternatives.specs.Parts.{part_at, part_naming, IsWritten};
ghost use Rattle.type_alternatives.specs.Levels.{level_of, finds, first_path};

use crate::declared::makes;
use crate::levels::{joined, next_level};
use env_table::{Declaration, Entries, Entry, Env, Kind, What};
use std::alloc::{AllocError, Global};
use std::rc::Rc;
use text_terms::{NoMemory, RcStr};
use type_nodes::Origin;

/// A module that may be searched: its path with a point behind it, empty outside of all, and its names.
#[derive(Drop)]
pub(crate) struct Inside<'a> {
    pub(crate) path: RcStr,
    pub(crate) entries: Entries<'a>,
}

/// What is looked for: the name that a declaration's constructor or label at a place has.
#[derive(Clone, Copy)]
pub(crate) struct Wanted<'a> {
    pub(crate) kind: Kind,
    pub(crate) name: &'a str,
    pub(crate) origin: &'a Origin,
    pub(crate) place: usize,
}

/// Whether a declaration's part at a place is the one that is looked for.
fn is_part(declaration: &Declaration, place: u32, wanted: Wanted<'_>) -> bool
    ensures { result ≡ is_of_type (path_of wanted.entry.origin.now) (if place == wanted.entry.place then option_map path_of declaration.now.origin else None) }
{
    if place as usize == wanted.place {
        makes(declaration, wanted.origin)
    } else {
        false
    }
}

fn is_wanted(entry: &Entry, wanted: Wanted<'_>) -> bool
    ensures { result ≡ is_of_type (path_of wanted.entry.origin.now) (part_at wanted.entry.place entry.now) }
{
    match &entry.what {
        What::Constructor(declaration, place) => is_part(declaration, *place, wanted),
        What::Label(declaration, place) => is_part(declaration, *place, wanted),
        What::Scheme(_) => false,
        What::Exception(_) => false,
        What::Type(_) => false,
        What::Module(_) => false,
        What::ModuleType(_) => false,
    }
}

fn is_wanted_one(entry: Option<&Rc<Entry>>, wanted: Wanted<'_>) -> bool
    ensures { result ≡ is_of_type (path_of wanted.entry.origin.now) (option_and_then (part_at wanted.entry.place) (option_map (λ e. e.now.value) entry.entry)) }
{
    match entry {
        None => false,
        Some(entry) => is_wanted(entry, wanted),
    }
}

/// Whether the newest of the wanted kind and name is the one that is wanted.
fn finds(entries: Entries<'_>, wanted: Wanted<'_>) -> bool
    ensures { result ≡ finds (kind_of wanted.entry.kind) wanted.entry.name.now wanted.entry.place (path_of wanted.entry.origin.now) (names_of entries.entry) }
{
    is_wanted_one(entries.newest(wanted.kind, wanted.name), wanted)
}

/// The path of the first module of a level in which what is wanted is found.
fn first_path<'a>(level: &'a [Inside<'_>], wanted: Wanted<'_>) -> Option<&'a RcStr>
    ensures { option_map (λ p. str_bytes p.now) result ≡ first_path (finds (kind_of wanted.entry.kind) wanted.entry.name.now wanted.entry.place (path_of wanted.entry.origin.now)) (level_of level.now) }
{
    for inside in level {
        if finds(inside.entries, wanted) {
            return Some(&inside.path);
        }
    }
    None
}

/// The shortest path whose lookup finds what is wanted; of these the newest from the outermost module inward. None where none does.
pub(crate) fn path_to(
    alloc: Global,
    env: &Env,
    wanted: Wanted<'_>,
) -> Result<Option<RcStr>, NoMemory>
    ensures { IfOk result (λ r. IsWritten (part_naming (kind_of wanted.entry.kind) wanted.entry.name.now wanted.entry.place) env.now (path_of wanted.entry.origin.now) (option_map str_bytes r)) }
{
    let first = Inside {
        path: RcStr::from_str(alloc, "")?,
        entries: env.entries(),
    };
    let Ok(mut level) = vec![in alloc; first] else {
        return Err(AllocError);
    };
    while !level.is_empty() {
        if let Some(path) = first_path(&level, wanted) {
            return Ok(Some(joined(alloc, path.as_str(), wanted.name, "")?));
        }
        level = next_level(alloc, &level)?;
    }
    Ok(None)
}
