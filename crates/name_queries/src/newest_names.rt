//! Of the names of a scope, the newest of each name and kind.
ghost use Rattle.std.specs.Prelude.{◌≡◌, ◌++◌, ◌∷◌, [], IfOk, OnOk};
ghost use Rattle.std.specs.List.{filter};
ghost use Rattle.env_table.specs.Views.{names_of};
ghost use Rattle.name_queries.specs.NewestNames.{begins_with, listed, told_kind, AreKept, SameNewest};

use env_table::{Entries, Entry, Kind};
use std::alloc::{AllocError, Global};
use std::collections::BTreeMap;
use std::rc::Rc;
use syntax_tree::NoMemory;

/// The kinds of names, in the order of their printed names.
#[derive(Clone, Copy, Debug, PartialEq, Eq, PartialOrd, Ord)]
pub enum CompletionKind {
    Constructor,
    Label,
    Module,
    ModuleType,
    Type,
    Value,
}

pub(crate) fn kind_of(kind: Kind) -> CompletionKind
    ensures { result ≡ told_kind kind }
{
    match kind {
        Kind::Value => CompletionKind::Value,
        Kind::Constructor => CompletionKind::Constructor,
        Kind::Label => CompletionKind::Label,
        Kind::TypeName => CompletionKind::Type,
        Kind::Module => CompletionKind::Module,
        Kind::ModuleType => CompletionKind::ModuleType,
    }
}

/// A name with its kind. Keys are in the order of their names, and then of their kinds.
#[derive(Clone, Copy, PartialEq, Eq, PartialOrd, Ord)]
pub(crate) struct Key<'a> {
    name: &'a str,
    kind: CompletionKind,
}

/// Entries by their names and kinds.
pub(crate) type Newest<'a> = BTreeMap<Key<'a>, &'a Rc<Entry>>;

/// Keeps an entry that is older than all before, unless there is one of its name and its kind.
fn keep<'a>(newest: &mut Newest<'a>, entry: &'a Rc<Entry>) -> Result<(), NoMemory>
    requires { AreKept newest.old.entries }
    ensures kept { AreKept newest.new.entries }
    ensures same { OnOk result (SameNewest (listed newest.new.entries) (listed newest.old.entries ++ entry.now.value ∷ [])) }
{
    let key = Key {
        name: entry.name.as_str(),
        kind: kind_of(entry.kind),
    };
    if newest.contains_key(&key) {
        return Ok(());
    }
    match newest.insert(key, entry) {
        Ok(_) => Ok(()),
        Err(_) => Err(AllocError),
    }
}

fn begins_with(entry: &Entry, beginning: &str) -> bool
    ensures { result ≡ begins_with beginning.now entry.now }
{
    entry
        .name
        .as_str()
        .as_bytes()
        .starts_with(beginning.as_bytes())
}

/// Of the entries whose names begin so, the newest of each name and kind.
pub(crate) fn newest_of<'a>(
    alloc: Global,
    entries: Entries<'a>,
    beginning: &str,
) -> Result<Newest<'a>, NoMemory>
    ensures kept { IfOk result (λ m. AreKept m.entries) }
    ensures same { IfOk result (λ m. SameNewest (listed m.entries) (filter (begins_with beginning.now) (names_of entries.entry))) }
{
    let mut newest = BTreeMap::new(alloc);
    let mut left = entries;
    while let Some((entry, older)) = left.split_first() {
        if begins_with(entry, beginning) {
            keep(&mut newest, entry)?;
        }
        left = older;
    }
    Ok(newest)
}
