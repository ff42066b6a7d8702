//! Modules level by level: those in scope, then those in these, of each level the newer first.
ghost use Rattle.std.specs.Prelude.{◌≡◌, ◌∷◌, ◌++◌, [], true, false, if◌then◌else◌, codes, IfOk, OnOk};
ghost use Rattle.std.specs.Str.{bytes_eq};
ghost use Rattle.text_terms.specs.Bytes.{str_bytes};
ghost use Rattle.signature_model.specs.Declarations.{Name};
ghost use Rattle.env_table.specs.Views.{names_of};
ghost use Rattle.type_print.specs.Paths.{is_module, contents};
ghost use Rattle.type_print.specs.Scopes.{has};
ghost use Rattle.type_alternatives.specs.Levels.{level_of, modules_among, next_level};

use crate::declared::contents;
use crate::reached::Inside;
use env_table::{Entries, Entry, Kind};
use std::alloc::{AllocError, Global};
use std::collections::HashSet;
use text_terms::{NoMemory, RcStr};

/// The modules in those of a level.
pub(crate) fn next_level<'a>(
    alloc: Global,
    level: &[Inside<'a>],
) -> Result<Vec<Inside<'a>>, NoMemory>
    ensures { IfOk result (λ next. level_of next.items ≡ next_level (level_of level.now)) }
{
    let mut next = Vec::new(alloc);
    for inside in level {
        add_modules(alloc, &inside.path, inside.entries, &mut next)?;
    }
    Ok(next)
}

/// Puts the modules among entries that a newer one doesn't hide behind others, the newest first.
fn add_modules<'a>(
    alloc: Global,
    path: &RcStr,
    entries: Entries<'a>,
    out: &mut Vec<Inside<'a>>,
) -> Result<(), NoMemory>
    ensures { OnOk result (level_of out.new.items ≡ level_of out.old.items ++ modules_among (str_bytes path.now) [] (names_of entries.entry)) }
{
    let mut names = HashSet::new(alloc);
    let mut rest = entries;
    while let Some((entry, older)) = rest.split_first() {
        if is_module(entry) && is_new(&mut names, entry.name.as_str())? {
            add_module(alloc, path, entry, out)?;
        }
        rest = older;
    }
    Ok(())
}

fn is_module(entry: &Entry) -> bool
    ensures { result ≡ is_module entry.now }
{
    match entry.kind {
        Kind::Module => true,
        Kind::Value => false,
        Kind::Constructor => false,
        Kind::Label => false,
        Kind::TypeName => false,
        Kind::ModuleType => false,
    }
}

/// Whether a name wasn't there; it is after this.
fn is_new<'a>(names: &mut HashSet<&'a str>, name: &'a str) -> Result<bool, NoMemory>
    ensures new { IfOk result (λ new. new ≡ (if has names.old name.now then false else true)) }
    ensures added { OnOk result ((q : Name) → has names.new q ≡ (if bytes_eq name.now q then true else has names.old q)) }
{
    if names.contains(name) {
        return Ok(false);
    }
    match names.insert(name) {
        Ok(_) => Ok(true),
        Err(_) => Err(AllocError),
    }
}

fn add_module<'a>(
    alloc: Global,
    path: &RcStr,
    entry: &'a Entry,
    out: &mut Vec<Inside<'a>>,
) -> Result<(), NoMemory>
    ensures { OnOk result (level_of out.new.items ≡ level_of out.old.items ++ (str_bytes path.now ++ str_bytes entry.now.name ++ codes ".", contents entry.now) ∷ []) }
{
    let module = Inside {
        path: joined(alloc, path.as_str(), entry.name.as_str(), ".")?,
        entries: contents(entry),
    };
    match out.push(module) {
        Ok(()) => Ok(()),
        Err(_) => Err(AllocError),
    }
}

/// Three texts, one behind another.
pub(crate) fn joined(
    alloc: Global,
    first: &str,
    second: &str,
    third: &str,
) -> Result<RcStr, NoMemory>
    ensures { IfOk result (λ r. str_bytes r ≡ first.now ++ second.now ++ third.now) }
{
    match format!(in alloc; "{first}{second}{third}") {
        Ok(text) => RcStr::new(alloc, text),
        Err(_) => Err(AllocError),
    }
}
