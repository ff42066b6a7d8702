//! The names that a prefix may become.
ghost use Rattle.std.specs.Prelude.{◌≡◌, ◌≤◌, ◌++◌, ◌∷◌, [], length, map, true, IfErr, IfOk, IfSome, IsSomeAnd, MatchOption, OnOk};
ghost use Rattle.std.specs.List.{join_with_byte};
ghost use Rattle.text_terms.specs.Bytes.{str_bytes};
ghost use Rattle.query_model.specs.Prefixes.{is_name_prefix};
ghost use Rattle.name_queries.specs.Prefixes.{IsNoPrefix};
ghost use Rattle.name_queries.specs.Environments.{env_at, names_behind};
ghost use Rattle.name_queries.specs.NewestNames.{listed};
ghost use Rattle.name_queries.specs.Completions.{AreTold, Completes, MeetsPrefix, TellsPath};

use crate::newest_names::{Newest, newest_of};
use crate::prefixes::{is_name_prefix, split_prefix};
use crate::scopes::entries_behind;
use crate::shown_entries::{Completion, completion_of};
use crate::touching::env_at;
use env_table::Env;
use query_engine::{Asked, QueryFault};
use std::alloc::{AllocError, Global};
use syntax_tree::{NoMemory, RcStr};

/// How many names are told.
const COMPLETION_LIMIT: usize = 200;

/// The first names that a prefix may become.
#[derive(Drop)]
pub struct Completions {
    /// By name, and then by kind.
    pub entries: Vec<Completion>,
    /// Whether there are others.
    pub more: bool,
}

/// Names with points between them.
fn dotted(alloc: Global, names: &[RcStr]) -> Result<RcStr, NoMemory>
    ensures { IfOk result (λ r. str_bytes r ≡ join_with_byte 46 (map str_bytes names.now)) }
{
    let Some((first, others)) = names.split_first() else {
        return RcStr::from_str(alloc, "");
    };
    let Ok(mut text) = String::from_str(alloc, first.as_str()) else {
        return Err(AllocError);
    };
    for name in others {
        if text.push_str(".").is_err() || text.push_str(name.as_str()).is_err() {
            return Err(AllocError);
        }
    }
    RcStr::new(alloc, text)
}

fn push(told: &mut Vec<Completion>, one: Completion) -> Result<(), NoMemory>
    ensures { OnOk result (told.new.items ≡ told.old.items ++ one ∷ []) }
{
    told.push(one).map_err(|_| AllocError)
}

/// The first of some names, in their order.
fn told(
    alloc: Global,
    asked: &Asked<'_>,
    env: &Env,
    newest: &Newest<'_>,
) -> Result<Completions, NoMemory>
    ensures first { IfOk result (AreTold asked.now env.now (listed newest.now.entries)) }
    ensures few { IfOk result (λ c. length c.entries.items ≤ 200) }
{
    let mut told = Vec::new(alloc);
    for entry in newest.values().take(COMPLETION_LIMIT) {
        push(&mut told, completion_of(alloc, asked, env, entry)?)?;
    }
    Ok(Completions {
        entries: told,
        more: newest.len() > COMPLETION_LIMIT,
    })
}

/// The names in scope behind modules that begin so. None where the modules lead to no module.
fn complete(
    alloc: Global,
    asked: &Asked<'_>,
    env: &Env,
    modules: &[RcStr],
    beginning: &str,
) -> Result<Option<Completions>, NoMemory>
    ensures few { IfOk result (λ o. IfSome o (λ c. length c.entries.items ≤ 200)) }
    ensures exact { IfOk result (λ o. MatchOption o (names_behind env.now (map str_bytes modules.now) ≡ None)
        (λ c. IsSomeAnd (names_behind env.now (map str_bytes modules.now)) (Completes asked.now env.now beginning.now c))) }
{
    match entries_behind(env, modules) {
        None => Ok(None),
        Some(entries) => {
            let newest = newest_of(alloc, entries, beginning)?;
            Ok(Some(told(alloc, asked, env, &newest)?))
        }
    }
}

/// Why nothing stands behind the modules: their path, with points between their names.
fn unbound(alloc: Global, modules: &[RcStr]) -> QueryFault
    ensures form { IsNoPrefix result true }
    ensures path { TellsPath (map str_bytes modules.now) result }
{
    match dotted(alloc, modules) {
        Ok(ident) => QueryFault::Unbound { ident },
        Err(_) => QueryFault::NoMemory,
    }
}

/// The names that a prefix may become at an offset, in bytes from 0: the newest of each name and kind, by name and then by
/// kind, the first 200. `NotAName` exactly where the prefix isn't names of modules, each with its point, and the beginning of
/// a name, which may be empty; `Unbound` with the path of the modules exactly where they lead to no module.
pub fn complete_prefix(
    alloc: Global,
    asked: &Asked<'_>,
    offset: u32,
    prefix: &str,
) -> Result<Completions, QueryFault>
    ensures exact { MeetsPrefix asked.now offset prefix.now result }
    ensures few { IfOk result (λ c. (is_name_prefix prefix.now ≡ true) × (length c.entries.items ≤ 200)) }
    ensures fails { IfErr result (λ e. IsNoPrefix e (is_name_prefix prefix.now)) }
{
    if !is_name_prefix(prefix) {
        return Err(QueryFault::NotAName);
    }
    let Ok((modules, beginning)) = split_prefix(alloc, prefix) else {
        return Err(QueryFault::NoMemory);
    };
    let Ok(env) = env_at(asked, offset) else {
        return Err(QueryFault::NoMemory);
    };
    match complete(alloc, asked, env, &modules, beginning) {
        Ok(Some(completions)) => Ok(completions),
        Ok(None) => Err(unbound(alloc, &modules)),
        Err(_) => Err(QueryFault::NoMemory),
    }
}
