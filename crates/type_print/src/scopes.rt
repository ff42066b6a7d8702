//! The name that an origin has in one scope.
ghost use Rattle.std.specs.Prelude.{◌≡◌, option_map};
ghost use Rattle.text_terms.specs.Bytes.{str_bytes};
ghost use Rattle.type_terms.specs.Views.{path_of};
ghost use Rattle.signature_model.specs.Entries.{type_kind};
ghost use Rattle.signature_model.specs.Lookups.{newest_by, same_kind};
ghost use Rattle.signature_model.specs.Records.{is_of_type};
ghost use Rattle.env_table.specs.Views.{names_of, is_named, kind_of, makes};
ghost use Rattle.type_print.specs.Paths.{makes_of, is_maker, finds, gives_name, name_for};
ghost use Rattle.type_print.specs.Scopes.{in_scope};

use env_table::{Entries, Entry, Env, Kind};
use std::rc::Rc;
use text_terms::RcStr;
use type_nodes::Origin;

/// What is in scope in one place.
#[derive(Clone, Copy)]
pub(crate) enum Scope<'a> {
    /// All names.
    All(&'a Env),
    /// Those that stand in a module.
    Module(Entries<'a>),
}

/// All entries of a scope, the newest first.
pub(crate) fn entries<'a>(scope: Scope<'a>) -> Entries<'a>
    ensures { names_of result ≡ in_scope scope.entry }
{
    match scope {
        Scope::All(env) => env.entries(),
        Scope::Module(entries) => entries,
    }
}

/// The name that the newest entry gives an origin: that of a type that makes it and that no newer type of its name hides. None
/// where there is none.
pub(crate) fn name_for<'a>(scope: Scope<'a>, origin: &Origin) -> Option<&'a RcStr>
    ensures { option_map (λ n. str_bytes n.now) result ≡ name_for (path_of origin.now) (in_scope scope.entry) }
{
    match newest_maker(scope, origin) {
        None => None,
        Some(entry) => Some(&entry.name),
    }
}

fn newest_maker<'a>(scope: Scope<'a>, origin: &Origin) -> Option<&'a Rc<Entry>>
    ensures { option_map (λ e. e.now.value) result ≡ newest_by (gives_name (path_of origin.now) (in_scope scope.entry)) (in_scope scope.entry) }
{
    let mut rest = candidates(scope, origin);
    while let Some((entry, older)) = rest.split_first() {
        if gives_name(scope, entry, origin) {
            return Some(entry);
        }
        rest = older;
    }
    None
}

/// The entries among which all that make an origin are.
#[tactic(auto, using(crate::proofs::Makers::among_makers))]
fn candidates<'a>(scope: Scope<'a>, origin: &Origin) -> Entries<'a>
    ensures { newest_by (gives_name (path_of origin.now) (in_scope scope.entry)) (names_of result) ≡ newest_by (gives_name (path_of origin.now) (in_scope scope.entry)) (in_scope scope.entry) }
{
    match scope {
        Scope::All(env) => env.makers(origin),
        Scope::Module(entries) => entries,
    }
}

/// Whether an entry is a type that makes an origin, as the newest type of its name does, too.
fn gives_name(scope: Scope<'_>, entry: &Entry, origin: &Origin) -> bool
    ensures { result ≡ gives_name (path_of origin.now) (in_scope scope.entry) entry.now }
{
    is_maker(entry, origin) && finds(scope, entry.name.as_str(), origin)
}

fn is_maker(entry: &Entry, origin: &Origin) -> bool
    ensures { result ≡ is_maker (path_of origin.now) entry.now }
{
    is_type(entry) && is_same(entry.makes(), origin)
}

fn is_type(entry: &Entry) -> bool
    ensures { result ≡ same_kind type_kind (kind_of entry.now.kind) }
{
    match entry.kind {
        Kind::TypeName => true,
        Kind::Value => false,
        Kind::Constructor => false,
        Kind::Label => false,
        Kind::Module => false,
        Kind::ModuleType => false,
    }
}

/// Whether the newest type of a name is the one that makes an origin.
fn finds(scope: Scope<'_>, name: &str, origin: &Origin) -> bool
    ensures { result ≡ finds (path_of origin.now) name.now (in_scope scope.entry) }
{
    makes(newest(scope, name), origin)
}

fn newest<'a>(scope: Scope<'a>, name: &str) -> Option<&'a Rc<Entry>>
    ensures { option_map (λ e. e.now.value) result ≡ newest_by (is_named type_kind name.now) (in_scope scope.entry) }
{
    match scope {
        Scope::All(env) => env.newest(Kind::TypeName, name),
        Scope::Module(entries) => entries.newest(Kind::TypeName, name),
    }
}

/// Whether an entry is the declaration that makes an origin.
fn makes(entry: Option<&Rc<Entry>>, origin: &Origin) -> bool
    ensures { result ≡ is_of_type (path_of origin.now) (makes_of (option_map (λ e. e.now.value) entry.entry)) }
{
    match entry {
        None => false,
        Some(entry) => is_same(entry.makes(), origin),
    }
}

fn is_same(made: Option<&Origin>, origin: &Origin) -> bool
    ensures { result ≡ is_of_type (path_of origin.now) (option_map (λ o. path_of o.now) made.entry) }
{
    match made {
        None => false,
        Some(made) => origin.path == made.path,
    }
}
