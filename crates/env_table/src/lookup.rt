//! What a path of names comes to.
ghost use Rattle.std.specs.Prelude.{◌≡◌, [], map, option_map, IfOk};
ghost use Rattle.text_terms.specs.Bytes.{str_bytes};
ghost use Rattle.signature_model.specs.Entries.{module_kind};
ghost use Rattle.signature_model.specs.Lookups.{through, found, found_in, scope_by, lookup_by};
ghost use Rattle.env_table.specs.Views.{is_named, kind_of, inside, module_scope, found_view};
ghost use Rattle.env_table.specs.Scopes.{scope_view, scope_in, is_no_scope, lost_behind, module_behind, modules_along};

use crate::entries::{Entry, Found, Kind, Path, Sig, What};
use crate::env::Env;
use crate::walk::{Entries, nothing, of_components};
use std::alloc::Global;
use std::rc::Rc;
use text_terms::{NoMemory, RcStr};

/// The names that stand in scope behind a path of modules.
#[derive(Clone, Copy)]
pub(crate) enum Scope<'a> {
    Env(&'a Env),
    /// Those of a structure.
    Inside(Entries<'a>),
    /// Those of a module that isn't known, in which anything may stand.
    Unknown,
    /// A module of the path isn't there.
    Absent,
}

impl<'a> Scope<'a> {
    /// The newest name of a kind in this scope.
    pub(crate) fn newest(self, kind: Kind, name: &str) -> Found<'a>
        ensures { found_view result ≡ found_in (is_named (kind_of kind) name.now) (scope_view self.entry) }
    {
        match self {
            Scope::Env(env) => found(env.newest(kind, name)),
            Scope::Inside(entries) => found(entries.newest(kind, name)),
            Scope::Unknown => Found::Hole,
            Scope::Absent => Found::Nothing,
        }
    }
}

impl Env {
    /// The newest entry of the last name and of this kind, behind the path's modules. It is a hole where one of these modules
    /// isn't known, and nothing where a name is absent.
    pub fn lookup(&self, path: &Path, kind: Kind) -> Found<'_>
        ensures { found_view result ≡ lookup_by is_named inside self.now (map str_bytes path.now.modules.items) (kind_of kind) (str_bytes path.now.last) }
    {
        self.scope_behind(&path.modules)
            .newest(kind, path.last.as_str())
    }

    /// What stands in scope behind the newest module of each name in turn.
    pub(crate) fn scope_behind(&self, modules: &[RcStr]) -> Scope<'_>
        ensures { scope_view result ≡ scope_by is_named inside self.now (map str_bytes modules.now) }
    {
        let mut scope = Scope::Env(self);
        for name in modules {
            scope = inside_module(scope, name.as_str());
        }
        scope
    }

    /// The place of the first of these modules that isn't there; one behind a module that isn't known may be.
    pub fn lost_module(&self, modules: &[RcStr]) -> Option<usize>
        ensures { result ≡ lost_behind self.now [] 0 (map str_bytes modules.now) }
    {
        let mut scope = Scope::Env(self);
        for place in 0..modules.len() {
            scope = inside_module(scope, modules[place].as_str());
            if is_absent(scope) {
                return Some(place);
            }
        }
        None
    }

    /// What the last of these modules is, each of which is looked for in the one before it; nothing where no module is named.
    pub fn module_behind(&self, modules: &[RcStr]) -> Found<'_>
        ensures { found_view result ≡ module_behind self.now [] (map str_bytes modules.now) }
    {
        match modules.split_last() {
            None => Found::Nothing,
            Some((last, outer)) => self.scope_behind(outer).newest(Kind::Module, last.as_str()),
        }
    }

    /// What each of these modules is, each of which is looked for in the one before it.
    pub fn modules_along(
        &self,
        alloc: Global,
        modules: &[RcStr],
    ) -> Result<Vec<Found<'_>>, NoMemory>
        ensures { IfOk result (λ fs. map found_view fs.items ≡ modules_along self.now [] (map str_bytes modules.now)) }
    {
        let mut along = Vec::new(alloc);
        let mut scope = Scope::Env(self);
        for name in modules {
            let module = scope.newest(Kind::Module, name.as_str());
            scope = inside_found(module);
            along.push(module)?;
        }
        Ok(along)
    }
}

pub(crate) fn found<'a>(entry: Option<&'a Rc<Entry>>) -> Found<'a>
    ensures { found_view result ≡ found (option_map (λ e. e.now.value) entry.entry) }
{
    match entry {
        Some(entry) => Found::Entry(entry),
        None => Found::Nothing,
    }
}

fn is_absent(scope: Scope<'_>) -> bool
    ensures { result ≡ is_no_scope (scope_view scope.entry) }
{
    match scope {
        Scope::Absent => true,
        _ => false,
    }
}

fn inside_module<'a>(scope: Scope<'a>, name: &str) -> Scope<'a>
    ensures { scope_view result ≡ through (scope_view scope.entry) (module_scope name.now) }
{
    inside_found(scope.newest(Kind::Module, name))
}

/// What stands in scope in what a name comes to.
fn inside_found(found: Found<'_>) -> Scope<'_>
    ensures { scope_view result ≡ scope_in (found_view found.entry) }
{
    match found {
        Found::Entry(entry) => inside(entry),
        Found::Hole => Scope::Unknown,
        Found::Nothing => Scope::Absent,
    }
}

fn inside(entry: &Entry) -> Scope<'_>
    ensures { scope_view result ≡ inside entry.now }
{
    match &entry.what {
        What::Module(sig) => match &**sig {
            Sig::Structure(components) => Scope::Inside(of_components(&components.entries)),
            Sig::Functor(_, _) => Scope::Inside(nothing()),
            Sig::Hole => Scope::Unknown,
        },
        What::Scheme(_) => Scope::Absent,
        What::Constructor(_, _) => Scope::Absent,
        What::Exception(_) => Scope::Absent,
        What::Label(_, _) => Scope::Absent,
        What::Type(_) => Scope::Absent,
        What::ModuleType(_) => Scope::Absent,
    }
}
