//! What stands in scope behind modules.
ghost use Rattle.std.specs.Prelude.{◌≡◌, map, option_map};
ghost use Rattle.text_terms.specs.Bytes.{str_bytes};
ghost use Rattle.env_table.specs.Views.{inside, names_of};
ghost use Rattle.name_queries.specs.Environments.{known_names, names_behind};

use env_table::{Entries, Entry, Env, Found, What};
use syntax_tree::RcStr;

/// What stands in a module: nothing in what isn't known. None where the entry is no module.
fn entries_in(entry: &Entry) -> Option<Entries<'_>>
    ensures { option_map names_of result ≡ known_names (inside entry.now) }
{
    match &entry.what {
        What::Module(sig) => Some(sig.entries()),
        What::Scheme(_) => None,
        What::Constructor(_, _) => None,
        What::Exception(_) => None,
        What::Label(_, _) => None,
        What::Type(_) => None,
        What::ModuleType(_) => None,
    }
}

/// What stands in scope behind modules, each in the one before: nothing in what isn't known. None where they lead to no module.
pub(crate) fn entries_behind<'a>(env: &'a Env, modules: &[RcStr]) -> Option<Entries<'a>>
    ensures { option_map names_of result ≡ names_behind env.now (map str_bytes modules.now) }
{
    if modules.is_empty() {
        return Some(env.entries());
    }
    match env.module_behind(modules) {
        Found::Entry(entry) => entries_in(entry),
        Found::Hole => Some(Entries::none()),
        Found::Nothing => None,
    }
}
