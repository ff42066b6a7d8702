//! The paths by which types are named.
ghost use Rattle.std.specs.Str.{bytes_eq};
ghost use Rattle.signature_model.specs.Declarations.{Name};
ghost use Rattle.std.specs.Prelude.{if◌then◌else◌, true, false, ◌≡◌, ◌∷◌, ◌++◌, [], Some, None, IfSome, IfNone, IfOk, OnOk, option_map};
ghost use Rattle.text_terms.specs.Bytes.{str_bytes};
ghost use Rattle.type_terms.specs.Views.{path_of};
ghost use Rattle.type_model.specs.Types.{Path};
ghost use Rattle.type_print_model.specs.Paths.{IsNameOf};
ghost use Rattle.env_table.specs.Views.{names_of, inside};
ghost use Rattle.type_print.specs.Ways.{way_view};
ghost use Rattle.type_print.specs.Paths.{is_module, contents, modules_behind, way_among, way_text, name_in, named, naming};
ghost use Rattle.type_print.specs.Scopes.{in_scope, scope_of, scopes_of, reached_view, has, Looks};

use crate::cut::push;
use crate::scopes::{Scope, entries, name_for};
use crate::ways::{Way, into_module, text_of_way};
use env_table::{Entries, Entry, Env, Kind, What};
use std::alloc::{AllocError, Global};
use std::collections::{HashSet, VecDeque};
use text_terms::RcStr;
use type_nodes::{NoMemory, Origin};

/// A module that is still to be searched.
#[derive(Drop)]
struct Inside<'a> {
    way: Way,
    names: Scope<'a>,
}

/// A type that was found: the modules that it stands in, and its name there.
#[derive(Drop)]
struct Reached {
    way: Way,
    name: RcStr,
}

/// The name of an origin: the shortest path that finds a declaration that makes it, of these the newest from the outermost
/// module inward, and of the names in the innermost one the newest; where no path does, the name that its declaration has and
/// `/hidden`.
pub fn name_of(alloc: Global, origin: &Origin, env: &Env) -> Result<RcStr, NoMemory>
    ensures search { IfOk result (λ r. str_bytes r ≡ name_in env.now (path_of origin.now) (str_bytes origin.now.name)) }
    ensures named { IfOk result (λ r. (declared : Path → Name) → declared (path_of origin.now) ≡ str_bytes origin.now.name → IsNameOf naming env.now declared (path_of origin.now) (str_bytes r)) }
{
    let name = searched_name(alloc, origin, env)?;
    Ok(name)
}

fn searched_name(alloc: Global, origin: &Origin, env: &Env) -> Result<RcStr, NoMemory>
    ensures { IfOk result (λ r. str_bytes r ≡ name_in env.now (path_of origin.now) (str_bytes origin.now.name)) }
{
    let mut left = VecDeque::new(alloc);
    add_inside(&mut left, None, Scope::All(env))?;
    match search(alloc, origin, &mut left)? {
        Some(reached) => dotted(alloc, &reached),
        None => hidden(alloc, origin.name.as_str()),
    }
}

/// How many modules a search looks into at most. Modules that stand for others may lead to one module in very many ways: thirty of
/// them, each with two names for the one before it, in a thousand million.
const MOST_MODULES: u32 = 262_144;

/// How an origin is found in the first of the modules that are left, or of those in them, in which it has a name. Where it isn't in the
/// first `MOST_MODULES` of them and more are left, memory is taken to be short.
#[tactic(auto, using(crate::proofs::Searching::way_step, crate::proofs::Searching::way_none))]
fn search<'a>(
    alloc: Global,
    origin: &Origin,
    left: &mut VecDeque<Inside<'a>>,
) -> Result<Option<Reached>, NoMemory>
    ensures { IfOk result (λ r. option_map reached_view r ≡ way_among (path_of origin.now) (scopes_of left.old.items)) }
{
    for _ in 0..MOST_MODULES {
        let Some(inside) = take_first(left) else {
            return Ok(None);
        };
        if let Some(reached) = look(alloc, origin, left, inside)? {
            return Ok(Some(reached));
        }
    }
    Err(AllocError)
}

/// How an origin is found in a module; where it has no name in it, the modules in it come last.
fn look<'a>(
    alloc: Global,
    origin: &Origin,
    left: &mut VecDeque<Inside<'a>>,
    inside: Inside<'a>,
) -> Result<Option<Reached>, NoMemory>
    ensures { IfOk result (λ r. Looks (path_of origin.now) (scope_of inside.entry) (scopes_of left.old.items) (scopes_of left.new.items) (option_map reached_view r)) }
{
    let Inside { way, names } = inside;
    if let Some(name) = name_for(names, origin) {
        let name = name.share()?;
        return Ok(Some(Reached { way, name }));
    }
    add_modules(alloc, left, &way, entries(names))?;
    Ok(None)
}

fn take_first<'a>(left: &mut VecDeque<Inside<'a>>) -> Option<Inside<'a>>
    ensures some { IfSome result (λ m. scopes_of left.old.items ≡ scope_of m ∷ scopes_of left.new.items) }
    ensures none { IfNone result (scopes_of left.old.items ≡ []) }
{
    left.pop_front()
}

/// The modules among entries that a newer one doesn't hide, the newest first.
fn add_modules<'a>(
    alloc: Global,
    left: &mut VecDeque<Inside<'a>>,
    way: &Way,
    entries: Entries<'a>,
) -> Result<(), NoMemory>
    ensures { OnOk result (scopes_of left.new.items ≡ scopes_of left.old.items ++ modules_behind (way_view way.now) [] (names_of entries.entry)) }
{
    let mut names = HashSet::new(alloc);
    let mut rest = entries;
    while let Some((entry, older)) = rest.split_first() {
        if is_module(entry) && is_new(&mut names, entry.name.as_str())? {
            add_module(alloc, left, way, entry)?;
        }
        rest = older;
    }
    Ok(())
}

fn is_module(entry: &Entry) -> bool
    ensures { result ≡ is_module entry.now }
{
    match entry.kind {
        Kind::Module => true,
        Kind::Value => false,
        Kind::Constructor => false,
        Kind::Label => false,
        Kind::TypeName => false,
        Kind::ModuleType => false,
    }
}

/// Whether a name wasn't there; it is after this.
fn is_new<'a>(names: &mut HashSet<&'a str>, name: &'a str) -> Result<bool, NoMemory>
    ensures new { IfOk result (λ new. new ≡ (if has names.old name.now then false else true)) }
    ensures added { OnOk result ((q : Name) → has names.new q ≡ (if bytes_eq name.now q then true else has names.old q)) }
{
    if names.contains(name) {
        return Ok(false);
    }
    match names.insert(name) {
        Ok(_) => Ok(true),
        Err(_) => Err(AllocError),
    }
}

fn add_module<'a>(
    alloc: Global,
    left: &mut VecDeque<Inside<'a>>,
    way: &Way,
    entry: &'a Entry,
) -> Result<(), NoMemory>
    ensures { OnOk result (scopes_of left.new.items ≡ scopes_of left.old.items ++ (str_bytes entry.now.name ∷ way_view way.now, contents entry.now) ∷ []) }
{
    let way = into_module(alloc, &entry.name, way)?;
    add_inside(left, way, Scope::Module(contents(entry)))
}

fn add_inside<'a>(
    left: &mut VecDeque<Inside<'a>>,
    way: Way,
    names: Scope<'a>,
) -> Result<(), NoMemory>
    ensures { OnOk result (scopes_of left.new.items ≡ scopes_of left.old.items ++ (way_view way, in_scope names.entry) ∷ []) }
{
    match left.push_back(Inside { way, names }) {
        Ok(()) => Ok(()),
        Err(_) => Err(AllocError),
    }
}

/// What stands in an entry, where that is known.
fn contents(entry: &Entry) -> Entries<'_>
    ensures { names_of result ≡ contents entry.now }
{
    match &entry.what {
        What::Module(sig) => sig.entries(),
        What::Scheme(_) => Entries::none(),
        What::Constructor(_, _) => Entries::none(),
        What::Exception(_) => Entries::none(),
        What::Label(_, _) => Entries::none(),
        What::Type(_) => Entries::none(),
        What::ModuleType(_) => Entries::none(),
    }
}

fn dotted(alloc: Global, reached: &Reached) -> Result<RcStr, NoMemory>
    ensures { IfOk result (λ r. str_bytes r ≡ way_text (way_view reached.now.way) ++ str_bytes reached.now.name) }
{
    let mut text = text_of_way(alloc, &reached.way)?;
    push(&mut text, reached.name.as_str())?;
    RcStr::new(alloc, text)
}

fn hidden(alloc: Global, name: &str) -> Result<RcStr, NoMemory>
    ensures { IfOk result (λ r. str_bytes r ≡ named name.now None) }
{
    let mut text = String::new(alloc);
    push(&mut text, name)?;
    push(&mut text, "/hidden")?;
    RcStr::new(alloc, text)
}
