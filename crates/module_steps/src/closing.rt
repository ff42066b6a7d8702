//! Whether the body of a functor leaves a type open.
ghost use Rattle.std.specs.Prelude.{◌≡◌, ◌++◌, OnOk};
ghost use Rattle.std.specs.List.{filter};
ghost use Rattle.type_nodes.specs.Views.{numbers};
ghost use Rattle.env_table.specs.Views.{names_of};
ghost use Rattle.typing_state.specs.Goes.{Goes, OnlyStore};
ghost use Rattle.module_steps.specs.Closing.{is_open, HasOpen, HasOpenEntry, HasOpenAmong, HasOpenValue, Finds, ToldOpen, Closes};

use env_table::{Entries, Entry, FaultKind, Sig, What};
use level_unify::reached;
use owned_lists::push;
use syntax_tree::Span;
use text_terms::RcStr;
use type_nodes::View;
use typing_state::{Depth, NoMemory, NodeRef, Parts};

/// The level that is kept for bound variables.
const BOUND: u32 = 4_294_967_295;

/// Whether a node is a variable that isn't bound, and that wasn't bound by an item in front of the node of this number: its scope
/// is that node or behind it.
fn is_open(at: &Parts, n: NodeRef, scope: u64) -> bool
    ensures { result ≡ is_open at.now.store.nodes scope n.0 }
{
    match at.read(n) {
        Some(View::Var { level, scope: own }) => level != BOUND && scope <= own,
        _ => false,
    }
}

/// Adds the variables among nodes that are open.
fn add_open(
    at: &Parts,
    nodes: &[NodeRef],
    scope: u64,
    free: &mut Vec<NodeRef>,
) -> Result<(), NoMemory>
    ensures { OnOk result (numbers free.new.items ≡ numbers free.old.items ++ filter (is_open at.now.store.nodes scope) (numbers nodes.now)) }
{
    for n in nodes {
        if is_open(at, *n, scope) {
            push(free, *n)?;
        }
    }
    Ok(())
}

/// Adds the variables that are open and stand in a type.
fn add_in_type(
    at: &Parts,
    root: NodeRef,
    scope: u64,
    free: &mut Vec<NodeRef>,
) -> Result<(), NoMemory>
    ensures { OnOk result (Finds (HasOpen at.now.store.nodes scope root) free.old.items free.new.items) }
{
    if at.read(root).is_none() {
        return Ok(());
    }
    let found = reached(at.alloc(), &at.store, root)?;
    add_open(at, &found, scope, free)
}

#[cycle(closing)]
fn add_in_entry(
    at: &Parts,
    entry: &Entry,
    scope: u64,
    depth: Depth,
    free: &mut Vec<NodeRef>,
) -> Result<(), NoMemory>
    ensures { OnOk result (Finds (HasOpenEntry at.now.store.nodes scope entry.now) free.old.items free.new.items) }
{
    match &entry.what {
        What::Scheme(root) => add_in_type(at, *root, scope, free),
        What::Module(sig) => add_in_sig(at, sig, scope, depth.inside()?, free),
        What::Constructor(_, _) => Ok(()),
        What::Exception(_) => Ok(()),
        What::Label(_, _) => Ok(()),
        What::Type(_) => Ok(()),
        What::ModuleType(_) => Ok(()),
    }
}

/// Adds the variables that are open and stand in the types of a signature's values.
#[cycle(closing)]
fn add_in_sig(
    at: &Parts,
    sig: &Sig,
    scope: u64,
    depth: Depth,
    free: &mut Vec<NodeRef>,
) -> Result<(), NoMemory>
    ensures { OnOk result (Finds (HasOpenValue at.now.store.nodes scope sig.now) free.old.items free.new.items) }
{
    match sig {
        Sig::Structure(_) => add_in_entries(at, sig.entries(), scope, depth.inside()?, free),
        Sig::Functor(parameter, body) => {
            add_in_sig(at, &parameter.sig, scope, depth.inside()?, free)?;
            add_in_sig(at, &body.sig, scope, depth.inside()?, free)
        }
        Sig::Hole => Ok(()),
    }
}

#[cycle(closing)]
fn add_in_entries(
    at: &Parts,
    entries: Entries<'_>,
    scope: u64,
    depth: Depth,
    free: &mut Vec<NodeRef>,
) -> Result<(), NoMemory>
    ensures { OnOk result (Finds (HasOpenAmong at.now.store.nodes scope (names_of entries.entry)) free.old.items free.new.items) }
{
    let mut rest = entries;
    while let Some((entry, older)) = rest.split_first() {
        add_in_entry(at, entry, scope, depth.inside()?, free)?;
        rest = older;
    }
    Ok(())
}

/// Reports that variables are open, where any are. They are bound then.
fn tell_open(at: &mut Parts, span: Span, free: &[NodeRef]) -> Result<(), NoMemory>
    ensures told { OnOk result (ToldOpen free.now at.old at.new span) }
    ensures goes { Goes at.old at.new }
{
    if free.is_empty() {
        return Ok(());
    }
    let text = RcStr::from_str(at.alloc(), "This body leaves a type undetermined")?;
    at.report(span, FaultKind::Closing, text)?;
    quantify_all(at, free)
}

fn quantify_all(at: &mut Parts, nodes: &[NodeRef]) -> Result<(), NoMemory>
    ensures rest { OnlyStore at.old at.new }
    ensures goes { Goes at.old at.new }
{
    for n in nodes {
        at.quantify(*n)?;
    }
    Ok(())
}

/// The demand that a body leaves no type open: no variable is free in its values that isn't free in what stands in front of the
/// node of this number. Where it isn't kept, what is open is generalised.
pub fn ask_closed(at: &mut Parts, span: Span, body: &Sig, scope: u64) -> Result<(), NoMemory>
    ensures closes { OnOk result (Closes body.now at.old at.new span scope) }
    ensures goes { Goes at.old at.new }
{
    let mut free = Vec::new(at.alloc());
    add_in_sig(at, body, scope, Depth::WHOLE, &mut free)?;
    tell_open(at, span, &free)
}
