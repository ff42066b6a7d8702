//! Names as they are told.
ghost use Rattle.std.specs.Prelude.{◌≡◌, option_map, IfOk};
ghost use Rattle.name_queries.specs.Completions.{constructor_type, label_type, type_of, IsTold};

use crate::newest_names::{CompletionKind, kind_of};
use env_table::{Declaration, Entry, Env, NodeRef, Shape, What};
use query_engine::{Asked, type_text};
use std::alloc::Global;
use syntax_tree::{NoMemory, RcStr};

/// A name that a prefix may become.
#[derive(Drop)]
pub struct Completion {
    /// Its type; of a constructor from its argument, of a label from its record. Empty where it has none.
    pub desc: RcStr,
    pub kind: CompletionKind,
    pub name: RcStr,
}

/// The node of the type that is told of an entry. None where it has none.
fn root_of(entry: &Entry) -> Option<NodeRef>
    ensures { option_map (λ n. n.0) result ≡ type_of entry.now.what }
{
    match &entry.what {
        What::Scheme(root) => Some(*root),
        What::Constructor(declaration, at) => constructor_root(declaration, *at),
        What::Exception(constructor) => Some(constructor.root),
        What::Label(declaration, at) => label_root(declaration, *at),
        What::Type(_) => None,
        What::Module(_) => None,
        What::ModuleType(_) => None,
    }
}

fn constructor_root(declaration: &Declaration, at: u32) -> Option<NodeRef>
    ensures { option_map (λ n. n.0) result ≡ constructor_type declaration.now.shape at }
{
    match &declaration.shape {
        Shape::Variant(constructors) => match constructors.get(at as usize) {
            Some(constructor) => Some(constructor.root),
            None => None,
        },
        _ => None,
    }
}

fn label_root(declaration: &Declaration, at: u32) -> Option<NodeRef>
    ensures { option_map (λ n. n.0) result ≡ label_type declaration.now.shape at }
{
    match &declaration.shape {
        Shape::Labels(labels) => match labels.get(at as usize) {
            Some(label) => Some(label.root),
            None => None,
        },
        _ => None,
    }
}

/// An entry as it is told, with the names in scope by which its type is printed.
pub(crate) fn completion_of(
    alloc: Global,
    asked: &Asked<'_>,
    env: &Env,
    entry: &Entry,
) -> Result<Completion, NoMemory>
    ensures { IfOk result (IsTold asked.now env.now entry.now) }
{
    let desc = match root_of(entry) {
        Some(root) => type_text(alloc, asked, root, env)?,
        None => RcStr::from_str(alloc, "")?,
    };
    Ok(Completion {
        desc,
        kind: kind_of(entry.kind),
        name: entry.name.share()?,
    })
}
