//! The types round an offset.
ghost use Rattle.std.specs.Prelude.{◌≡◌, ◌<◌, ◌++◌, ◌∷◌, [], length, map, nat_lt, reverse, All, IfErr, IfOk, OnOk};
ghost use Rattle.std.specs.List.{list_all, AllZip};
ghost use Rattle.text_terms.specs.Bytes.{str_bytes};
ghost use Rattle.query_model.specs.TypedNodes.{typed_at};
ghost use Rattle.syntax_tree.specs.View.{id_of, trees_of};
ghost use Rattle.type_nodes.specs.Nodes.{IsNode};
ghost use Rattle.type_nodes.specs.Views.{numbers};
ghost use Rattle.query_engine.specs.Texts.{weak_nodes, IsShown, IsTextOf, IsTypeText};
ghost use Rattle.query_engine.specs.Typed.{IsNoNode, node_of, span_of};

use crate::asked::{Asked, QueryFault};
use crate::typed_nodes::{TypedNode, typed_around};
use env_table::{Env, NodeRef};
use std::alloc::{AllocError, Global};
use syntax_tree::{NoMemory, NodeId, RcStr, Span};
use type_nodes::Store;
use type_print::print_type;

/// A typed node, with its type as it is printed.
#[derive(Drop)]
pub struct Typed {
    /// Where it stands, in bytes from 0.
    pub span: Span,
    pub ty: RcStr,
}

fn is_node(store: &Store, node: NodeRef) -> bool
    ensures { result ≡ nat_lt node.0 (length store.now.nodes) }
{
    node.0 < store.len() as u64
}

fn are_nodes(store: &Store, nodes: &[NodeRef]) -> bool
    ensures { result ≡ list_all (λ n. nat_lt n (length store.now.nodes)) (numbers nodes.now) }
{
    for node in nodes {
        if !is_node(store, *node) {
            return false;
        }
    }
    true
}

/// The weak variables, if they are all nodes of the store.
fn weak_in<'a>(asked: &Asked<'a>) -> &'a [NodeRef]
    ensures numbers { numbers result.now ≡ weak_nodes asked.now }
    ensures nodes { All (IsNode asked.now.store.now.nodes) (numbers result.now) }
{
    if are_nodes(asked.store, asked.weak) {
        asked.weak
    } else {
        &[]
    }
}

/// A type as it is printed with the names in scope; any type where it is none of the store.
pub fn type_text(
    alloc: Global,
    asked: &Asked<'_>,
    ty: NodeRef,
    env: &Env,
) -> Result<RcStr, NoMemory>
    ensures { IfOk result (λ r. IsTextOf asked.now env.now ty.0 (str_bytes r)) }
{
    if !is_node(asked.store, ty) {
        return RcStr::from_str(alloc, "'a");
    }
    print_type(alloc, asked.store, ty, env, weak_in(asked))
}

/// The type of a node as it is printed; any type where none is recorded.
fn type_at(alloc: Global, asked: &Asked<'_>, id: NodeId) -> Result<RcStr, NoMemory>
    ensures { IfOk result (λ r. IsTypeText asked.now (id_of id) (str_bytes r)) }
{
    let Some(seen) = asked.index.get(id) else {
        return RcStr::from_str(alloc, "'a");
    };
    match seen.ty {
        Some(ty) => type_text(alloc, asked, ty, &seen.env),
        None => RcStr::from_str(alloc, "'a"),
    }
}

fn typed_of(alloc: Global, asked: &Asked<'_>, node: &TypedNode) -> Result<Typed, NoMemory>
    ensures { IfOk result (IsShown asked.now (node_of node.now)) }
{
    Ok(Typed {
        span: node.span,
        ty: type_at(alloc, asked, node.id)?,
    })
}

fn push(types: &mut Vec<Typed>, one: Typed) -> Result<(), NoMemory>
    ensures { OnOk result (types.new.items ≡ types.old.items ++ one ∷ []) }
{
    types.push(one).map_err(|_| AllocError)
}

/// These nodes with their types, in their order.
fn with_types(alloc: Global, asked: &Asked<'_>, nodes: &[TypedNode]) -> Result<Vec<Typed>, NoMemory>
    ensures places { IfOk result (λ v. map span_of v.items ≡ map (λ n. n.span) (map node_of nodes.now)) }
    ensures shown { IfOk result (λ v. AllZip (IsShown asked.now) (map node_of nodes.now) v.items) }
{
    let mut types = Vec::new(alloc);
    for node in nodes {
        push(&mut types, typed_of(alloc, asked, node)?)?;
    }
    Ok(types)
}

/// The typed nodes that hold the offset, in bytes from 0, from the last in preorder to the first, with their types.
/// `NoNode` exactly where there is none.
pub fn enclosing_types(
    alloc: Global,
    asked: &Asked<'_>,
    offset: u32,
) -> Result<Vec<Typed>, QueryFault>
    ensures places { IfOk result (λ v. map span_of v.items ≡ map (λ n. n.span) (reverse (typed_at offset (trees_of asked.now.tree.now)))) }
    ensures shown { IfOk result (λ v. AllZip (IsShown asked.now) (reverse (typed_at offset (trees_of asked.now.tree.now))) v.items) }
    ensures some { IfOk result (λ v. 0 < length v.items) }
    ensures none { IfErr result (λ e. IsNoNode e (reverse (typed_at offset (trees_of asked.now.tree.now)))) }
{
    let Ok(nodes) = typed_around(alloc, asked.tree, offset) else {
        return Err(QueryFault::NoMemory);
    };
    if nodes.is_empty() {
        return Err(QueryFault::NoNode);
    }
    match with_types(alloc, asked, &nodes) {
        Ok(types) => Ok(types),
        Err(_) => Err(QueryFault::NoMemory),
    }
}
