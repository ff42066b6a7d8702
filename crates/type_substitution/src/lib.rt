//! A type with types in the place of some of its bound variables, over the store of type nodes.
//! It stands on the walk of `level_unify`, which lists the roots that stand in a node, each behind its parts.
//! Above, `substituted` is seen by `IsSubstituted`: at each reading the new node's type is the old one's with the types in place of the
//! variables. No node of before changes.
#![tactic(auto)]

ghost use Rattle.std.specs.Prelude.{All, IfOk};
ghost use Rattle.type_nodes.specs.Nodes.{IsNode};
ghost use Rattle.type_nodes.specs.States.{Keeps};
ghost use Rattle.type_nodes.specs.Views.{numbers};
ghost use Rattle.level_unify.specs.Copies.{Extends};
ghost use Rattle.type_substitution.specs.Substituting.{IsSubstituted};

mod copies;
mod shapes;

use copies::copy_all;
use level_unify::reached;
use shapes::image_of;
use std::alloc::Global;
use type_nodes::{NoMemory, NodeRef, Store};

/// A type with types in the place of some of its bound variables. Of a variable that is given twice the first type counts; one without a
/// type becomes the empty tuple. What nothing changes in is shared. No node of before changes, also after `NoMemory`.
pub fn substituted(
    alloc: Global,
    store: &mut Store,
    variables: &[NodeRef],
    types: &[NodeRef],
    n: NodeRef,
) -> Result<NodeRef, NoMemory>
    requires node { IsNode store.old.nodes n.0 }
    requires variables { All (IsNode store.old.nodes) (numbers variables.now) }
    requires types { All (IsNode store.old.nodes) (numbers types.now) }
    ensures substituted { IfOk result (λ m. IsSubstituted store.old.nodes store.new.nodes (numbers variables.now) (numbers types.now) n.0 m.0) }
    ensures extends { Extends store.old.nodes store.new.nodes }
    ensures keeps { Keeps store.old store.new }
{
    let found = reached(alloc, store, n)?;
    let copies = copy_all(alloc, store, &found, variables, types, n)?;
    Ok(image_of(store, &copies, n))
}
