//! New nodes.
ghost use Rattle.std.specs.Prelude.{◌≡◌, ◌<◌, true, IfOk, OnErr, All};
ghost use Rattle.text_terms.specs.Bytes.{str_bytes};
ghost use Rattle.type_nodes.specs.Nodes.{Node as plain, IsNode, IsPlainPath, bound_level};
ghost use Rattle.type_nodes.specs.States.{Keeps};
ghost use Rattle.type_nodes.specs.Changes.{Makes};
ghost use Rattle.type_nodes.specs.Views.{numbers};

use crate::cells::Cell;
use crate::store::Store;
use std::alloc::Global;
use type_terms::{NoMemory, NodeRef, Origin};

fn copied(alloc: Global, nodes: &[NodeRef]) -> Result<Vec<NodeRef>, NoMemory>
    ensures { IfOk result (λ v. v.items ≡ nodes.now) }
{
    nodes.iter().copied().collect(alloc)
}

// The number that an origin's path begins with is below those that model rigid variables and unknown types.
fn is_plain(origin: &Origin) -> bool
    ensures yes { result ≡ true }
    ensures plain { IsPlainPath origin.now.path.items }
{
    match origin.path.first() {
        Some(first) => *first <= u64::MAX,
        None => true,
    }
}

// After `NoMemory` the store is as before.
impl Store {
    /// A new variable that isn't bound.
    pub fn var(&mut self, level: u32, scope: u64) -> Result<NodeRef, NoMemory>
        requires { level < bound_level }
        ensures made { IfOk result (λ n. Makes self.old self.new n.0 (plain.Var level scope)) }
        ensures failed { OnErr result (self.new ≡ self.old) }
        ensures keeps { Keeps self.old self.new }
    {
        self.add(Cell::Var { level, scope })
    }

    /// A new rigid variable. Its number is the node's, so no other live node has it.
    pub fn rigid(&mut self) -> Result<NodeRef, NoMemory>
        ensures made { IfOk result (λ n. Makes self.old self.new n.0 plain.Rigid) }
        ensures failed { OnErr result (self.new ≡ self.old) }
        ensures keeps { Keeps self.old self.new }
    {
        self.add(Cell::Rigid)
    }

    pub fn arrow(&mut self, from: NodeRef, to: NodeRef) -> Result<NodeRef, NoMemory>
        requires from { IsNode self.old.nodes from.0 }
        requires to { IsNode self.old.nodes to.0 }
        ensures made { IfOk result (λ n. Makes self.old self.new n.0 (plain.Arrow from.0 to.0)) }
        ensures failed { OnErr result (self.new ≡ self.old) }
        ensures keeps { Keeps self.old self.new }
    {
        self.add(Cell::Arrow(from, to))
    }

    pub fn tuple(&mut self, parts: &[NodeRef]) -> Result<NodeRef, NoMemory>
        requires { All (IsNode self.old.nodes) (numbers parts.now) }
        ensures made { IfOk result (λ n. Makes self.old self.new n.0 (plain.Tuple (numbers parts.now))) }
        ensures failed { OnErr result (self.new ≡ self.old) }
        ensures keeps { Keeps self.old self.new }
    {
        let parts = copied(self.alloc, parts)?;
        self.add(Cell::Tuple(parts))
    }

    /// A constructor with its arguments. The origin's path is copied, its name is shared.
    pub fn con(&mut self, origin: &Origin, args: &[NodeRef]) -> Result<NodeRef, NoMemory>
        requires { All (IsNode self.old.nodes) (numbers args.now) }
        ensures made { IfOk result (λ n. Makes self.old self.new n.0 (plain.Con origin.now.path.items (str_bytes origin.now.name) (numbers args.now))) }
        ensures failed { OnErr result (self.new ≡ self.old) }
        ensures keeps { Keeps self.old self.new }
    {
        let origin = origin.copied(self.alloc)?;
        let args = copied(self.alloc, args)?;
        prove!(is_plain(&origin));
        self.add(Cell::Con(origin, args))
    }
}
