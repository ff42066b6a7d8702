//! The store.
ghost use Rattle.std.specs.Prelude.{◌≡◌, ◌≤◌, ◌<◌, [], length, slice_get, All, IfOk, OnOk, OnErr};
ghost use Rattle.type_nodes.specs.Nodes.{Node, IsNode, IsSound, IsPlain, IsPlainNode, Apart, parts};
ghost use Rattle.type_nodes.specs.Links.{root, reading, IsNoLink, IsVariable, ReadsAsComposite};
ghost use Rattle.type_nodes.specs.Readings.{ReadAlike, SameReadings};
ghost use Rattle.type_nodes.specs.States.{state, Restored, Keeps};
ghost use Rattle.type_nodes.specs.Views.{node_of, nodes_of, Shows};
ghost use Rattle.type_nodes.specs.Changes.{Makes, Redirects, Relevels};

use crate::cells::{Cell, Cells, Write, make, replace, root_of};
use crate::view::View;
use std::alloc::Global;
use std::marker::Model;
use type_terms::{NoMemory, NodeRef};
use undo_trail::{Mark, Trail};

/// Type nodes, and what undoes each change of them.
#[derive(Drop)]
pub struct Store {
    pub(crate) alloc: Global,
    pub(crate) cells: Cells,
    pub(crate) trail: Trail<Write>,
}

impl Model for Store {
    ghost use Rattle.type_nodes.specs.States.{State, IsStore};

    ghost Value = { State };

    ghost use Rattle.type_nodes.specs.Views.{state_of};

    ghost view = { λ s. state_of s.cells s.trail };

    ghost invariant = { λ s. IsStore (state_of s.cells s.trail) };
}

impl Store {
    pub fn new(alloc: Global) -> Store
        ensures { result ≡ state [] [] }
    {
        Store {
            alloc,
            cells: Cells {
                list: Vec::new(alloc),
            },
            trail: Trail::new(alloc),
        }
    }

    /// A mark of the present state.
    pub fn snapshot(&self) -> Mark
        ensures { result.0 ≡ length self.now.trail }
    {
        self.trail.mark()
    }

    /// Brings back the state at the mark: the nodes from then with their levels and scopes, and no other.
    pub fn rollback(&mut self, mark: Mark)
        requires { mark.0 ≤ length self.old.trail }
        ensures { Restored self.old self.new mark.0 }
    {
        self.trail.undo_to(mark, &mut self.cells);
    }
}

impl Store {
    // One node more.
    pub(crate) fn add(&mut self, cell: Cell) -> Result<NodeRef, NoMemory>
        requires parts { All (IsNode self.old.nodes) (parts (node_of cell)) }
        requires no_link { IsNoLink (node_of cell) }
        requires plain { IsPlainNode (node_of cell) }
        ensures made { IfOk result (λ n. Makes self.old self.new n.0 (node_of cell)) }
        ensures failed { OnErr result (self.new ≡ self.old) }
        ensures keeps { Keeps self.old self.new }
    {
        make(&mut self.cells, &mut self.trail, cell)
    }

    // Another level and scope for a variable.
    pub(crate) fn relevel(&mut self, var: NodeRef, level: u32, scope: u64) -> Result<(), NoMemory>
        requires inside { IsNode self.old.nodes var.0 }
        requires var { IsVariable self.old.nodes var.0 }
        ensures done { OnOk result (Relevels self.old self.new var.0 level scope) }
        ensures failed { OnErr result (self.new ≡ self.old) }
        ensures keeps { Keeps self.old self.new }
    {
        let var = root_of(&self.cells, var);
        replace(
            &mut self.cells,
            &mut self.trail,
            var,
            Cell::Var { level, scope },
        )
    }

    // Links root to root, so a way to a root grows only by links of that root itself.
    pub(crate) fn redirect(&mut self, from: NodeRef, to: NodeRef) -> Result<(), NoMemory>
        requires from { IsNode self.old.nodes from.0 }
        requires to { IsNode self.old.nodes to.0 }
        requires apart { Apart self.old.nodes (root self.old.nodes from.0) to.0 }
        ensures done { OnOk result (Redirects self.old self.new from.0 to.0) }
        ensures readings { OnOk result (ReadsAsComposite self.old.nodes from.0 → ReadAlike self.old.nodes from.0 to.0 → SameReadings self.old.nodes self.new.nodes) }
        ensures failed { OnErr result (self.new ≡ self.old) }
        ensures keeps { Keeps self.old self.new }
    {
        let from = root_of(&self.cells, from);
        let to = root_of(&self.cells, to);
        replace(&mut self.cells, &mut self.trail, from, Cell::Link(to))
    }

    /// How many nodes there are. Their numbers are those below.
    pub fn len(&self) -> usize
        ensures count { result ≡ length self.now.nodes }
        ensures sound { IsSound self.now.nodes }
        ensures plain { IsPlain self.now.nodes }
    {
        self.cells.list.len()
    }

    /// The node at the end of the links from `n`. Nodes that are linked to one variable have one root.
    pub fn root(&self, n: NodeRef) -> NodeRef
        requires { IsNode self.now.nodes n.0 }
        ensures root { result.0 ≡ root self.now.nodes n.0 }
        ensures sound { IsSound self.now.nodes }
    {
        root_of(&self.cells, n)
    }

    /// What the node reads as, behind all links.
    pub fn read(&self, n: NodeRef) -> View<'_>
        requires { IsNode self.now.nodes n.0 }
        ensures { Shows result (root self.now.nodes n.0) (reading self.now.nodes n.0) }
    {
        view_of(&self.cells, root_of(&self.cells, n))
    }
}

fn view_of(cells: &Cells, n: NodeRef) -> View<'_>
    requires inside { n.0 < length (nodes_of cells.now) }
    requires end { (c : Node) → slice_get (nodes_of cells.now) n.0 ≡ Some c → IsNoLink c }
    ensures { Shows result n.0 (slice_get (nodes_of cells.now) n.0) }
{
    match &cells.list[n.0 as usize] {
        Cell::Var { level, scope } => View::Var {
            level: *level,
            scope: *scope,
        },
        Cell::Rigid => View::Rigid(n.0),
        Cell::Arrow(from, to) => View::Arrow(*from, *to),
        Cell::Tuple(parts) => View::Tuple(parts),
        Cell::Con(origin, args) => View::Con(origin, args),
        Cell::Link(_) => unreachable!(),
    }
}
