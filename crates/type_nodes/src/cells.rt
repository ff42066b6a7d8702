//! The cells of a store, and the writes that its trail keeps.
ghost use Rattle.std.specs.Prelude.{◌≡◌, ◌<◌, length, IfOk, OnOk, OnErr, ℕ, slice_get};
ghost use Rattle.type_nodes.specs.Nodes.{Node as plain, IsSound};
ghost use Rattle.type_nodes.specs.Links.{root};
ghost use Rattle.type_nodes.specs.Changes.{Added, Replaced};
ghost use Rattle.type_nodes.specs.Views.{node_of, nodes_of, state_of};

use std::mem;
use type_terms::{NoMemory, NodeRef, Origin};
use undo_trail::{Trail, Undo};

/// What stands at a node. `Link` is another node's type; a rigid variable's number is the node's own.
#[derive(Drop)]
pub enum Cell {
    /// 'a
    Var { level: u32, scope: u64 },
    Rigid,
    Link(NodeRef),
    /// t -> u
    Arrow(NodeRef, NodeRef),
    /// t * u
    Tuple(Vec<NodeRef>),
    /// (t, u) c
    Con(Origin, Vec<NodeRef>),
}

/// What a change overwrote: nothing where it made the last node, else that node's cell, which was moved in here.
#[derive(Drop)]
pub enum Write {
    Made,
    Was(NodeRef, Cell),
}

/// One cell for each node.
#[derive(Drop)]
pub struct Cells {
    pub list: Vec<Cell>,
}

impl Undo for Cells {
    ghost use Rattle.std.specs.Prelude.{List};
    ghost use Rattle.type_nodes.specs.Nodes.{Node};
    ghost use Rattle.type_nodes.specs.States.{undone};
    ghost use Rattle.type_nodes.specs.Views.{nodes_of, change_of};

    type Write = Write;

    ghost Cells = { List Node };

    ghost cells = { nodes_of };

    ghost undone = { λ w. undone (change_of w) };

    fn undo(&mut self, w: Write) {
        match w {
            Write::Made => {
                self.list.pop();
            }
            Write::Was(n, cell) => {
                if (n.0 as usize) < self.list.len() {
                    self.list[n.0 as usize] = cell;
                }
            }
        }
    }
}

/// The level that is kept for bound variables.
pub const BOUND: u32 = 4_294_967_295;

/// Adds a cell behind the others. After `NoMemory` nothing has changed.
pub fn make(cells: &mut Cells, trail: &mut Trail<Write>, cell: Cell) -> Result<NodeRef, NoMemory>
    ensures made { IfOk result (λ n. Added (state_of cells.old trail.old) (state_of cells.new trail.new) n.0 (node_of cell)) }
    ensures failed { OnErr result (state_of cells.new trail.new ≡ state_of cells.old trail.old) }
{
    let number = cells.list.len() as u64;
    cells.list.reserve(1)?;
    trail.push(Write::Made)?;
    match cells.list.push(cell) {
        Ok(()) => Ok(NodeRef(number)),
        Err(_) => unreachable!(),
    }
}

/// Puts a cell in the place of another, which moves into the trail. After `NoMemory` nothing has changed.
pub fn replace(
    cells: &mut Cells,
    trail: &mut Trail<Write>,
    n: NodeRef,
    cell: Cell,
) -> Result<(), NoMemory>
    requires { n.0 < length (nodes_of cells.old) }
    ensures done { OnOk result (Replaced (state_of cells.old trail.old) (state_of cells.new trail.new) n.0 (node_of cell)) }
    ensures failed { OnErr result (state_of cells.new trail.new ≡ state_of cells.old trail.old) }
{
    trail.reserve()?;
    let before = mem::replace(&mut cells.list[n.0 as usize], cell);
    match trail.push(Write::Was(n, before)) {
        Ok(()) => Ok(()),
        Err(_) => unreachable!(),
    }
}

/// The node at the end of the links from `n`.
pub fn root_of(cells: &Cells, n: NodeRef) -> NodeRef
    requires inside { n.0 < length (nodes_of cells.now) }
    requires sound { IsSound (nodes_of cells.now) }
    ensures { result.0 ≡ root (nodes_of cells.now) n.0 }
{
    let mut at = n;
    for _turn in 0..cells.list.len() {
        match &cells.list[at.0 as usize] {
            Cell::Link(m) => at = *m,
            _ => return at,
        }
    }
    unreachable!()
}

/// The scope of a variable.
pub fn scope_of(cells: &Cells, var: NodeRef) -> u64
    requires { (level : ℕ) × (scope : ℕ) × (slice_get (nodes_of cells.now) var.0 ≡ Some (plain.Var level scope)) }
    ensures { (level : ℕ) × (slice_get (nodes_of cells.now) var.0 ≡ Some (plain.Var level result)) }
{
    match &cells.list[var.0 as usize] {
        Cell::Var { scope, .. } => *scope,
        _ => unreachable!(),
    }
}
