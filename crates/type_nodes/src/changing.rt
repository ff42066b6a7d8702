//! Changes of nodes. Each is one write.
ghost use Rattle.std.specs.Prelude.{◌≡◌, ◌<◌, OnOk, OnErr};
ghost use Rattle.type_nodes.specs.Nodes.{IsNode, Apart, bound_level};
ghost use Rattle.type_nodes.specs.Links.{root, IsFree, ReadsAsComposite};
ghost use Rattle.type_nodes.specs.Readings.{ReadAlike, SameReadings};
ghost use Rattle.type_nodes.specs.States.{Keeps};
ghost use Rattle.type_nodes.specs.Changes.{Redirects, Relevels, Quantifies};

use crate::cells::{BOUND, root_of, scope_of};
use crate::store::Store;
use type_terms::{NoMemory, NodeRef};

// After `NoMemory` the store is as before.
impl Store {
    /// From now on the variable reads as `to`.
    pub fn bind(&mut self, var: NodeRef, to: NodeRef) -> Result<(), NoMemory>
        requires var { IsFree self.old.nodes var.0 }
        requires to { IsNode self.old.nodes to.0 }
        requires apart { Apart self.old.nodes (root self.old.nodes var.0) to.0 }
        ensures done { OnOk result (Redirects self.old self.new var.0 to.0) }
        ensures failed { OnErr result (self.new ≡ self.old) }
        ensures keeps { Keeps self.old self.new }
    {
        self.redirect(var, to)
    }

    /// From now on `from` reads as `to`. Where every reading gave both one type, the readings stay.
    pub fn link(&mut self, from: NodeRef, to: NodeRef) -> Result<(), NoMemory>
        requires from { ReadsAsComposite self.old.nodes from.0 }
        requires to { ReadsAsComposite self.old.nodes to.0 }
        requires apart { Apart self.old.nodes (root self.old.nodes from.0) to.0 }
        ensures done { OnOk result (Redirects self.old self.new from.0 to.0) }
        ensures readings { OnOk result (ReadAlike self.old.nodes from.0 to.0 → SameReadings self.old.nodes self.new.nodes) }
        ensures failed { OnErr result (self.new ≡ self.old) }
        ensures keeps { Keeps self.old self.new }
    {
        self.redirect(from, to)
    }

    /// Gives the variable another level and another scope.
    pub fn lower(&mut self, var: NodeRef, level: u32, scope: u64) -> Result<(), NoMemory>
        requires var { IsFree self.old.nodes var.0 }
        requires level { level < bound_level }
        ensures done { OnOk result (Relevels self.old self.new var.0 level scope) }
        ensures failed { OnErr result (self.new ≡ self.old) }
        ensures keeps { Keeps self.old self.new }
    {
        self.relevel(var, level, scope)
    }

    /// Binds the variable. It keeps its scope.
    pub fn quantify(&mut self, var: NodeRef) -> Result<(), NoMemory>
        requires { IsFree self.old.nodes var.0 }
        ensures done { OnOk result (Quantifies self.old self.new var.0) }
        ensures failed { OnErr result (self.new ≡ self.old) }
        ensures keeps { Keeps self.old self.new }
    {
        let scope = scope_of(&self.cells, root_of(&self.cells, var));
        self.relevel(var, BOUND, scope)
    }
}
