//! Copies of types with something else in place of bound variables, unknown types and origins.
ghost use Rattle.std.specs.Prelude.{◌≡◌, ◌∷◌, ◌++◌, [], ℕ, List, All, Some, false, map, IfOk, OnOk};
ghost use Rattle.text_terms.specs.Bytes.{str_bytes};
ghost use Rattle.type_nodes.specs.Nodes.{Node as plain, IsNode, IsSound, parts};
ghost use Rattle.type_nodes.specs.Links.{root as root_of, reading, IsComposite};
ghost use Rattle.type_nodes.specs.Views.{numbers};
ghost use Rattle.level_unify.specs.Copies.{Extends, table_of, image as image_in};
ghost use Rattle.type_substitution.specs.Substituting.{IsSubstituted};
ghost use Rattle.typing_state.specs.Goes.{Goes, Silent};
ghost use Rattle.type_reading.specs.declared.changes.Changes.{Changes as PlainChanges};
ghost use Rattle.type_reading.specs.Copying.{change_by, AreDeclared, IsDeclared, IsDeclaredOver, LeavesVariables, IsChanged, AreCopied, Stands, SetsCopy, KeepsCopies, seen_node};

use crate::changes::{Changes, Put};
use owned_lists::push;
use std::alloc::AllocError;
use std::collections::HashMap;
use type_nodes::{NoMemory, NodeRef, Origin, View};
use type_substitution::substituted;
use typing_state::{Parts, are_nodes, is_node};

/// The level that is kept for bound variables.
const BOUND: u32 = 4_294_967_295;

/// The scope that keeps out rigid variables alone.
const NO_RIGID: u64 = 18_446_744_073_709_551_614;

/// What stands in the place of a bound variable.
#[derive(Clone, Copy)]
pub enum ForBound {
    Itself,
    /// A new variable.
    Variable,
    /// A new rigid variable.
    Rigid,
}

/// What stands in the place of an unknown type, which is a bound variable of the scope 0.
#[derive(Clone, Copy)]
pub enum ForUnknown {
    Itself,
    /// Any type.
    Variable,
    /// Any type without a rigid variable in it.
    Closed,
    /// Another one, which is free as long as it isn't closed.
    Open,
}

/// How types are copied.
#[derive(Clone, Copy)]
pub struct Copying<'a> {
    pub bound: ForBound,
    pub unknown: ForUnknown,
    pub changes: &'a Changes,
}

/// What is still to be done with a node.
#[derive(Clone, Copy, Drop)]
enum Task {
    Enter(NodeRef),
    /// Its parts are copied.
    Leave(NodeRef),
}

/// Copies by their roots. It may serve for several types, which then share their copies.
#[derive(Drop)]
pub struct Copies {
    table: HashMap<u64, NodeRef>,
    todo: Vec<Task>,
    /// The unknown types that were made and aren't closed.
    pub opened: Vec<NodeRef>,
}

/// What a node is, apart from its store.
#[derive(Drop)]
enum Seen {
    Variable { level: u32, scope: u64 },
    Other,
    Arrow(NodeRef, NodeRef),
    Tuple(Vec<NodeRef>),
    Con(Origin, Vec<NodeRef>),
}

/// A copy of a list of nodes.
pub fn copied_list(at: &Parts, nodes: &[NodeRef]) -> Result<Vec<NodeRef>, NoMemory>
    ensures { IfOk result (λ v. v.items ≡ nodes.now) }
{
    match nodes.iter().copied().collect(at.alloc()) {
        Ok(list) => Ok(list),
        Err(_) => Err(AllocError),
    }
}

/// A copy of an origin.
pub fn copied_origin(at: &Parts, origin: &Origin) -> Result<Origin, NoMemory>
    ensures path { IfOk result (λ o. o.path.items ≡ origin.now.path.items) }
    ensures name { IfOk result (λ o. str_bytes o.name ≡ str_bytes origin.now.name) }
{
    origin.copied(at.alloc())
}

fn view_of(at: &Parts, n: NodeRef) -> Result<Seen, NoMemory>
    ensures seen { IfOk result (λ s. IsNode at.now.store.nodes n.0 → reading at.now.store.nodes n.0 ≡ Some (seen_node s)) }
    ensures sound { IsSound at.now.store.nodes }
{
    if at.store.len() <= n.0 as usize {
        return Ok(Seen::Other);
    }
    match at.store.read(n) {
        View::Var { level, scope } => Ok(Seen::Variable { level, scope }),
        View::Rigid(_) => Ok(Seen::Other),
        View::Arrow(from, to) => Ok(Seen::Arrow(from, to)),
        View::Tuple(parts) => Ok(Seen::Tuple(copied_list(at, parts)?)),
        View::Con(origin, args) => {
            let origin = copied_origin(at, origin)?;
            Ok(Seen::Con(origin, copied_list(at, args)?))
        }
    }
}

impl Copies {
    pub fn new(at: &Parts) -> Copies
        ensures { (changes : PlainChanges) → AreDeclared at.now.store.nodes changes.real.items → KeepsCopies at.now.store.nodes changes result }
    {
        Copies {
            table: HashMap::new(at.alloc()),
            todo: Vec::new(at.alloc()),
            opened: Vec::new(at.alloc()),
        }
    }

    /// Closes the unknown types that were made.
    pub fn close(&mut self, at: &mut Parts) -> Result<(), NoMemory>
        ensures silent { Silent at.old at.new }
        ensures goes { Goes at.old at.new }
    {
        for _ in 0..self.opened.len() {
            if let Some(n) = self.opened.pop() {
                at.quantify(n)?;
            }
        }
        Ok(())
    }

    /// The copy of a type. What nothing changes in is the type itself, and so is a number that is no node.
    /// Where bound variables and unknown types stay, its type is that of the node after the change at each reading at which the
    /// change leaves the variables that aren't bound as they are, and no other node changes.
    pub fn copy(
        &mut self,
        at: &mut Parts,
        n: NodeRef,
        how: Copying<'_>,
    ) -> Result<NodeRef, NoMemory>
        ensures otherwise { IfOk result (λ m. (IsNode at.old.store.nodes n.0 → ⊥) → m ≡ n) }
        ensures changed { IfOk result (λ m. LeavesVariables how.entry → KeepsCopies at.old.store.nodes how.entry.changes.now self.old → IsNode at.old.store.nodes n.0 → KeepsCopies at.new.store.nodes how.entry.changes.now self.new × IsChanged at.new.store.nodes (change_by how.entry.changes.now) n.0 m.0) }
        ensures extends { OnOk result (Extends at.old.store.nodes at.new.store.nodes) }
        ensures silent { Silent at.old at.new }
        ensures goes { Goes at.old at.new }
    {
        if !is_node(&at.store, n) {
            return Ok(n);
        }
        self.push(Task::Enter(n))?;
        self.work(at, how)?;
        Ok(self.image(at, n))
    }

    /// Does all that is still to be done.
    fn work(&mut self, at: &mut Parts, how: Copying<'_>) -> Result<(), NoMemory>
        ensures stands { OnOk result (LeavesVariables how.entry → (aim : ℕ) → Stands at.old.store.nodes how.entry.changes.now (table_of self.old.table) self.old.todo.items aim → Stands at.new.store.nodes how.entry.changes.now (table_of self.new.table) [] aim) }
        ensures done { OnOk result (self.new.todo.items ≡ []) }
        ensures extends { OnOk result (Extends at.old.store.nodes at.new.store.nodes) }
        ensures silent { Silent at.old at.new }
        ensures goes { Goes at.old at.new }
    {
        for _ in 0..u64::MAX {
            let Some(task) = self.todo.pop() else {
                return Ok(());
            };
            self.step(at, task, how)?;
        }
        Err(AllocError)
    }

    fn step(&mut self, at: &mut Parts, task: Task, how: Copying<'_>) -> Result<(), NoMemory>
        ensures stands { OnOk result (LeavesVariables how.entry → (aim : ℕ) → Stands at.old.store.nodes how.entry.changes.now (table_of self.old.table) (self.old.todo.items ++ task ∷ []) aim → Stands at.new.store.nodes how.entry.changes.now (table_of self.new.table) self.new.todo.items aim) }
        ensures extends { OnOk result (Extends at.old.store.nodes at.new.store.nodes) }
        ensures silent { Silent at.old at.new }
        ensures goes { Goes at.old at.new }
    {
        match task {
            Task::Enter(n) => self.enter(at, n, how),
            Task::Leave(n) => self.leave(at, n, how),
        }
    }

    fn push(&mut self, task: Task) -> Result<(), NoMemory>
        ensures pushed { OnOk result (self.new.todo.items ≡ self.old.todo.items ++ task ∷ []) }
        ensures rest { self.new.table ≡ self.old.table }
    {
        push(&mut self.todo, task)
    }

    fn image(&self, at: &Parts, n: NodeRef) -> NodeRef
        ensures { IsNode at.now.store.nodes n.0 → result.0 ≡ image_in at.now.store.nodes (table_of self.now.table) n.0 }
    {
        let root = at.root(n);
        match self.table.get(&root.0) {
            Some(copy) => *copy,
            None => root,
        }
    }

    fn set(&mut self, n: NodeRef, copy: NodeRef) -> Result<(), NoMemory>
        ensures set { OnOk result (SetsCopy (table_of self.old.table) (table_of self.new.table) n.0 copy.0) }
        ensures rest { self.new.todo ≡ self.old.todo }
    {
        match self.table.insert(n.0, copy) {
            Ok(_) => Ok(()),
            Err(_) => Err(AllocError),
        }
    }

    fn enter(&mut self, at: &mut Parts, n: NodeRef, how: Copying<'_>) -> Result<(), NoMemory>
        ensures stands { OnOk result (LeavesVariables how.entry → (aim : ℕ) → Stands at.old.store.nodes how.entry.changes.now (table_of self.old.table) (self.old.todo.items ++ Task.Enter n ∷ []) aim → Stands at.new.store.nodes how.entry.changes.now (table_of self.new.table) self.new.todo.items aim) }
        ensures extends { OnOk result (Extends at.old.store.nodes at.new.store.nodes) }
        ensures silent { Silent at.old at.new }
        ensures goes { Goes at.old at.new }
    {
        let root = at.root(n);
        if self.table.contains_key(&root.0) {
            return Ok(());
        }
        match view_of(at, root)? {
            Seen::Variable { level, scope } => self.enter_variable(at, root, level, scope, how),
            Seen::Other => self.set(root, root),
            Seen::Arrow(from, to) => self.later(root, &[from, to]),
            Seen::Tuple(parts) => self.later(root, &parts),
            Seen::Con(_, args) => self.later(root, &args),
        }
    }

    fn enter_variable(
        &mut self,
        at: &mut Parts,
        n: NodeRef,
        level: u32,
        scope: u64,
        how: Copying<'_>,
    ) -> Result<(), NoMemory>
        ensures set { OnOk result (LeavesVariables how.entry → SetsCopy (table_of self.old.table) (table_of self.new.table) n.0 n.0) }
        ensures same { OnOk result (LeavesVariables how.entry → at.new ≡ at.old) }
        ensures extends { OnOk result (Extends at.old.store.nodes at.new.store.nodes) }
        ensures rest { self.new.todo ≡ self.old.todo }
        ensures silent { Silent at.old at.new }
        ensures goes { Goes at.old at.new }
    {
        let copy = self.variable(at, n, level, scope, how)?;
        self.set(n, copy)
    }

    /// What stands for a variable: itself where it isn't bound.
    fn variable(
        &mut self,
        at: &mut Parts,
        n: NodeRef,
        level: u32,
        scope: u64,
        how: Copying<'_>,
    ) -> Result<NodeRef, NoMemory>
        ensures itself { IfOk result (λ m. LeavesVariables how.entry → (m ≡ n) × (at.new ≡ at.old)) }
        ensures extends { OnOk result (Extends at.old.store.nodes at.new.store.nodes) }
        ensures table { self.new.table ≡ self.old.table }
        ensures todo { self.new.todo ≡ self.old.todo }
        ensures silent { Silent at.old at.new }
        ensures goes { Goes at.old at.new }
    {
        if level != BOUND {
            return Ok(n);
        }
        if scope == 0 {
            return match how.unknown {
                ForUnknown::Itself => Ok(n),
                ForUnknown::Variable => at.var(),
                ForUnknown::Closed => at.var_of_scope(NO_RIGID),
                ForUnknown::Open => {
                    let made = at.var_of_scope(0)?;
                    push(&mut self.opened, made)?;
                    Ok(made)
                }
            };
        }
        match how.bound {
            ForBound::Itself => Ok(n),
            ForBound::Variable => at.var(),
            ForBound::Rigid => at.rigid(),
        }
    }

    fn later(&mut self, n: NodeRef, parts: &[NodeRef]) -> Result<(), NoMemory>
        ensures pushed { OnOk result (self.new.todo.items ≡ self.old.todo.items ++ Task.Leave n ∷ map (λ p. Task.Enter p) parts.now) }
        ensures rest { self.new.table ≡ self.old.table }
    {
        self.push(Task::Leave(n))?;
        for part in parts {
            self.push(Task::Enter(*part))?;
        }
        Ok(())
    }

    fn leave(&mut self, at: &mut Parts, n: NodeRef, how: Copying<'_>) -> Result<(), NoMemory>
        ensures stands { OnOk result (LeavesVariables how.entry → (aim : ℕ) → Stands at.old.store.nodes how.entry.changes.now (table_of self.old.table) (self.old.todo.items ++ Task.Leave n ∷ []) aim → Stands at.new.store.nodes how.entry.changes.now (table_of self.new.table) self.new.todo.items aim) }
        ensures extends { OnOk result (Extends at.old.store.nodes at.new.store.nodes) }
        ensures silent { Silent at.old at.new }
        ensures goes { Goes at.old at.new }
    {
        let copy = self.rebuilt(at, n, how)?;
        self.set(n, copy)
    }

    /// A node over the copies of its parts: itself where none is another.
    fn rebuilt(&self, at: &mut Parts, n: NodeRef, how: Copying<'_>) -> Result<NodeRef, NoMemory>
        ensures changed { IfOk result (λ m. AreDeclared at.old.store.nodes how.entry.changes.now.real.items → IsNode at.old.store.nodes n.0 → (c : plain) → reading at.old.store.nodes n.0 ≡ Some c → IsComposite c → AreCopied at.old.store.nodes (change_by how.entry.changes.now) (table_of self.now.table) (parts c) → IsChanged at.new.store.nodes (change_by how.entry.changes.now) n.0 m.0) }
        ensures sound { IsSound at.old.store.nodes }
        ensures extends { OnOk result (Extends at.old.store.nodes at.new.store.nodes) }
        ensures silent { Silent at.old at.new }
        ensures goes { Goes at.old at.new }
    {
        match view_of(at, n)? {
            Seen::Arrow(from, to) => self.arrow(at, n, from, to),
            Seen::Tuple(parts) => self.tuple(at, n, &parts),
            Seen::Con(origin, args) => self.constructor(at, n, &origin, &args, how),
            _ => Ok(n),
        }
    }

    fn arrow(
        &self,
        at: &mut Parts,
        n: NodeRef,
        from: NodeRef,
        to: NodeRef,
    ) -> Result<NodeRef, NoMemory>
        ensures changed { IfOk result (λ m. (changes : PlainChanges) → IsNode at.old.store.nodes n.0 → reading at.old.store.nodes n.0 ≡ Some (plain.Arrow from.0 to.0) → AreCopied at.old.store.nodes (change_by changes) (table_of self.now.table) (from.0 ∷ to.0 ∷ []) → IsChanged at.new.store.nodes (change_by changes) n.0 m.0) }
        ensures extends { OnOk result (Extends at.old.store.nodes at.new.store.nodes) }
        ensures silent { Silent at.old at.new }
        ensures goes { Goes at.old at.new }
    {
        if !self.is_any_changed(at, &[from, to]) {
            return Ok(n);
        }
        let left = self.image(at, from);
        let right = self.image(at, to);
        at.arrow(left, right)
    }

    fn tuple(&self, at: &mut Parts, n: NodeRef, parts: &[NodeRef]) -> Result<NodeRef, NoMemory>
        ensures changed { IfOk result (λ m. (changes : PlainChanges) → IsNode at.old.store.nodes n.0 → reading at.old.store.nodes n.0 ≡ Some (plain.Tuple (numbers parts.now)) → AreCopied at.old.store.nodes (change_by changes) (table_of self.now.table) (numbers parts.now) → IsChanged at.new.store.nodes (change_by changes) n.0 m.0) }
        ensures extends { OnOk result (Extends at.old.store.nodes at.new.store.nodes) }
        ensures silent { Silent at.old at.new }
        ensures goes { Goes at.old at.new }
    {
        if !self.is_any_changed(at, parts) {
            return Ok(n);
        }
        let images = self.images(at, parts)?;
        at.tuple(&images)
    }

    /// What stands for a constructor over the copies of its arguments.
    fn constructor(
        &self,
        at: &mut Parts,
        n: NodeRef,
        origin: &Origin,
        args: &[NodeRef],
        how: Copying<'_>,
    ) -> Result<NodeRef, NoMemory>
        ensures changed { IfOk result (λ m. AreDeclared at.old.store.nodes how.entry.changes.now.real.items → IsNode at.old.store.nodes n.0 → reading at.old.store.nodes n.0 ≡ Some (plain.Con origin.now.path.items (str_bytes origin.now.name) (numbers args.now)) → AreCopied at.old.store.nodes (change_by how.entry.changes.now) (table_of self.now.table) (numbers args.now) → IsChanged at.new.store.nodes (change_by how.entry.changes.now) n.0 m.0) }
        ensures extends { OnOk result (Extends at.old.store.nodes at.new.store.nodes) }
        ensures silent { Silent at.old at.new }
        ensures goes { Goes at.old at.new }
    {
        let images = self.images(at, args)?;
        match how.changes.put(origin) {
            Put::Type { root, arity } => over(at, root, arity, &images),
            Put::Path(number) => {
                let moved = in_front(at, number, origin)?;
                at.con(&moved, &images)
            }
            Put::Itself => {
                if self.is_any_changed(at, args) {
                    at.con(origin, &images)
                } else {
                    Ok(n)
                }
            }
        }
    }

    fn images(&self, at: &Parts, parts: &[NodeRef]) -> Result<Vec<NodeRef>, NoMemory>
        ensures { IfOk result (λ v. All (IsNode at.now.store.nodes) (numbers parts.now) → numbers v.items ≡ map (image_in at.now.store.nodes (table_of self.now.table)) (numbers parts.now)) }
    {
        let mut images = Vec::new(at.alloc());
        for part in parts {
            push(&mut images, self.image(at, *part))?;
        }
        Ok(images)
    }

    /// Whether a part has another copy than its root.
    fn is_any_changed(&self, at: &Parts, parts: &[NodeRef]) -> bool
        ensures { result ≡ false → All (IsNode at.now.store.nodes) (numbers parts.now) → All (λ p. image_in at.now.store.nodes (table_of self.now.table) p ≡ root_of at.now.store.nodes p) (numbers parts.now) }
    {
        for part in parts {
            if self.image(at, *part).0 != at.root(*part).0 {
                return true;
            }
        }
        false
    }
}

/// An origin with a number in front of its path.
pub fn in_front(at: &Parts, number: u64, origin: &Origin) -> Result<Origin, NoMemory>
    ensures path { IfOk result (λ o. o.path.items ≡ number ∷ origin.now.path.items) }
    ensures name { IfOk result (λ o. str_bytes o.name ≡ str_bytes origin.now.name) }
{
    let mut path = Vec::new(at.alloc());
    push(&mut path, number)?;
    for member in &origin.path {
        push(&mut path, *member)?;
    }
    Ok(Origin {
        path,
        name: origin.name.share()?,
    })
}

/// A declared type over arguments: its body with the arguments in the place of its parameters, one without an argument as the empty tuple.
fn over(at: &mut Parts, root: NodeRef, arity: u32, args: &[NodeRef]) -> Result<NodeRef, NoMemory>
    ensures over { IfOk result (λ m. IsDeclared at.old.store.nodes root.0 arity → All (IsNode at.old.store.nodes) (numbers args.now) → IsDeclaredOver at.new.store.nodes root.0 arity (numbers args.now) m.0) }
    ensures extends { OnOk result (Extends at.old.store.nodes at.new.store.nodes) }
    ensures silent { Silent at.old at.new }
    ensures goes { Goes at.old at.new }
{
    if at.store.len() <= root.0 as usize {
        return at.var();
    }
    if arity == 0 {
        return Ok(root);
    }
    if !are_nodes(&at.store, args) {
        return at.var();
    }
    match view_of(at, root)? {
        Seen::Tuple(parts) => applied(at, parts, args),
        _ => at.var(),
    }
}

/// The last of some types with arguments in the place of the variables that the others are.
fn applied(at: &mut Parts, types: Vec<NodeRef>, args: &[NodeRef]) -> Result<NodeRef, NoMemory>
    requires types { All (IsNode at.old.store.nodes) (numbers types.items) }
    requires args { All (IsNode at.old.store.nodes) (numbers args.now) }
    ensures applied { IfOk result (λ m. (ps : List ℕ) (body : ℕ) → numbers types.items ≡ ps ++ body ∷ [] → IsSubstituted at.old.store.nodes at.new.store.nodes ps (numbers args.now) body m.0) }
    ensures extends { OnOk result (Extends at.old.store.nodes at.new.store.nodes) }
    ensures silent { Silent at.old at.new }
    ensures goes { Goes at.old at.new }
{
    let mut parameters = types;
    match parameters.pop() {
        Some(body) => substituted(at.alloc(), &mut at.store, &parameters, args, body),
        None => at.var(),
    }
}

/// A type as it is.
pub fn unchanged(changes: &Changes, bound: ForBound, unknown: ForUnknown) -> Copying<'_> {
    Copying {
        bound,
        unknown,
        changes,
    }
}
