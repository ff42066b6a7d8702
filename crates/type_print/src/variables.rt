//! The variables of types: their names, in the order in which they first stand in the text.
ghost use Rattle.std.specs.Prelude.{◌++◌, ◌≡◌, [], ◌∷◌, All, OnOk, IfOk, IfSome, IfNone, nat_eq, ◌+◌, List, ℕ, cond, true};
ghost use Rattle.std.specs.HashMap.{get};
ghost use Rattle.std.specs.HashSet.{contains};
ghost use Rattle.type_nodes.specs.Nodes.{IsNode, IsSound};
ghost use Rattle.type_nodes.specs.Views.{numbers};
ghost use Rattle.type_print_model.specs.Variables.{variables_of};
ghost use Rattle.type_print.specs.Shown.{shown};
ghost use Rattle.type_print.specs.Meeting.{roots_of, met_of, AreNamed, Counts, Adds, Marks, Goes, IsMove, move_of, moves_of, entries, enters, leaves};

use std::alloc::{AllocError, Global};
use std::collections::{HashMap, HashSet};
use type_nodes::{NoMemory, NodeRef, Store, View};

/// The name of a variable.
#[derive(Clone, Copy)]
pub(crate) enum VariableName {
    /// 'a, by its place among those with a letter, from 0
    Letter(u64),
    /// '_weak1, by its number among the weak ones, from 1
    Weak(u64),
}

/// The variables that were met, by the numbers of their roots.
#[derive(Drop)]
pub(crate) struct Variables {
    weak: HashSet<u64>,
    names: HashMap<u64, VariableName>,
    letters: u64,
    weaks: u64,
    /// The roots of all nodes whose variables were all met.
    done: HashSet<u64>,
}

/// A step of a walk through a type.
#[derive(Clone, Copy)]
enum Step {
    Into(NodeRef),
    /// Behind all parts of a root.
    Behind(NodeRef),
}

impl Variables {
    /// No variable; those of these nodes are weak.
    pub(crate) fn new(alloc: Global, store: &Store, weak: &[NodeRef]) -> Result<Variables, NoMemory>
        requires { All (IsNode store.now.nodes) (numbers weak.now) }
        ensures { IfOk result (λ vs. AreNamed store.now.nodes (roots_of store.now.nodes (numbers weak.now)) [] (met_of vs)) }
    {
        let mut roots = HashSet::new(alloc);
        for node in weak {
            insert(&mut roots, store.root(*node))?;
        }
        Ok(Variables {
            weak: roots,
            names: HashMap::new(alloc),
            letters: 0,
            weaks: 0,
            done: HashSet::new(alloc),
        })
    }

    /// The name of a variable that was met.
    pub(crate) fn name(&self, root: NodeRef) -> Option<VariableName>
        ensures { result ≡ get nat_eq self.now.names root.0 }
    {
        match self.names.get(&root.0) {
            None => None,
            Some(name) => Some(*name),
        }
    }

    /// Meets the variables of a node, in the order of its text, behind those that were met before.
    pub(crate) fn meet(
        &mut self,
        alloc: Global,
        store: &Store,
        from: NodeRef,
    ) -> Result<(), NoMemory>
        requires { IsNode store.now.nodes from.0 }
        ensures { OnOk result ((weak all : List ℕ) → AreNamed store.now.nodes weak all (met_of self.old) → AreNamed store.now.nodes weak (all ++ variables_of (shown store.now.nodes from.0)) (met_of self.new)) }
    {
        let mut left = Vec::new(alloc);
        push(&mut left, Step::Into(store.root(from)))?;
        while let Some(step) = take_next(&mut left) {
            self.go(store, &mut left, step)?;
        }
        Ok(())
    }

    fn go(&mut self, store: &Store, left: &mut Vec<Step>, step: Step) -> Result<(), NoMemory>
        requires node { IsMove store.now.nodes (move_of step) }
        ensures { OnOk result (Goes store.now.nodes (moves_of left.old.items) (moves_of left.new.items) (met_of self.old) (met_of self.new) (move_of step)) }
    {
        match step {
            Step::Into(node) => self.visit(store, left, node),
            Step::Behind(root) => self.mark(root),
        }
    }

    /// A node whose variables were all met is left out. No root is gone into twice, since none stands in itself.
    fn visit(&mut self, store: &Store, left: &mut Vec<Step>, node: NodeRef) -> Result<(), NoMemory>
        requires node { IsNode store.now.nodes node.0 }
        ensures { OnOk result (Goes store.now.nodes (moves_of left.old.items) (moves_of left.new.items) (met_of self.old) (met_of self.new) (enters node.0)) }
    {
        let root = store.root(node);
        if self.done.contains(&root.0) {
            return Ok(());
        }
        match store.read(node) {
            View::Var { .. } => self.add(root),
            View::Rigid(_) => self.add(root),
            View::Arrow(from, to) => open(left, root, &[from, to]),
            View::Tuple(parts) => open(left, root, parts),
            View::Con(_, args) => open(left, root, args),
        }
    }

    fn mark(&mut self, root: NodeRef) -> Result<(), NoMemory>
        ensures { OnOk result (Marks root.0 (met_of self.old) (met_of self.new)) }
    {
        insert(&mut self.done, root)
    }

    fn add(&mut self, root: NodeRef) -> Result<(), NoMemory>
        ensures { OnOk result (Adds root.0 (met_of self.old) (met_of self.new)) }
    {
        let name = self.next_name(root)?;
        match self.names.insert(root.0, name) {
            Ok(_) => self.mark(root),
            Err(_) => Err(AllocError),
        }
    }

    fn next_name(&mut self, root: NodeRef) -> Result<VariableName, NoMemory>
        ensures { IfOk result (λ name. Counts root.0 (met_of self.old) (met_of self.new) name) }
    {
        if self.weak.contains(&root.0) {
            self.weaks = next(self.weaks)?;
            return Ok(VariableName::Weak(self.weaks));
        }
        let place = self.letters;
        self.letters = next(place)?;
        Ok(VariableName::Letter(place))
    }
}

// There is no memory for as many variables as numbers.
fn next(count: u64) -> Result<u64, NoMemory>
    ensures { IfOk result (λ n. n ≡ count + 1) }
{
    match count.checked_add(1) {
        Some(next) => Ok(next),
        None => Err(AllocError),
    }
}

fn insert(roots: &mut HashSet<u64>, root: NodeRef) -> Result<(), NoMemory>
    ensures { OnOk result ((q : ℕ) → contains nat_eq roots.new q ≡ cond (nat_eq root.0 q) true (contains nat_eq roots.old q)) }
{
    match roots.insert(root.0) {
        Ok(_) => Ok(()),
        Err(_) => Err(AllocError),
    }
}

fn take_next(left: &mut Vec<Step>) -> Option<Step>
    ensures some { IfSome result (λ s. moves_of left.old.items ≡ move_of s ∷ moves_of left.new.items) }
    ensures none { IfNone result (moves_of left.old.items ≡ []) }
{
    left.pop()
}

fn push(left: &mut Vec<Step>, step: Step) -> Result<(), NoMemory>
    ensures { OnOk result (moves_of left.new.items ≡ move_of step ∷ moves_of left.old.items) }
{
    left.push(step).map_err(|_| AllocError)
}

/// The first of a root's parts comes next, and the way back behind them all.
fn open(left: &mut Vec<Step>, root: NodeRef, parts: &[NodeRef]) -> Result<(), NoMemory>
    ensures { OnOk result (moves_of left.new.items ≡ entries (numbers parts.now) ++ leaves root.0 ∷ moves_of left.old.items) }
{
    push(left, Step::Behind(root))?;
    push_all(left, parts)
}

/// The first of them comes last.
fn push_all(left: &mut Vec<Step>, nodes: &[NodeRef]) -> Result<(), NoMemory>
    ensures { OnOk result (moves_of left.new.items ≡ entries (numbers nodes.now) ++ moves_of left.old.items) }
{
    let mut k = nodes.len();
    while k > 0 {
        k -= 1;
        push(left, Step::Into(nodes[k]))?;
    }
    Ok(())
}
