//! The search for what is free in the types of names.
ghost use Rattle.std.specs.Prelude.{◌≡◌, ℕ, [], false, map, nat_eq, IfOk, OnOk};
ghost use Rattle.std.specs.HashSet.{contains};
ghost use Rattle.type_terms.specs.declared.types.NodeRef.{NodeRef};
ghost use Rattle.type_nodes.specs.Nodes.{IsNode};
ghost use Rattle.type_nodes.specs.Views.{numbers};
ghost use Rattle.env_table.specs.declared.entries.What.TheVariants as what;
ghost use Rattle.typing_conditions.specs.Standing.{IsIn};
ghost use Rattle.weak_variables.specs.Free.{AreAllValues, FreeOf, IsFound, IsRoot};
ghost use Rattle.weak_variables.specs.Listed.{Finds, IsFreeInOne, Lists};
ghost use Rattle.weak_variables.specs.Search.{is_free, is_listed, lists_of, AddsTo, IsFreeAs, ListsTo, WalksOn};

use env_table::{Entries, Entry, Place, Sig, What};
use level_unify::{reached, reached_beyond};
use owned_lists::{push, shared};
use std::alloc::Global;
use std::collections::{HashMap, HashSet};
use std::mem;
use std::rc::Rc;
use type_nodes::View;
use typing_state::{Depth, NoMemory, NodeRef, Parts, is_node};

/// The level that is kept for bound variables.
const BOUND: u32 = 4_294_967_295;

/// The variables that were listed, those of them that were found in the names of the present item, and the modules that were looked
/// at. Modules are grouped by the place of their name in a text, which few of them share.
#[derive(Drop)]
pub struct Search {
    listed: HashSet<u64>,
    found: Vec<NodeRef>,
    modules: HashMap<u32, Vec<Rc<Entry>>>,
}

/// Where a name stands in its text, or the number of a built-in type.
fn place_number(place: Place) -> u32 {
    match place {
        Place::Buffer(span) => span.start,
        Place::Prelude(span) => span.start,
        Place::BuiltIn(number) => number,
    }
}

/// Whether a node reads as a variable that isn't bound.
fn is_free(at: &Parts, n: NodeRef) -> bool
    ensures { result ≡ is_free at.now.store.nodes n.0 }
{
    match at.read(n) {
        Some(View::Var { level, .. }) => level != BOUND,
        _ => false,
    }
}

impl Search {
    /// Nothing was looked at yet. It takes no memory.
    pub fn new(alloc: Global) -> Search
        ensures listed { (v : ℕ) → is_listed result v ≡ false }
        ensures found { result.found.items ≡ [] }
    {
        Search {
            listed: HashSet::new(alloc),
            found: Vec::new(alloc),
            modules: HashMap::new(alloc),
        }
    }

    /// Lists a variable, unless it is listed already.
    fn put(&mut self, n: NodeRef) -> Result<(), NoMemory>
        ensures { OnOk result (AddsTo (λ v. v ≡ n.0) self.old self.new) }
    {
        if self.listed.contains(&n.0) {
            return Ok(());
        }
        self.listed.insert(n.0)?;
        push(&mut self.found, n)?;
        Ok(())
    }

    /// Lists a node that is a free variable.
    fn list(&mut self, at: &Parts, n: NodeRef) -> Result<(), NoMemory>
        ensures { OnOk result (AddsTo (IsFreeAs at.now.store.nodes (λ v. v ≡ n.0)) self.old self.new) }
    {
        if is_free(at, n) {
            return self.put(n);
        }
        Ok(())
    }

    /// Lists the free variables among nodes.
    fn list_all(&mut self, at: &Parts, nodes: &[NodeRef]) -> Result<(), NoMemory>
        ensures { OnOk result (AddsTo (IsFreeAs at.now.store.nodes (IsIn (numbers nodes.now))) self.old self.new) }
    {
        for n in nodes {
            self.list(at, *n)?;
        }
        Ok(())
    }

    /// Lists what is free in the type of a node of the store.
    fn look_at(&mut self, at: &Parts, n: NodeRef) -> Result<(), NoMemory>
        requires { IsNode at.now.store.nodes n.0 }
        ensures { OnOk result (AddsTo (IsFreeInOne at.now.store.nodes (λ m. m ≡ n.0)) self.old self.new) }
    {
        let found = reached(at.alloc(), &at.store, n)?;
        self.list_all(at, &found)?;
        Ok(())
    }

    /// Lists what is free in the type of a node.
    fn look(&mut self, at: &Parts, n: NodeRef) -> Result<(), NoMemory>
        ensures { OnOk result (AddsTo (IsFreeInOne at.now.store.nodes (λ m. m ≡ n.0)) self.old self.new) }
    {
        if is_node(&at.store, n) {
            return self.look_at(at, n);
        }
        Ok(())
    }

    /// The same of a node of the store, but for the nodes that were walked; what stands in it is walked then.
    fn walk_at(&mut self, at: &Parts, walked: &mut HashSet<u64>, n: NodeRef) -> Result<(), NoMemory>
        requires { IsNode at.now.store.nodes n.0 }
        ensures { OnOk result (WalksOn at.now.store.nodes (λ m. m ≡ n.0) (contains nat_eq walked.old) (contains nat_eq walked.new) self.old self.new) }
    {
        let found = reached_beyond(at.alloc(), &at.store, walked, n)?;
        self.list_all(at, &found)?;
        Ok(())
    }

    /// The same of a node, whatever it is.
    fn walk(&mut self, at: &Parts, walked: &mut HashSet<u64>, n: NodeRef) -> Result<(), NoMemory>
        ensures { OnOk result (WalksOn at.now.store.nodes (λ m. m ≡ n.0) (contains nat_eq walked.old) (contains nat_eq walked.new) self.old self.new) }
    {
        if is_node(&at.store, n) {
            return self.walk_at(at, walked, n);
        }
        Ok(())
    }

    /// The same of several nodes.
    fn walk_all(
        &mut self,
        at: &Parts,
        walked: &mut HashSet<u64>,
        nodes: &[NodeRef],
    ) -> Result<(), NoMemory>
        ensures { OnOk result (WalksOn at.now.store.nodes (IsIn (numbers nodes.now)) (contains nat_eq walked.old) (contains nat_eq walked.new) self.old self.new) }
    {
        for n in nodes {
            self.walk(at, walked, *n)?;
        }
        Ok(())
    }

    /// Whether a module wasn't looked at yet; it counts as looked at from now on. Many names may stand for one module, and only the
    /// first of them is followed: else a text of thirty modules, each with two names for the one before it, would never be done.
    fn is_new(&mut self, at: &Parts, entry: &Rc<Entry>) -> Result<bool, NoMemory>
        ensures { (self.new.listed ≡ self.old.listed) × (self.new.found ≡ self.old.found) }
    {
        let number = place_number(entry.place);
        if let Some(others) = self.modules.get_mut(&number) {
            for other in others.iter() {
                if Rc::ptr_eq(other, entry) {
                    return Ok(false);
                }
            }
            push(others, shared(entry)?)?;
            return Ok(true);
        }
        let mut others = Vec::new(at.alloc());
        push(&mut others, shared(entry)?)?;
        self.modules.insert(number, others)?;
        Ok(true)
    }

    /// Lists what is free in the types of the values that an entry brings in, those of a module's values and of functors' bodies
    /// included.
    #[cycle(weak)]
    fn entry(&mut self, at: &Parts, entry: &Rc<Entry>, depth: Depth) -> Result<(), NoMemory>
        ensures lists { OnOk result (ListsTo self.old self.new) }
        ensures value { (m : NodeRef) → entry.now.value.what ≡ what.Scheme m → OnOk result (AddsTo (IsFreeInOne at.now.store.nodes (λ k. k ≡ m.0)) self.old self.new) }
    {
        match &entry.what {
            What::Scheme(root) => self.look(at, *root),
            What::Module(sig) => {
                if self.is_new(at, entry)? {
                    self.module(at, sig, depth)
                } else {
                    Ok(())
                }
            }
            _ => Ok(()),
        }
    }

    #[cycle(weak)]
    fn module(&mut self, at: &Parts, sig: &Sig, depth: Depth) -> Result<(), NoMemory>
        ensures lists { OnOk result (ListsTo self.old self.new) }
    {
        match sig {
            Sig::Structure(_) => self.entries(at, sig.entries(), depth.inside()?),
            Sig::Functor(parameter, body) => {
                self.module(at, &parameter.sig, depth.inside()?)?;
                self.module(at, &body.sig, depth.inside()?)
            }
            Sig::Hole => Ok(()),
        }
    }

    #[cycle(weak)]
    fn entries(&mut self, at: &Parts, entries: Entries<'_>, depth: Depth) -> Result<(), NoMemory>
        ensures lists { OnOk result (ListsTo self.old self.new) }
    {
        let mut rest = entries;
        while let Some((entry, older)) = rest.split_first() {
            self.entry(at, entry, depth)?;
            rest = older;
        }
        Ok(())
    }

    /// What is free in the types of an item's names, as they are after the item, and isn't listed yet; it is listed then.
    pub fn free_of(&mut self, at: &Parts, entries: &[Rc<Entry>]) -> Result<Vec<NodeRef>, NoMemory>
        ensures lists { IfOk result (λ own. Lists (is_listed self.old) (is_listed self.new) [] (numbers own.items)) }
        ensures finds { IfOk result (λ own. AreAllValues (map (λ e. e.value) entries.now) → Finds at.now.store.nodes (IsRoot (map (λ e. e.value) entries.now)) (is_listed self.old) (is_listed self.new) [] (numbers own.items)) }
    {
        self.found = Vec::new(at.alloc());
        for entry in entries {
            self.entry(at, entry, Depth::WHOLE)?;
        }
        Ok(mem::replace(&mut self.found, Vec::new(at.alloc())))
    }
}

/// The variables that are free in the types of these as they are now, each once and by its root. It takes time by the lists and by
/// the nodes that stand in what they have, each of which is walked once.
pub fn free_in(at: &Parts, lists: &[Vec<NodeRef>]) -> Result<Vec<NodeRef>, NoMemory>
    ensures { IfOk result (λ ws. FreeOf at.now.store.nodes (IsFound (lists_of lists.now)) (numbers ws.items)) }
{
    let mut search = Search::new(at.alloc());
    let mut walked = HashSet::new(at.alloc());
    for list in lists {
        search.walk_all(at, &mut walked, list)?;
    }
    Ok(search.found)
}
