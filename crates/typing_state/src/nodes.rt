//! New types, and what is asked of types. A number that is no node of the store stands for a type that nothing else restricts.
ghost use Rattle.std.specs.Prelude.{◌≡◌, ◌↔◌, ℕ, ◌<◌, ◌≤◌, [], ◌∷◌, List, All, IsTrue, IfOk, IfErr, IfSome, IfNone, OnOk, OnErr, IsOk, length, true, false, Ok, Some, codes};
ghost use Rattle.text_terms.specs.Bytes.{str_bytes};
ghost use Rattle.type_nodes.specs.Nodes.{Node as plain, IsNode, IsSound};
ghost use Rattle.type_nodes.specs.Links.{root as root_of, reading, IsFree};
ghost use Rattle.type_nodes.specs.States.{State, Keeps, Restored};
ghost use Rattle.type_nodes.specs.Changes.{Makes, Quantifies};
ghost use Rattle.type_nodes.specs.Views.{numbers, Shows};
ghost use Rattle.level_unify.specs.declared.fault.UnifyFault.{UnifyFault};
ghost use Rattle.level_unify.specs.declared.fault.Clash.{Clash};
ghost use Rattle.level_unify.specs.Generalising.{Generalised};
ghost use Rattle.level_unify.specs.Instances.{Instantiated};
ghost use Rattle.level_unify.specs.Solutions.{HaveNoBound};
ghost use Rattle.level_unify.specs.Unification.{Clashes};
ghost use Rattle.scheme_match.specs.Covering.{KeepsOutRigid, Compared};
ghost use Rattle.scheme_match.specs.Unknown.{HasUnknown};
ghost use Rattle.typing_state.specs.Goes.{Goes, OnlyStore};
ghost use Rattle.typing_state.specs.Types.{level_for, any_scope, list_path, MakesVar, MadeOne, JoinedIfNodes};

use crate::built_ins::BuiltIn;
use crate::parts::Parts;
use level_unify::{UnifyFault, generalise, instantiate, unify};
use scheme_match::{covers, has_unknown};
use std::alloc::AllocError;
use type_nodes::{Mark, NoMemory, NodeRef, Origin, Store, View};

/// The level that is kept for bound variables.
const BOUND: u32 = 4_294_967_295;

/// The level above which no variable is made.
const HIGHEST: u32 = 4_294_967_294;

/// The scope that limits nothing.
pub const NO_SCOPE: u64 = 18_446_744_073_709_551_615;

/// Whether a number is that of a node of the store.
pub fn is_node(store: &Store, n: NodeRef) -> bool
    ensures { IsTrue result ↔ IsNode store.now.nodes n.0 }
{
    (n.0 as usize) < store.len()
}

/// Whether numbers are those of nodes of the store.
pub fn are_nodes(store: &Store, nodes: &[NodeRef]) -> bool
    ensures { IsTrue result ↔ All (IsNode store.now.nodes) (numbers nodes.now) }
{
    for n in nodes {
        if !is_node(store, *n) {
            return false;
        }
    }
    true
}

/// Whether a node reads as a variable that isn't bound.
fn is_free(store: &Store, n: NodeRef) -> bool
    requires { IsNode store.now.nodes n.0 }
    ensures { IsTrue result ↔ IsFree store.now.nodes n.0 }
{
    match store.read(n) {
        View::Var { level, .. } => level != BOUND,
        _ => false,
    }
}

impl Parts {
    /// A new variable of the present level.
    pub fn var(&mut self) -> Result<NodeRef, NoMemory>
        ensures made { IfOk result (λ n. MakesVar self.old self.new n.0 any_scope) }
        ensures failed { OnErr result (self.new ≡ self.old) }
        ensures keeps { Keeps self.old.store self.new.store }
        ensures rest { OnlyStore self.old self.new }
        ensures goes { Goes self.old self.new }
    {
        self.store.var(self.level.min(HIGHEST), NO_SCOPE)
    }

    /// A new variable of the present level and of a scope.
    pub fn var_of_scope(&mut self, scope: u64) -> Result<NodeRef, NoMemory>
        ensures made { IfOk result (λ n. MakesVar self.old self.new n.0 scope) }
        ensures failed { OnErr result (self.new ≡ self.old) }
        ensures keeps { Keeps self.old.store self.new.store }
        ensures rest { OnlyStore self.old self.new }
        ensures goes { Goes self.old self.new }
    {
        self.store.var(self.level.min(HIGHEST), scope)
    }

    /// A new rigid variable.
    pub fn rigid(&mut self) -> Result<NodeRef, NoMemory>
        ensures made { IfOk result (λ n. Makes self.old.store self.new.store n.0 plain.Rigid) }
        ensures failed { OnErr result (self.new ≡ self.old) }
        ensures keeps { Keeps self.old.store self.new.store }
        ensures rest { OnlyStore self.old self.new }
        ensures goes { Goes self.old self.new }
    {
        self.store.rigid()
    }

    /// Binds a variable where it is free; it keeps its scope.
    pub fn quantify(&mut self, n: NodeRef) -> Result<(), NoMemory>
        ensures bound { OnOk result (IsFree self.old.store.nodes n.0 → Quantifies self.old.store self.new.store n.0) }
        ensures otherwise { OnOk result ((IsFree self.old.store.nodes n.0 → ⊥) → self.new ≡ self.old) }
        ensures failed { OnErr result (self.new ≡ self.old) }
        ensures keeps { Keeps self.old.store self.new.store }
        ensures rest { OnlyStore self.old self.new }
        ensures goes { Goes self.old self.new }
    {
        if is_node(&self.store, n) && is_free(&self.store, n) {
            self.store.quantify(n)
        } else {
            Ok(())
        }
    }

    /// The node at the end of the links from one; a number that is no node is its own.
    pub fn root(&self, n: NodeRef) -> NodeRef
        ensures node { IsNode self.now.store.nodes n.0 → result.0 ≡ root_of self.now.store.nodes n.0 }
        ensures otherwise { (IsNode self.now.store.nodes n.0 → ⊥) → result ≡ n }
    {
        if is_node(&self.store, n) {
            self.store.root(n)
        } else {
            n
        }
    }

    pub fn arrow(&mut self, from: NodeRef, to: NodeRef) -> Result<NodeRef, NoMemory>
        ensures made { IfOk result (λ n. IsNode self.old.store.nodes from.0 → IsNode self.old.store.nodes to.0 → Makes self.old.store self.new.store n.0 (plain.Arrow from.0 to.0)) }
        ensures otherwise { IfOk result (λ n. (IsNode self.old.store.nodes from.0 → IsNode self.old.store.nodes to.0 → ⊥) → MakesVar self.old self.new n.0 any_scope) }
        ensures failed { OnErr result (self.new ≡ self.old) }
        ensures keeps { Keeps self.old.store self.new.store }
        ensures rest { OnlyStore self.old self.new }
        ensures goes { Goes self.old self.new }
    {
        if is_node(&self.store, from) && is_node(&self.store, to) {
            self.store.arrow(from, to)
        } else {
            self.var()
        }
    }

    pub fn tuple(&mut self, parts: &[NodeRef]) -> Result<NodeRef, NoMemory>
        ensures made { IfOk result (λ n. All (IsNode self.old.store.nodes) (numbers parts.now) → Makes self.old.store self.new.store n.0 (plain.Tuple (numbers parts.now))) }
        ensures otherwise { IfOk result (λ n. (All (IsNode self.old.store.nodes) (numbers parts.now) → ⊥) → MakesVar self.old self.new n.0 any_scope) }
        ensures failed { OnErr result (self.new ≡ self.old) }
        ensures keeps { Keeps self.old.store self.new.store }
        ensures rest { OnlyStore self.old self.new }
        ensures goes { Goes self.old self.new }
    {
        if are_nodes(&self.store, parts) {
            self.store.tuple(parts)
        } else {
            self.var()
        }
    }

    pub fn con(&mut self, origin: &Origin, args: &[NodeRef]) -> Result<NodeRef, NoMemory>
        ensures made { IfOk result (λ n. All (IsNode self.old.store.nodes) (numbers args.now) → Makes self.old.store self.new.store n.0 (plain.Con origin.now.path.items (str_bytes origin.now.name) (numbers args.now))) }
        ensures otherwise { IfOk result (λ n. (All (IsNode self.old.store.nodes) (numbers args.now) → ⊥) → MakesVar self.old self.new n.0 any_scope) }
        ensures failed { OnErr result (self.new ≡ self.old) }
        ensures keeps { Keeps self.old.store self.new.store }
        ensures rest { OnlyStore self.old self.new }
        ensures goes { Goes self.old self.new }
    {
        if are_nodes(&self.store, args) {
            self.store.con(origin, args)
        } else {
            self.var()
        }
    }

    /// t list
    pub fn list(&mut self, element: NodeRef) -> Result<NodeRef, NoMemory>
        ensures made { IfOk result (λ n. IsNode self.old.store.nodes element.0 → Makes self.old.store self.new.store n.0 (plain.Con list_path (codes "list") (element.0 ∷ []))) }
        ensures otherwise { IfOk result (λ n. (IsNode self.old.store.nodes element.0 → ⊥) → MakesVar self.old self.new n.0 any_scope) }
        ensures failed { OnErr result (self.new ≡ self.old) }
        ensures keeps { Keeps self.old.store self.new.store }
        ensures rest { OnlyStore self.old self.new }
        ensures goes { Goes self.old self.new }
    {
        let origin = BuiltIn::List.origin(self.alloc)?;
        self.con(&origin, &[element])
    }

    /// An instance of a scheme by its root, with new variables of the present level.
    pub fn instance(&mut self, root: NodeRef) -> Result<NodeRef, NoMemory>
        ensures instance { IfOk result (λ m. IsNode self.old.store.nodes root.0 → Instantiated self.old.store.nodes self.new.store.nodes root.0 (level_for self.old.level) m.0) }
        ensures otherwise { IfOk result (λ m. (IsNode self.old.store.nodes root.0 → ⊥) → MakesVar self.old self.new m.0 any_scope) }
        ensures sound { OnOk result (IsNode self.old.store.nodes root.0 → IsSound self.new.store.nodes) }
        ensures failed { OnErr result (self.new ≡ self.old) }
        ensures keeps { Keeps self.old.store self.new.store }
        ensures rest { OnlyStore self.old self.new }
        ensures goes { Goes self.old self.new }
    {
        if is_node(&self.store, root) {
            let level = self.level.min(HIGHEST);
            let instance = instantiate(self.alloc, &mut self.store, root, level)?;
            // the store is sound, as its length makes known
            let _nodes = self.store.len();
            Ok(instance)
        } else {
            self.var()
        }
    }

    /// Binds the variables of a type that are above the present level.
    pub fn generalise(&mut self, root: NodeRef) -> Result<(), NoMemory>
        ensures bound { OnOk result (IsNode self.old.store.nodes root.0 → Generalised self.old.store.nodes self.new.store.nodes root.0 self.old.level) }
        ensures otherwise { OnOk result ((IsNode self.old.store.nodes root.0 → ⊥) → self.new ≡ self.old) }
        ensures sound { OnOk result (IsSound self.new.store.nodes) }
        ensures failed { OnErr result (self.new ≡ self.old) }
        ensures keeps { Keeps self.old.store self.new.store }
        ensures rest { OnlyStore self.old self.new }
        ensures goes { Goes self.old self.new }
    {
        // the store is sound, as its length makes known
        if !is_node(&self.store, root) {
            let _nodes = self.store.len();
            return Ok(());
        }
        generalise(self.alloc, &mut self.store, root, self.level)?;
        let _nodes = self.store.len();
        Ok(())
    }

    /// Makes two types one; after a fault the store is as before.
    pub fn unify(&mut self, a: NodeRef, b: NodeRef) -> Result<(), UnifyFault>
        ensures unified { OnOk result (IsNode self.old.store.nodes a.0 → IsNode self.old.store.nodes b.0 → MadeOne self.old.store.nodes self.new.store.nodes a.0 b.0) }
        ensures otherwise { (IsNode self.old.store.nodes a.0 → IsNode self.old.store.nodes b.0 → ⊥) → IsOk result × (self.new ≡ self.old) }
        ensures clash { IfErr result (λ e. (clash : Clash) → e ≡ UnifyFault.Clash clash → HaveNoBound self.old.store.nodes a.0 b.0 → Clashes self.old.store.nodes a b clash) }
        ensures nodes { OnErr result (IsNode self.old.store.nodes a.0 × IsNode self.old.store.nodes b.0) }
        ensures len { length self.new.store.nodes ≡ length self.old.store.nodes }
        ensures failed { OnErr result (self.new ≡ self.old) }
        ensures keeps { Keeps self.old.store self.new.store }
        ensures rest { OnlyStore self.old self.new }
        ensures goes { Goes self.old self.new }
    {
        if is_node(&self.store, a) && is_node(&self.store, b) {
            unify(self.alloc, &mut self.store, a, b)
        } else {
            Ok(())
        }
    }

    /// Makes two types one where that is possible.
    pub fn join(&mut self, a: NodeRef, b: NodeRef) -> Result<(), NoMemory>
        ensures joined { OnOk result (JoinedIfNodes self.old.store self.new.store a.0 b.0) }
        ensures len { length self.new.store.nodes ≡ length self.old.store.nodes }
        ensures failed { OnErr result (self.new ≡ self.old) }
        ensures keeps { Keeps self.old.store self.new.store }
        ensures rest { OnlyStore self.old self.new }
        ensures goes { Goes self.old self.new }
    {
        match self.unify(a, b) {
            Ok(()) => Ok(()),
            Err(UnifyFault::Clash(_)) => Ok(()),
            Err(UnifyFault::NoMemory) => Err(AllocError),
        }
    }

    /// Whether two types are one, or may be made one where unknown types stand in them.
    pub fn are_one(&mut self, a: NodeRef, b: NodeRef) -> Result<bool, NoMemory>
        ensures goes { Goes self.old self.new }
    {
        match self.unify(a, b) {
            Ok(()) => Ok(true),
            Err(UnifyFault::Clash(_)) => Ok(false),
            Err(UnifyFault::NoMemory) => Err(AllocError),
        }
    }

    /// Whether each instance of the wanted root's scheme is one of the actual root's; a mismatch leaves the store as before.
    pub fn covers(&mut self, actual: NodeRef, wanted: NodeRef) -> Result<bool, NoMemory>
        ensures compared { IfOk result (λ met. IsNode self.old.store.nodes actual.0 → IsNode self.old.store.nodes wanted.0 → KeepsOutRigid self.old.store.nodes actual.0 → KeepsOutRigid self.old.store.nodes wanted.0 → Compared self.old.store.nodes self.new.store.nodes actual.0 wanted.0 met) }
        ensures otherwise { (IsNode self.old.store.nodes actual.0 → IsNode self.old.store.nodes wanted.0 → ⊥) → (result ≡ Ok true) × (self.new ≡ self.old) }
        ensures mismatch { IfOk result (λ met. met ≡ false → self.new ≡ self.old) }
        ensures failed { OnErr result (self.new ≡ self.old) }
        ensures keeps { Keeps self.old.store self.new.store }
        ensures rest { OnlyStore self.old self.new }
        ensures goes { Goes self.old self.new }
    {
        if is_node(&self.store, actual) && is_node(&self.store, wanted) {
            let level = self.level.min(HIGHEST);
            covers(self.alloc, &mut self.store, actual, wanted, level)
        } else {
            Ok(true)
        }
    }

    /// Whether an unknown type stands in a type.
    pub fn has_unknown(&self, ty: NodeRef) -> Result<bool, NoMemory>
        ensures { IfOk result (λ has. IsNode self.now.store.nodes ty.0 → IsTrue has ↔ HasUnknown self.now.store.nodes ty.0) }
    {
        if is_node(&self.store, ty) {
            has_unknown(self.alloc, &self.store, ty)
        } else {
            Ok(false)
        }
    }

    /// The variables of a type get at most this level and this scope, where its origins allow it.
    pub fn limit(&mut self, ty: NodeRef, level: u32, scope: u64) -> Result<(), NoMemory>
        ensures limited { OnOk result ((mid : State) × (n : ℕ) × Makes self.old.store mid n (plain.Var (level_for level) scope) × JoinedIfNodes mid self.new.store n ty.0) }
        ensures sound { OnOk result (IsSound self.new.store.nodes) }
        ensures keeps { Keeps self.old.store self.new.store }
        ensures rest { OnlyStore self.old self.new }
        ensures goes { Goes self.old self.new }
    {
        let limit = self.store.var(level.min(HIGHEST), scope)?;
        self.join(limit, ty)?;
        // the store is sound, as its length makes known
        let _nodes = self.store.len();
        Ok(())
    }

    /// A mark of the present state of types.
    pub fn mark(&self) -> Mark
        ensures { result.0 ≡ length self.now.store.trail }
    {
        self.store.snapshot()
    }

    /// Brings back the types at a mark; nodes that were made since are nodes no longer.
    pub fn back_to(&mut self, mark: Mark)
        ensures restored { mark.0 ≤ length self.old.store.trail → Restored self.old.store self.new.store mark.0 }
        ensures otherwise { length self.old.store.trail < mark.0 → self.new ≡ self.old }
        ensures rest { OnlyStore self.old self.new }
    {
        if mark.0 <= self.store.snapshot().0 {
            self.store.rollback(mark);
        }
    }

    /// What a node reads as; None where it is no node of the store.
    pub fn read(&self, n: NodeRef) -> Option<View<'_>>
        ensures some { IfSome result (λ v. IsNode self.now.store.nodes n.0 × Shows v (root_of self.now.store.nodes n.0) (reading self.now.store.nodes n.0)) }
        ensures none { IfNone result (IsNode self.now.store.nodes n.0 → ⊥) }
    {
        if is_node(&self.store, n) {
            Some(self.store.read(n))
        } else {
            None
        }
    }

    /// The parts of a tuple; None where the node reads as something else.
    pub fn parts_of_tuple(&self, n: NodeRef) -> Option<&[NodeRef]>
        ensures some { IfSome result (λ ms. IsNode self.now.store.nodes n.0 × (reading self.now.store.nodes n.0 ≡ Some (plain.Tuple (numbers ms.now)))) }
        ensures none { IfNone result ((ms : List ℕ) → IsNode self.now.store.nodes n.0 → reading self.now.store.nodes n.0 ≡ Some (plain.Tuple ms) → ⊥) }
    {
        match self.read(n) {
            Some(View::Tuple(parts)) => Some(parts),
            _ => None,
        }
    }

    /// The two sides of an arrow; None where the node reads as something else.
    pub fn sides_of_arrow(&self, n: NodeRef) -> Option<(NodeRef, NodeRef)>
        ensures some { IfSome result (λ p. IsNode self.now.store.nodes n.0 × (reading self.now.store.nodes n.0 ≡ Some (plain.Arrow p.0.0 p.1.0))) }
        ensures none { IfNone result ((a b : ℕ) → IsNode self.now.store.nodes n.0 → reading self.now.store.nodes n.0 ≡ Some (plain.Arrow a b) → ⊥) }
    {
        match self.read(n) {
            Some(View::Arrow(from, to)) => Some((from, to)),
            _ => None,
        }
    }
}
