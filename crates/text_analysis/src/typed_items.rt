//! The items of a text, typed in order on one store, with the point before each.
ghost use Rattle.std.specs.Prelude.{◌≡◌, ◌≤◌, ◌+◌, ◌-◌, ◌++◌, ◌∷◌, [], ℕ, List, length, drop, take, true, false, IfOk, OnOk, OnErr};
ghost use Rattle.tree_model.specs.Trees.{inner};
ghost use Rattle.syntax_tree.specs.Tallies.{Grows};
ghost use Rattle.syntax_tree.specs.View.{node_view};
ghost use Rattle.row_parts.specs.Numbered.{node_with};
ghost use Rattle.type_nodes.specs.Views.{numbers};
ghost use Rattle.env_table.specs.declared.entries.Entry.{Entry};
ghost use Rattle.typing_state.specs.declared.parts.Parts.{Parts};
ghost use Rattle.binding_rows.specs.ItemRows.{IsCarriedItemOperand};
ghost use Rattle.module_typing.specs.Items.{NamesNone};
ghost use Rattle.sig_template.specs.Structures.{entries_of};
ghost use Rattle.weak_variables.specs.Free.{AreAllValues, FreeOf, IsFound, IsRoot};
ghost use Rattle.weak_variables.specs.Listed.{AreListedIn, Finds, Lists};
ghost use Rattle.weak_variables.specs.Search.{is_listed, lists_of};
ghost use Rattle.analysis_api.specs.Typed.{more_typed};
ghost use Rattle.text_analysis.specs.Items.{views_of};
ghost use Rattle.text_analysis.specs.Given.{NoneStands, Opens};
ghost use Rattle.text_analysis.specs.Points.{GoesBack, GoesOnFrom, IsPointOf};
ghost use Rattle.text_analysis.specs.Typed.{AreTyped, EndsAfter, IsBegun};

use crate::point::{Point, go_back};
use env_table::{Entry, Kind};
use module_typing::{Scene, type_item};
use owned_lists::{push, shared};
use row_parts::Operand;
use std::alloc::{AllocError, Global};
use std::mem;
use std::rc::Rc;
use syntax_tree::{Counts, Node, RowName};
use typing_state::{Depth, Env, NoMemory, NodeRef, Parts};
use weak_variables::{Search, free_in};

/// The items of a text so far, typed in order on one store. Each call leaves them whole: where memory runs out in the middle of an
/// item, the state before it is brought back.
#[derive(Drop)]
pub struct TypedItems {
    pub parts: Parts,
    pub scene: Scene,
    /// Whether the names of types, modules and module types in the scene are those of the items; they are found again where not.
    is_named: bool,
    /// Whether no item names a type, a module or a module type.
    pub is_plain: bool,
    /// One for each item.
    pub points: Vec<Point>,
    pub items: Vec<Rc<Node>>,
    /// For each item, the variables that were free after it in the types of its own names. Later items may give types to these, and
    /// make no other variable free in them.
    free: Vec<Vec<NodeRef>>,
}

/// The number of the item at a place. Items are counted from 1, and memory is short for one that no number is left for.
fn item_number(place: usize) -> Result<u32, NoMemory>
    ensures { IfOk result (λ n. n ≡ place + 1) }
{
    let Ok(place) = u32::try_from(place) else {
        return Err(AllocError);
    };
    match place.checked_add(1) {
        Some(number) => Ok(number),
        None => Err(AllocError),
    }
}

/// Whether an item names no type, module or module type.
fn names_none(item: &Node) -> bool
    ensures none { result ≡ true → NamesNone (inner (node_view item.now)) }
    ensures carried { IsCarriedItemOperand (node_with 0 (node_view item.now)) → result ≡ true }
{
    matches!(item.row, RowName::Let | RowName::Break | RowName::Exception)
}

/// The variables that are free in the types of the names from a place on, and aren't listed yet.
fn find_free(
    at: &Parts,
    entries: &[Rc<Entry>],
    place: usize,
    search: &mut Search,
) -> Result<Vec<NodeRef>, NoMemory>
    ensures lists { IfOk result (λ own. Lists (is_listed search.old) (is_listed search.new) [] (numbers own.items)) }
    ensures finds { IfOk result (λ own. AreAllValues (entries_of (drop place entries.now)) → Finds at.now.store.nodes (IsRoot (entries_of (drop place entries.now))) (is_listed search.old) (is_listed search.new) [] (numbers own.items)) }
{
    match entries.get(place..) {
        Some(entries) => search.free_of(at, entries),
        None => Ok(Vec::new(at.alloc())),
    }
}

/// Whether one of these entries names a type, a module or a module type.
fn name_some(entries: &[Rc<Entry>]) -> bool {
    entries.iter().any(|entry| {
        matches!(entry.kind, Kind::TypeName | Kind::Module | Kind::ModuleType)
    })
}

/// Gives a scene another environment, and forgets its names of types, modules and module types; its components stay.
fn forget_names(alloc: Global, scene: &mut Scene, env: Env)
    ensures env { scene.new.env ≡ env }
    ensures none { NoneStands scene.new }
{
    let old = mem::replace(scene, Scene::new(alloc, env));
    scene.components = old.components;
    scene.makes = old.makes;
}

/// Brings back the scene of a point. Answers whether the names of types, modules and module types are still those of the components:
/// they are where none was named before the point, and where what is cut off names none.
fn cut_scene(alloc: Global, scene: &mut Scene, point: Point) -> bool
    ensures scope { scene.new.env ≡ point.env }
    ensures none { point.is_plain ≡ true → NoneStands scene.new }
{
    let is_named = match scene.components.get(point.components..) {
        Some(entries) => !name_some(entries),
        None => true,
    };
    scene.components.truncate(point.components);
    scene.makes.truncate(point.makes);
    if point.is_plain {
        forget_names(alloc, scene, point.env);
        return true;
    }
    scene.env = point.env;
    is_named
}

impl TypedItems {
    /// No items yet, after a prelude that leaves these names in scope.
    pub fn new(parts: Parts, first: Env) -> TypedItems
        ensures items { result.items.items ≡ [] }
        ensures typed { Opens parts first → AreTyped parts first result }
    {
        let alloc = parts.alloc();
        TypedItems {
            parts,
            scene: Scene::new(alloc, first),
            is_named: true,
            is_plain: true,
            points: Vec::new(alloc),
            items: Vec::new(alloc),
            free: Vec::new(alloc),
        }
    }

    /// Where the typing is now, before the item of this number.
    fn point(&self, number: u32) -> Result<Point, NoMemory>
        ensures { IfOk result (λ p. IsPointOf p number self.now.parts self.now.scene self.now.is_plain) }
    {
        Ok(Point {
            number,
            mark: self.parts.store.snapshot(),
            faults: self.parts.faults.list.len(),
            env: self.scene.env.share()?,
            components: self.scene.components.len(),
            makes: self.scene.makes.len(),
            is_plain: self.is_plain,
        })
    }

    /// Goes back to a point, with the items as they are, and what was found for them.
    fn go_back(&mut self, point: Point)
        ensures items { self.new.items ≡ self.old.items }
        ensures points { self.new.points ≡ self.old.points }
        ensures plain { self.new.is_plain ≡ point.is_plain }
        ensures parts { GoesBack point self.old.parts self.new.parts }
        ensures scope { self.new.scene.env ≡ point.env }
        ensures none { point.is_plain ≡ true → NoneStands self.new.scene }
        ensures free { self.new.free.items ≡ take (length self.old.items.items) self.old.free.items }
    {
        go_back(&mut self.parts, &point);
        self.free.truncate(self.items.len());
        self.is_plain = point.is_plain;
        let is_named = cut_scene(self.parts.alloc(), &mut self.scene, point);
        self.is_named = self.is_plain || (self.is_named && is_named);
    }

    /// Goes back to the last point, which is no longer there after this.
    fn go_back_to_last(&mut self)
        ensures items { self.new.items ≡ self.old.items }
        ensures typed { (first : Parts) (env : List Entry) → IsBegun first env self.old → AreTyped first env self.new }
    {
        if let Some(point) = self.points.pop() {
            self.go_back(point);
        }
    }

    /// Finds the names of types, modules and module types again, where they may not be those of the items.
    fn find_names(&mut self) -> Result<(), NoMemory>
        ensures items { self.new.items ≡ self.old.items }
        ensures typed { (first : Parts) (env : List Entry) → AreTyped first env self.old → AreTyped first env self.new }
    {
        if self.is_plain || self.is_named {
            return Ok(());
        }
        let env = self.scene.env.share()?;
        let components = self.scene.components.len();
        let makes = self.scene.makes.len();
        self.scene = self.scene.front(&self.parts, env, components, makes)?;
        self.is_named = true;
        Ok(())
    }

    /// Forgets the items from this place on, with all that was found and changed since the first of them was begun.
    pub fn cut(&mut self, place: usize) -> Result<(), NoMemory>
        ensures items { self.new.items.items ≡ take place self.old.items.items }
        ensures typed { (first : Parts) (env : List Entry) → AreTyped first env self.old → AreTyped first env self.new }
    {
        self.items.truncate(place);
        if place >= self.points.len() {
            return self.find_names();
        }
        self.points.truncate(place + 1);
        self.go_back_to_last();
        self.find_names()
    }

    /// Whether no item names a type, a module or a module type, this one with the others.
    fn stays_plain(&self, item: &Node) -> bool
        ensures none { result ≡ true → (self.now.is_plain ≡ true) × NamesNone (inner (node_view item.now)) }
        ensures carried { IsCarriedItemOperand (node_with 0 (node_view item.now)) → self.now.is_plain ≡ true → result ≡ true }
    {
        self.is_plain && names_none(item)
    }

    /// Types an item with this number after the others; their point stays.
    fn type_after(
        &mut self,
        number: u32,
        item: &Rc<Node>,
        search: &mut Search,
    ) -> Result<(), NoMemory>
        ensures points { self.new.points ≡ self.old.points }
        ensures done { OnOk result (views_of self.new.items.items ≡ views_of self.old.items.items ++ views_of (item.now ∷ [])) }
        ensures failed { OnErr result (self.new.items.items ≡ self.old.items.items) }
        ensures goes { GoesOnFrom self.old.parts number self.new.parts }
        ensures free { take (length self.old.free.items) self.new.free.items ≡ self.old.free.items }
        ensures listed { OnOk result (AreListedIn (is_listed search.old) (lists_of self.old.free.items) → AreListedIn (is_listed search.new) (lists_of self.new.free.items)) }
        ensures ends { OnOk result (number ≡ length self.old.items.items + 1 → AreListedIn (is_listed search.old) (lists_of self.old.free.items) → (first : Parts) (env : List Entry) → EndsAfter first env self.old → EndsAfter first env self.new) }
    {
        let components = self.scene.components.len();
        self.parts.item = number;
        self.parts.written.variables.clear();
        type_item(
            &mut self.parts,
            Operand::of(item, 0),
            &mut self.scene,
            Depth::WHOLE,
        )?;
        let own = find_free(&self.parts, &self.scene.components, components, search)?;
        push(&mut self.free, own)?;
        push(&mut self.items, shared(item)?)?;
        self.is_plain = self.stays_plain(item);
        Ok(())
    }

    /// Types one more item.
    fn type_next(&mut self, item: &Rc<Node>, search: &mut Search) -> Result<(), NoMemory>
        ensures done { OnOk result (views_of self.new.items.items ≡ views_of self.old.items.items ++ views_of (item.now ∷ [])) }
        ensures failed { OnErr result (views_of self.new.items.items ≡ views_of self.old.items.items) }
        ensures listed { OnOk result (AreListedIn (is_listed search.old) (lists_of self.old.free.items) → AreListedIn (is_listed search.new) (lists_of self.new.free.items)) }
        ensures typed { AreListedIn (is_listed search.old) (lists_of self.old.free.items) → (first : Parts) (env : List Entry) → AreTyped first env self.old → AreTyped first env self.new }
    {
        let number = item_number(self.items.len())?;
        let point = self.point(number)?;
        push(&mut self.points, point)?;
        let typed = self.type_after(number, item, search);
        if typed.is_err() {
            self.is_named = false;
            self.go_back_to_last();
        }
        typed
    }

    /// Types the items from a place on, each of which is counted.
    pub fn go_on<C: Counts>(
        &mut self,
        items: &[Rc<Node>],
        place: usize,
        counts: &mut C,
    ) -> Result<(), NoMemory>
        requires within { place ≤ length items.now }
        requires front { views_of self.old.items.items ≡ take place (views_of items.now) }
        ensures done { OnOk result (views_of self.new.items.items ≡ views_of items.now) }
        ensures failed { OnErr result ((n : ℕ) × (place + n ≤ length items.now) × (views_of self.new.items.items ≡ take (place + n) (views_of items.now)) × ((C.tallies counts.new).typed ≡ more_typed n (C.tallies counts.old).typed)) }
        ensures typed { OnOk result ((C.tallies counts.new).typed ≡ more_typed (length items.now - place) (C.tallies counts.old).typed) }
        ensures unlexed { (C.tallies counts.new).lexed ≡ (C.tallies counts.old).lexed }
        ensures unshifted { (C.tallies counts.new).shifted ≡ (C.tallies counts.old).shifted }
        ensures grows { Grows (C.tallies counts.old) (C.tallies counts.new) }
        ensures chained { (first : Parts) (env : List Entry) → AreTyped first env self.old → AreTyped first env self.new }
    {
        let mut search = Search::new(self.parts.alloc());
        for k in place..items.len() {
            self.type_next(&items[k], &mut search)?;
            counts.add_typed();
        }
        Ok(())
    }

    /// The variables that are free in the types of the items' names, each by its root.
    pub fn weak(&self) -> Result<Vec<NodeRef>, NoMemory>
        ensures { IfOk result (λ ws. FreeOf self.now.parts.store.nodes (IsFound (lists_of self.now.free.items)) (numbers ws.items)) }
    {
        free_in(&self.parts, &self.free)
    }
}
