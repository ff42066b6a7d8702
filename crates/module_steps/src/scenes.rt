//! Where a structure or a signature stands while its items are typed.
ghost use Rattle.std.specs.Prelude.{◌≡◌, ◌∷◌, ◌++◌, [], ℕ, List, false, if◌then◌else◌, true, option_map, take, IfOk, OnOk, OnErr};
ghost use Rattle.std.specs.Str.{bytes_eq};
ghost use Rattle.std.specs.HashSet.{contains_text};
ghost use Rattle.env_table.specs.declared.entries.Kind.{Kind};
ghost use Rattle.env_table.specs.Views.{names_in, inside_sig};
ghost use Rattle.typing_state.specs.Goes.{Goes, faults_of, OnlyFaults, OnlyIndex};
ghost use Rattle.sig_template.specs.Structures.{entries_of};
ghost use Rattle.module_steps.specs.Listed.{seen_values, components_of};
ghost use Rattle.type_reading.specs.Copying.{paths_of};
ghost use Rattle.module_steps.specs.Scenes.{has_name, SameNames, NamesOne, OnlyNames, told_again, ToldTwice, repeated, with_names, AsksNew, AddsNamed, AddsEntry};

use crate::lists::{add_entries, add_origins};
use env_table::{Entry, Kind, Origin, Place, Sig, What};
use owned_lists::{owned, push, shared};
use std::alloc::{AllocError, Global};
use std::collections::HashSet;
use std::rc::Rc;
use syntax_tree::{Span, Token};
use typing_state::{Env, NoMemory, Parts};

/// The names in scope behind the items so far, their components, the origins that they make, and the names of their types,
/// modules and module types.
#[derive(Drop)]
pub struct Scene {
    pub env: Env,
    pub components: Vec<Rc<Entry>>,
    pub makes: Vec<Origin>,
    types: HashSet<String>,
    modules: HashSet<String>,
    module_types: HashSet<String>,
}

/// Whether a name was among these; it is after this.
fn was_there(alloc: Global, names: &mut HashSet<String>, name: &str) -> Result<bool, NoMemory>
    ensures there { IfOk result (λ there. there ≡ contains_text names.old name.now) }
    ensures added { OnOk result ((n : List ℕ) → contains_text names.new n ≡ (if bytes_eq name.now n then true else contains_text names.old n)) }
    ensures failed { OnErr result ((n : List ℕ) → contains_text names.new n ≡ contains_text names.old n) }
{
    if names.contains(name) {
        return Ok(true);
    }
    let Ok(key) = String::from_str(alloc, name) else {
        return Err(AllocError);
    };
    let Ok(_) = names.insert(key) else {
        return Err(AllocError);
    };
    Ok(false)
}

/// The names of an item's own entry and of its parameters.
fn in_front(
    alloc: Global,
    entry: &Rc<Entry>,
    parameters: Vec<Option<Rc<Entry>>>,
) -> Result<Vec<Option<Rc<Entry>>>, NoMemory>
    ensures { IfOk result (λ r. seen_values r.items ≡ Some entry.now.value ∷ seen_values parameters.items) }
{
    let mut names = parameters;
    let entry = shared(entry)?;
    match names.insert(0, Some(entry)) {
        Ok(()) => Ok(names),
        Err(_) => Err(AllocError),
    }
}

/// The first of some values, so many where there are as many.
fn first_of<T: Drop>(values: &[T], count: usize) -> &[T]
    ensures { result.now ≡ take count values.now }
{
    match values.get(..count) {
        Some(front) => front,
        None => values,
    }
}

impl Scene {
    /// Before the first item.
    pub fn new(alloc: Global, env: Env) -> Scene
        ensures env { result.env ≡ env }
        ensures components { result.components.items ≡ [] }
        ensures makes { result.makes.items ≡ [] }
        ensures names { (k : Kind) (n : List ℕ) → has_name result k n ≡ false }
    {
        Scene {
            env,
            components: Vec::new(alloc),
            makes: Vec::new(alloc),
            types: HashSet::new(alloc),
            modules: HashSet::new(alloc),
            module_types: HashSet::new(alloc),
        }
    }

    /// Whether a name of a kind stood here; it stands here after this. Names of values, constructors and labels may stand any
    /// number of times.
    fn note(&mut self, alloc: Global, kind: Kind, name: &str) -> Result<bool, NoMemory>
        ensures again { IfOk result (λ again. again ≡ has_name self.old kind name.now) }
        ensures noted { OnOk result (NamesOne self.old self.new kind name.now) }
        ensures failed { OnErr result (SameNames self.old self.new) }
        ensures rest { OnlyNames self.old self.new }
    {
        match kind {
            Kind::TypeName => was_there(alloc, &mut self.types, name),
            Kind::Module => was_there(alloc, &mut self.modules, name),
            Kind::ModuleType => was_there(alloc, &mut self.module_types, name),
            Kind::Value => Ok(false),
            Kind::Constructor => Ok(false),
            Kind::Label => Ok(false),
        }
    }

    /// The demand that a name of a kind is new, told at this span.
    fn ask(&mut self, at: &mut Parts, kind: Kind, span: Span, name: &str) -> Result<(), NoMemory>
        ensures told { OnOk result (ToldTwice at.old.telling (faults_of at.old) (faults_of at.new) span (told_again (has_name self.old kind name.now) name.now)) }
        ensures noted { OnOk result (NamesOne self.old self.new kind name.now) }
        ensures rest { OnlyNames self.old self.new }
        ensures faults { OnlyFaults at.old at.new }
        ensures goes { Goes at.old at.new }
    {
        if self.note(at.alloc(), kind, name)? {
            at.twice(span, name)?;
        }
        Ok(())
    }

    /// The demand that a name of a kind is new.
    pub fn ask_new(
        &mut self,
        at: &mut Parts,
        kind: Kind,
        name: Option<&Token>,
    ) -> Result<(), NoMemory>
        ensures asked { OnOk result (AsksNew (option_map (λ t. t.now) name.entry) kind self.old self.new at.old at.new) }
        ensures rest { OnlyNames self.old self.new }
        ensures faults { OnlyFaults at.old at.new }
        ensures goes { Goes at.old at.new }
    {
        match name {
            Some(name) => self.ask(at, kind, name.span, name.name.as_str()),
            None => Ok(()),
        }
    }

    /// Goes on behind an item that adds entries, in order.
    pub fn add(&mut self, env: Env, entries: &[Rc<Entry>]) -> Result<(), NoMemory>
        ensures env { OnOk result (self.new.env ≡ env) }
        ensures components { OnOk result (entries_of self.new.components.items ≡ entries_of self.old.components.items ++ entries_of entries.now) }
        ensures makes { self.new.makes ≡ self.old.makes }
        ensures names { SameNames self.old self.new }
    {
        add_entries(&mut self.components, entries)?;
        self.env = env;
        Ok(())
    }

    /// Origins that an item makes.
    pub fn add_made(&mut self, at: &Parts, origins: &[Origin]) -> Result<(), NoMemory>
        ensures makes { OnOk result (paths_of self.new.makes.items ≡ paths_of self.old.makes.items ++ paths_of origins.now) }
        ensures env { self.new.env ≡ self.old.env }
        ensures components { self.new.components ≡ self.old.components }
        ensures names { SameNames self.old self.new }
    {
        add_origins(at, &mut self.makes, origins)
    }

    /// Records an item that names something, and goes on behind it. The names of its parameters stand behind its own.
    pub fn add_named(
        &mut self,
        at: &mut Parts,
        number: u32,
        name: Option<&Token>,
        kind: Kind,
        what: What,
        parameters: Vec<Option<Rc<Entry>>>,
    ) -> Result<(), NoMemory>
        ensures added { OnOk result (AddsNamed (option_map (λ t. t.now) name.entry) self.old self.new at.old at.new number kind what (seen_values parameters.items)) }
        ensures makes { self.new.makes ≡ self.old.makes }
        ensures names { SameNames self.old self.new }
        ensures rest { OnlyIndex at.old at.new }
        ensures goes { Goes at.old at.new }
    {
        match name {
            Some(token) => self.add_entry(at, number, token, kind, what, parameters),
            None => at.note(number, &self.env, None, parameters),
        }
    }

    /// The same with its name.
    fn add_entry(
        &mut self,
        at: &mut Parts,
        number: u32,
        token: &Token,
        kind: Kind,
        what: What,
        parameters: Vec<Option<Rc<Entry>>>,
    ) -> Result<(), NoMemory>
        ensures added { OnOk result (AddsEntry self.old self.new at.old at.new number token.now kind what (seen_values parameters.items)) }
        ensures makes { self.new.makes ≡ self.old.makes }
        ensures names { SameNames self.old self.new }
        ensures rest { OnlyIndex at.old at.new }
        ensures goes { Goes at.old at.new }
    {
        let entry = Entry {
            name: token.name.share()?,
            kind,
            place: Place::Buffer(token.span),
            what,
        };
        let entry = owned(at.alloc(), entry)?;
        let names = in_front(at.alloc(), &entry, parameters)?;
        at.note(number, &self.env, None, names)?;
        self.env = self.env.add(at.alloc(), shared(&entry)?)?;
        push(&mut self.components, entry)
    }

    /// Opens a module: what stands in it is in scope, and no component.
    pub fn open(&mut self, at: &Parts, sig: &Sig) -> Result<(), NoMemory>
        ensures opened { OnOk result (self.new.env ≡ names_in (inside_sig sig.now) ++ self.old.env) }
        ensures components { self.new.components ≡ self.old.components }
        ensures makes { self.new.makes ≡ self.old.makes }
        ensures names { SameNames self.old self.new }
    {
        self.env = self.env.open_module(at.alloc(), sig)?;
        Ok(())
    }

    /// The demand that the name of each entry is new, in order, told at this span.
    fn ask_all(&mut self, at: &mut Parts, span: Span, entries: &[Rc<Entry>]) -> Result<(), NoMemory>
        ensures told { OnOk result (ToldTwice at.old.telling (faults_of at.old) (faults_of at.new) span (repeated (has_name self.old) (entries_of entries.now))) }
        ensures noted { OnOk result ((k : Kind) (n : List ℕ) → has_name self.new k n ≡ with_names (has_name self.old) (entries_of entries.now) k n) }
        ensures rest { OnlyNames self.old self.new }
        ensures faults { OnlyFaults at.old at.new }
        ensures goes { Goes at.old at.new }
    {
        for entry in entries {
            self.ask(at, entry.kind, span, entry.name.as_str())?;
        }
        Ok(())
    }

    /// Includes the components of a signature. Each type, module and module type is new among the names in front and those
    /// that are included with it, reported at the item.
    pub fn include(&mut self, at: &mut Parts, span: Span, sig: &Sig) -> Result<(), NoMemory>
        ensures env { OnOk result (self.new.env ≡ names_in (inside_sig sig.now) ++ self.old.env) }
        ensures components { OnOk result (entries_of self.new.components.items ≡ entries_of self.old.components.items ++ components_of sig.now) }
        ensures told { OnOk result (ToldTwice at.old.telling (faults_of at.old) (faults_of at.new) span (repeated (has_name self.old) (components_of sig.now))) }
        ensures noted { OnOk result ((k : Kind) (n : List ℕ) → has_name self.new k n ≡ with_names (has_name self.old) (components_of sig.now) k n) }
        ensures makes { self.new.makes ≡ self.old.makes }
        ensures faults { OnlyFaults at.old at.new }
        ensures goes { Goes at.old at.new }
    {
        match sig {
            Sig::Structure(components) => {
                self.ask_all(at, span, &components.entries)?;
                self.open(at, sig)?;
                add_entries(&mut self.components, &components.entries)
            }
            Sig::Functor(_, _) => Ok(()),
            Sig::Hole => Ok(()),
        }
    }

    /// The name of each entry stands here after this.
    fn note_all(&mut self, alloc: Global, entries: &[Rc<Entry>]) -> Result<(), NoMemory>
        ensures noted { OnOk result ((k : Kind) (n : List ℕ) → has_name self.new k n ≡ with_names (has_name self.old) (entries_of entries.now) k n) }
        ensures rest { OnlyNames self.old self.new }
    {
        for entry in entries {
            self.note(alloc, entry.kind, entry.name.as_str())?;
        }
        Ok(())
    }

    /// A scene with fewer items: this environment, the first of the components and of the origins, and the names of these
    /// components alone.
    pub fn front(
        &self,
        at: &Parts,
        env: Env,
        components: usize,
        makes: usize,
    ) -> Result<Scene, NoMemory>
        ensures env { IfOk result (λ s. s.env ≡ env) }
        ensures components { IfOk result (λ s. entries_of s.components.items ≡ entries_of (take components self.now.components.items)) }
        ensures makes { IfOk result (λ s. paths_of s.makes.items ≡ paths_of (take makes self.now.makes.items)) }
        ensures names { IfOk result (λ s. (k : Kind) (n : List ℕ) → has_name s k n ≡ with_names (λ j m. false) (entries_of (take components self.now.components.items)) k n) }
    {
        let mut scene = Scene::new(at.alloc(), env);
        let front = first_of(self.components.as_slice(), components);
        scene.note_all(at.alloc(), front)?;
        add_entries(&mut scene.components, front)?;
        add_origins(at, &mut scene.makes, first_of(self.makes.as_slice(), makes))?;
        Ok(scene)
    }
}
