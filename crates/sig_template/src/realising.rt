//! Which types of an actual signature stand for the origins that a wanted one makes.
ghost use Rattle.std.specs.Prelude.{◌≡◌, ◌∷◌, List, [], IfOk, OnOk, option_map};
ghost use Rattle.std.specs.List.{AllZip};
ghost use Rattle.type_model.specs.Types.{Path as PlainPath};
ghost use Rattle.type_terms.specs.Views.{path_of};
ghost use Rattle.type_nodes.specs.Nodes.{Node};
ghost use Rattle.level_unify.specs.Copies.{Extends};
ghost use Rattle.scheme_match.specs.Unknown.{HasUnknown};
ghost use Rattle.env_table.specs.declared.entries.What.{out-What};
ghost use Rattle.env_table.specs.declared.entries.Entry.{Entry as PlainEntry};
ghost use Rattle.env_table.specs.Views.{kind_of};
ghost use Rattle.typing_state.specs.Goes.{Goes};
ghost use Rattle.type_reading.specs.Copying.{paths_of, AreDeclared};
ghost use Rattle.sig_template.specs.Realising.{Realises, a_declaration, an_unknown, declared_by, module_by, side_of, side_in, inner_side, newest_declared, given_for};
ghost use Rattle.sig_template.specs.Finding.{side_at, newest_on, made_by, IsBefore, AddsReal, IsUnknownFor, Gives, Finding, FindingAll};

use crate::shared::no_changes;
use env_table::{Declaration, Entry, Kind, Origin, Sig, Template, What};
use owned_lists::push;
use std::rc::Rc;
use type_reading::{
    Changes, Copies, ForBound, ForUnknown, Put, Real, copied_origin, is_among, unchanged,
};
use typing_state::{Depth, NoMemory, NodeRef, Parts};

/// The types of origins. The unknown types in them are open until they are closed.
#[derive(Drop)]
pub struct Realised {
    pub changes: Changes,
    pub opened: Vec<NodeRef>,
}

impl Realised {
    /// No origin has a type.
    fn nothing(at: &Parts) -> Realised
        ensures made { result.changes.made.items ≡ [] }
        ensures real { result.changes.real.items ≡ [] }
    {
        Realised {
            changes: no_changes(at),
            opened: Vec::new(at.alloc()),
        }
    }

    /// Closes the unknown types, once the types are put in. Where none is opened, all stays.
    pub fn close(&mut self, at: &mut Parts) -> Result<(), NoMemory>
        ensures none { OnOk result (self.old.opened.items ≡ [] → at.new ≡ at.old) }
        ensures closed { OnOk result (self.new.opened.items ≡ []) }
        ensures goes { Goes at.old at.new }
    {
        while let Some(n) = self.opened.pop() {
            at.quantify(n)?;
        }
        Ok(())
    }

    /// An unknown type stands for an origin.
    fn unknown(&mut self, at: &mut Parts, origin: &Origin) -> Result<(), NoMemory>
        ensures added { OnOk result ((nodes : List Node) → AddsReal nodes an_unknown (path_of origin.now) self.old.changes.real.items self.new.changes.real.items) }
        ensures made { OnOk result (self.new.changes.made ≡ self.old.changes.made) }
        ensures extends { OnOk result (Extends at.old.store.nodes at.new.store.nodes) }
        ensures goes { Goes at.old at.new }
    {
        let root = at.var_of_scope(0)?;
        push(&mut self.opened, root)?;
        let real = Real {
            origin: copied_origin(at, origin)?,
            root,
            arity: 0,
        };
        push(&mut self.changes.real, real)
    }

    /// The type of a declaration stands for an origin, with unknown types of the origin's own. Of the nodes only so many are older.
    fn declared(
        &mut self,
        at: &mut Parts,
        older: usize,
        origin: &Origin,
        actual: &Declaration,
    ) -> Result<(), NoMemory>
        ensures added { OnOk result ((before : List Node) → IsBefore before older at.old.store.nodes → AddsReal before (a_declaration actual.now) (path_of origin.now) self.old.changes.real.items self.new.changes.real.items) }
        ensures made { OnOk result (self.new.changes.made ≡ self.old.changes.made) }
        ensures extends { OnOk result (Extends at.old.store.nodes at.new.store.nodes) }
        ensures goes { Goes at.old at.new }
    {
        let root = self.root_for(at, older, actual.root)?;
        let real = Real {
            origin: copied_origin(at, origin)?,
            root,
            arity: actual.arity,
        };
        push(&mut self.changes.real, real)
    }

    /// A type, or where unknown types stand in it a copy with others in their places.
    fn root_for(&mut self, at: &mut Parts, older: usize, root: NodeRef) -> Result<NodeRef, NoMemory>
        ensures known { IfOk result (λ n. (before : List Node) → IsBefore before older at.old.store.nodes → (HasUnknown before root.0 → ⊥) → n ≡ root) }
        ensures changes { OnOk result (self.new.changes ≡ self.old.changes) }
        ensures extends { OnOk result (Extends at.old.store.nodes at.new.store.nodes) }
        ensures goes { Goes at.old at.new }
    {
        if (root.0 as usize) < older && at.has_unknown(root)? {
            opened_copy(at, &mut self.opened, root)
        } else {
            Ok(root)
        }
    }
}

/// A copy of a type with other unknown types, which are opened.
fn opened_copy(
    at: &mut Parts,
    opened: &mut Vec<NodeRef>,
    root: NodeRef,
) -> Result<NodeRef, NoMemory>
    ensures extends { OnOk result (Extends at.old.store.nodes at.new.store.nodes) }
    ensures goes { Goes at.old at.new }
{
    let none = no_changes(at);
    let how = unchanged(&none, ForBound::Itself, ForUnknown::Open);
    let mut copies = Copies::new(at);
    let root = copies.copy(at, root, how)?;
    for n in &copies.opened {
        push(opened, *n)?;
    }
    Ok(root)
}

/// The declaration of a type's entry.
fn declaration_in(entry: &Entry) -> Option<&Rc<Declaration>>
    ensures { option_map (λ d. d.now.value) result ≡ declared_by (out-What entry.now.what) }
{
    match &entry.what {
        What::Type(declaration) => Some(declaration),
        What::Scheme(_) => None,
        What::Constructor(_, _) => None,
        What::Exception(_) => None,
        What::Label(_, _) => None,
        What::Module(_) => None,
        What::ModuleType(_) => None,
    }
}

/// The signature of a module's entry.
fn sig_in(entry: &Entry) -> Option<&Rc<Sig>>
    ensures { option_map (λ s. s.now.value) result ≡ module_by (out-What entry.now.what) }
{
    match &entry.what {
        What::Module(sig) => Some(sig),
        What::Scheme(_) => None,
        What::Constructor(_, _) => None,
        What::Exception(_) => None,
        What::Label(_, _) => None,
        What::Type(_) => None,
        What::ModuleType(_) => None,
    }
}

/// The origin of a type's entry that is one of those made.
fn made_by<'a>(entry: &'a Entry, made: &[Origin]) -> Option<&'a Origin>
    ensures { option_map (λ o. path_of o.now) result ≡ made_by (paths_of made.now) (declared_by (out-What entry.now.what)) }
{
    match declaration_in(entry) {
        Some(declaration) => match &declaration.origin {
            Some(origin) if is_among(made, origin) => Some(origin),
            _ => None,
        },
        None => None,
    }
}

/// What stands on the actual side.
#[derive(Clone, Copy)]
enum Actual<'a> {
    /// Nothing.
    Nothing,
    /// A module that isn't known.
    Hole,
    Known(&'a Sig),
}

fn actual_of(sig: Option<&Rc<Sig>>) -> Actual<'_>
    ensures { side_at result ≡ side_in (option_map (λ s. s.now.value) sig.entry) }
{
    match sig {
        None => Actual::Nothing,
        Some(sig) => actual_as(sig),
    }
}

fn actual_as(sig: &Sig) -> Actual<'_>
    ensures { side_at result ≡ side_of sig.now }
{
    match sig {
        Sig::Hole => Actual::Hole,
        Sig::Structure(_) => Actual::Known(sig),
        Sig::Functor(_, _) => Actual::Known(sig),
    }
}

/// The newest of a kind and a name on the actual side.
fn newest<'a>(actual: Actual<'a>, kind: Kind, name: &str) -> Option<&'a Rc<Entry>>
    ensures { option_map (λ e. e.now.value) result ≡ newest_on (kind_of kind) name.now (side_at actual.entry) }
{
    match actual {
        Actual::Known(sig) => sig.entries().newest(kind, name),
        Actual::Hole => None,
        Actual::Nothing => None,
    }
}

/// The newest declaration of a name on the actual side.
fn newest_declaration<'a>(actual: Actual<'a>, name: &str) -> Option<&'a Rc<Declaration>>
    ensures { option_map (λ d. d.now.value) result ≡ newest_declared name.now (side_at actual.entry) }
{
    match newest(actual, Kind::TypeName, name) {
        Some(entry) => declaration_in(entry),
        None => None,
    }
}

/// What stands in the newest module of a name on the actual side; in one that isn't known all modules are so.
fn module_named<'a>(actual: Actual<'a>, name: &str) -> Actual<'a>
    ensures { side_at result ≡ inner_side name.now (side_at actual.entry) }
{
    if let Actual::Hole = actual {
        return Actual::Hole;
    }
    match newest(actual, Kind::Module, name) {
        Some(entry) => actual_of(sig_in(entry)),
        None => Actual::Nothing,
    }
}

/// The origins that are asked for, and how many nodes there were before.
#[derive(Clone, Copy)]
struct Asked<'a> {
    made: &'a [Origin],
    older: usize,
}

impl Realised {
    /// The type of an origin that a wanted type of this name makes; the first counts.
    fn origin(
        &mut self,
        at: &mut Parts,
        older: usize,
        origin: &Origin,
        actual: Actual<'_>,
        name: &str,
    ) -> Result<(), NoMemory>
        ensures gives { OnOk result ((before : List Node) → IsBefore before older at.old.store.nodes → Gives before (given_for name.now (side_at actual.entry)) (path_of origin.now) self.old.changes.real.items self.new.changes.real.items) }
        ensures made { OnOk result (self.new.changes.made ≡ self.old.changes.made) }
        ensures extends { OnOk result (Extends at.old.store.nodes at.new.store.nodes) }
        ensures goes { Goes at.old at.new }
    {
        if let Put::Type { .. } = self.changes.put(origin) {
            return Ok(());
        }
        if let Actual::Hole = actual {
            return self.unknown(at, origin);
        }
        match newest_declaration(actual, name) {
            Some(declaration) => self.declared(at, older, origin, declaration),
            None => Ok(()),
        }
    }

    #[cycle(realising)]
    fn entry(
        &mut self,
        at: &mut Parts,
        asked: Asked<'_>,
        actual: Actual<'_>,
        wanted: &Entry,
        depth: Depth,
    ) -> Result<(), NoMemory>
        ensures found { OnOk result ((before : List Node) → IsBefore before asked.entry.older at.old.store.nodes → (es : List PlainEntry) (o : PlainPath) → Finding before (paths_of asked.entry.made.now) o (side_at actual.entry) es (wanted.now ∷ es) self.old.changes.real.items self.new.changes.real.items) }
        ensures made { OnOk result (self.new.changes.made ≡ self.old.changes.made) }
        ensures extends { OnOk result (Extends at.old.store.nodes at.new.store.nodes) }
        ensures goes { Goes at.old at.new }
    {
        if let Some(origin) = made_by(wanted, asked.made) {
            return self.origin(at, asked.older, origin, actual, wanted.name.as_str());
        }
        match sig_in(wanted) {
            None => Ok(()),
            Some(sig) => {
                let inner = module_named(actual, wanted.name.as_str());
                self.module(at, asked, inner, sig, depth.inside()?)
            }
        }
    }

    #[cycle(realising)]
    fn module(
        &mut self,
        at: &mut Parts,
        asked: Asked<'_>,
        actual: Actual<'_>,
        wanted: &Sig,
        depth: Depth,
    ) -> Result<(), NoMemory>
        ensures found { OnOk result ((before : List Node) → IsBefore before asked.entry.older at.old.store.nodes → (o : PlainPath) → FindingAll before (paths_of asked.entry.made.now) o (side_at actual.entry) wanted.now self.old.changes.real.items self.new.changes.real.items) }
        ensures made { OnOk result (self.new.changes.made ≡ self.old.changes.made) }
        ensures extends { OnOk result (Extends at.old.store.nodes at.new.store.nodes) }
        ensures goes { Goes at.old at.new }
    {
        match wanted {
            Sig::Structure(components) => {
                for entry in &components.entries {
                    self.entry(at, asked, actual, entry, depth.inside()?)?;
                }
                Ok(())
            }
            Sig::Functor(_, _) => Ok(()),
            Sig::Hole => Ok(()),
        }
    }

    /// Each origin gets an unknown type.
    fn all_unknown(&mut self, at: &mut Parts, origins: &[Origin]) -> Result<(), NoMemory>
        ensures unknown { OnOk result (self.old.changes.real.items ≡ [] → AllZip IsUnknownFor origins.now self.new.changes.real.items) }
        ensures made { OnOk result (self.new.changes.made ≡ self.old.changes.made) }
        ensures extends { OnOk result (Extends at.old.store.nodes at.new.store.nodes) }
        ensures goes { Goes at.old at.new }
    {
        for origin in origins {
            self.unknown(at, origin)?;
        }
        Ok(())
    }

    /// Each origin of a wanted signature gets its type, where none has one yet.
    fn realise(
        &mut self,
        at: &mut Parts,
        older: usize,
        actual: &Sig,
        wanted: &Template,
    ) -> Result<(), NoMemory>
        ensures realises { OnOk result (self.old.changes.made.items ≡ [] → self.old.changes.real.items ≡ [] → (before : List Node) → IsBefore before older at.old.store.nodes → Realises before actual.now wanted.now self.new) }
        ensures extends { OnOk result (Extends at.old.store.nodes at.new.store.nodes) }
        ensures goes { Goes at.old at.new }
    {
        let asked = Asked {
            made: &wanted.made,
            older,
        };
        match actual {
            Sig::Hole => self.all_unknown(at, &wanted.made),
            Sig::Structure(_) => {
                self.module(at, asked, Actual::Known(actual), &wanted.sig, Depth::WHOLE)
            }
            Sig::Functor(_, _) => {
                self.module(at, asked, Actual::Known(actual), &wanted.sig, Depth::WHOLE)
            }
        }
    }
}

/// The types of an actual signature that stand for the origins of a wanted one: of each the newest component of its name.
/// A signature that isn't known gives unknown types. What were types of declarations still are.
pub fn realisation(at: &mut Parts, actual: &Sig, wanted: &Template) -> Result<Realised, NoMemory>
    ensures realises { IfOk result (λ r. Realises at.old.store.nodes actual.now wanted.now r) }
    ensures declared { IfOk result (λ r. AreDeclared at.old.store.nodes r.changes.real.items → AreDeclared at.new.store.nodes r.changes.real.items) }
    ensures extends { OnOk result (Extends at.old.store.nodes at.new.store.nodes) }
    ensures goes { Goes at.old at.new }
{
    let older = at.store.len();
    let mut realised = Realised::nothing(at);
    realised.realise(at, older, actual, wanted)?;
    Ok(realised)
}
