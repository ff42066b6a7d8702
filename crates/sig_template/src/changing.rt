//! A signature with something else in the place of origins.
ghost use Rattle.std.specs.Prelude.{◌≡◌, [], All, List, Option, Some, map, option_map, IfOk};
ghost use Rattle.std.specs.List.{AllZip};
ghost use Rattle.type_terms.specs.Views.{path_of};
ghost use Rattle.type_nodes.specs.Nodes.{Node, IsNode};
ghost use Rattle.type_nodes.specs.Readings.{Types};
ghost use Rattle.typing_state.specs.Goes.{Goes};
ghost use Rattle.type_reading.specs.Copying.{change_by, paths_of, AreDeclared, IsChanged};
ghost use Rattle.sig_template.specs.Ways.{components_of};
ghost use Rattle.sig_template.specs.Changed.{origin_after, IsChangedConstructor, IsChangedLabel, IsChangedShape, IsChangedDeclaration, IsChangedSig};
ghost use Rattle.sig_template.specs.Live.{IsLiveConstructor, IsLiveLabel, IsLiveShape, IsLiveDeclaration, AreLive};
ghost use Rattle.sig_template.specs.Turns.{Turns, IsTurnedWhat, IsTurnedEntry, IsTurnedTemplate, IsLiveWithin, IsLiveThrough, IsLiveTemplate};

use crate::shared::share_declaration;
use env_table::{
    Components, Constructor, Declaration, Entry, Label, Origin, Shape, Sig, Template, What,
};
use owned_lists::{owned, push};
use std::rc::Rc;
use type_nodes::View;
use type_reading::{
    Changes, Copies, Copying, ForBound, ForUnknown, Put, copied_origin, in_front, is_among,
};
use typing_state::{Depth, NoMemory, NodeRef, Parts};

/// A change under way.
#[derive(Clone, Copy)]
struct Changing<'a> {
    changes: &'a Changes,
}

/// The last declaration that was copied. The constructors and labels behind it are its own.
#[derive(Drop)]
struct Latest {
    declaration: Option<Rc<Declaration>>,
}

impl<'a> Changing<'a> {
    fn ty(self, at: &mut Parts, copies: &mut Copies, n: NodeRef) -> Result<NodeRef, NoMemory>
        ensures changed { IfOk result (λ m. Turns self.entry.changes.now (λ ns. IsNode ns n.0) (λ ns. IsChanged ns (change_by self.entry.changes.now) n.0 m.0) at.old.store.nodes at.new.store.nodes copies.old copies.new) }
        ensures goes { Goes at.old at.new }
    {
        let how = Copying {
            bound: ForBound::Itself,
            unknown: ForUnknown::Itself,
            changes: self.changes,
        };
        copies.copy(at, n, how)
    }

    fn constructor(
        self,
        at: &mut Parts,
        copies: &mut Copies,
        old: &Constructor,
    ) -> Result<Constructor, NoMemory>
        ensures changed { IfOk result (λ new. Turns self.entry.changes.now (λ ns. IsLiveConstructor ns old.now) (λ ns. IsChangedConstructor ns (change_by self.entry.changes.now) old.now new) at.old.store.nodes at.new.store.nodes copies.old copies.new) }
        ensures goes { Goes at.old at.new }
    {
        Ok(Constructor {
            name: old.name.share()?,
            root: self.ty(at, copies, old.root)?,
            has_argument: old.has_argument,
        })
    }

    fn constructors(
        self,
        at: &mut Parts,
        copies: &mut Copies,
        old: &[Constructor],
    ) -> Result<Vec<Constructor>, NoMemory>
        ensures changed { IfOk result (λ new. Turns self.entry.changes.now (λ ns. All (IsLiveConstructor ns) old.now) (λ ns. AllZip (IsChangedConstructor ns (change_by self.entry.changes.now)) old.now new.items) at.old.store.nodes at.new.store.nodes copies.old copies.new) }
        ensures goes { Goes at.old at.new }
    {
        let mut new = Vec::new(at.alloc());
        for constructor in old {
            push(&mut new, self.constructor(at, copies, constructor)?)?;
        }
        Ok(new)
    }

    fn label(self, at: &mut Parts, copies: &mut Copies, old: &Label) -> Result<Label, NoMemory>
        ensures changed { IfOk result (λ new. Turns self.entry.changes.now (λ ns. IsLiveLabel ns old.now) (λ ns. IsChangedLabel ns (change_by self.entry.changes.now) old.now new) at.old.store.nodes at.new.store.nodes copies.old copies.new) }
        ensures goes { Goes at.old at.new }
    {
        Ok(Label {
            name: old.name.share()?,
            root: self.ty(at, copies, old.root)?,
            is_mutable: old.is_mutable,
        })
    }

    fn labels(
        self,
        at: &mut Parts,
        copies: &mut Copies,
        old: &[Label],
    ) -> Result<Vec<Label>, NoMemory>
        ensures changed { IfOk result (λ new. Turns self.entry.changes.now (λ ns. All (IsLiveLabel ns) old.now) (λ ns. AllZip (IsChangedLabel ns (change_by self.entry.changes.now)) old.now new.items) at.old.store.nodes at.new.store.nodes copies.old copies.new) }
        ensures goes { Goes at.old at.new }
    {
        let mut new = Vec::new(at.alloc());
        for label in old {
            push(&mut new, self.label(at, copies, label)?)?;
        }
        Ok(new)
    }

    fn shape(self, at: &mut Parts, copies: &mut Copies, old: &Shape) -> Result<Shape, NoMemory>
        ensures changed { IfOk result (λ new. Turns self.entry.changes.now (λ ns. IsLiveShape ns old.now) (λ ns. IsChangedShape ns (change_by self.entry.changes.now) old.now new) at.old.store.nodes at.new.store.nodes copies.old copies.new) }
        ensures goes { Goes at.old at.new }
    {
        match old {
            Shape::Opaque => Ok(Shape::Opaque),
            Shape::Variant(constructors) => {
                Ok(Shape::Variant(self.constructors(at, copies, constructors)?))
            }
            Shape::Labels(labels) => Ok(Shape::Labels(self.labels(at, copies, labels)?)),
        }
    }

    /// An origin with the path that it has after the change, also where a type stands in its place.
    fn moved(self, at: &Parts, origin: &Origin) -> Result<Origin, NoMemory>
        ensures { IfOk result (λ o. (V : Types) → path_of o ≡ (change_by self.entry.changes.now V).path (path_of origin.now)) }
    {
        if is_among(&self.changes.made, origin) {
            in_front(at, self.changes.number, origin)
        } else {
            copied_origin(at, origin)
        }
    }

    /// The origin that a declaration makes after the change; None where it is another type then.
    fn origin(self, at: &Parts, old: &Declaration) -> Result<Option<Origin>, NoMemory>
        ensures { IfOk result (λ new. (V : Types) → option_map path_of new ≡ origin_after (change_by self.entry.changes.now V) (option_map path_of old.now.origin)) }
    {
        let Some(origin) = &old.origin else {
            return Ok(None);
        };
        match self.changes.put(origin) {
            Put::Type { .. } => Ok(None),
            Put::Path(_) => Ok(Some(self.moved(at, origin)?)),
            Put::Itself => Ok(Some(self.moved(at, origin)?)),
        }
    }

    fn declaration(
        self,
        at: &mut Parts,
        copies: &mut Copies,
        old: &Declaration,
    ) -> Result<Rc<Declaration>, NoMemory>
        ensures changed { IfOk result (λ new. Turns self.entry.changes.now (λ ns. IsLiveDeclaration ns old.now) (λ ns. IsChangedDeclaration ns (change_by self.entry.changes.now) old.now new.value) at.old.store.nodes at.new.store.nodes copies.old copies.new) }
        ensures goes { Goes at.old at.new }
    {
        let root = self.ty(at, copies, old.root)?;
        let new = Declaration {
            arity: old.arity,
            origin: self.origin(at, old)?,
            defines: defined(at, root, old.arity)?,
            root,
            shape: self.shape(at, copies, &old.shape)?,
        };
        owned(at.alloc(), new)
    }

    /// The declaration that a constructor's or a label's entry belongs to.
    fn owner(
        self,
        at: &mut Parts,
        copies: &mut Copies,
        old: &Declaration,
        latest: &Latest,
    ) -> Result<Rc<Declaration>, NoMemory>
        ensures changed { IfOk result (λ _. Turns self.entry.changes.now (λ ns. IsLiveDeclaration ns old.now) (λ _. Unit {0}) at.old.store.nodes at.new.store.nodes copies.old copies.new) }
        ensures goes { Goes at.old at.new }
    {
        match &latest.declaration {
            Some(declaration) => share_declaration(declaration),
            None => self.declaration(at, copies, old),
        }
    }

    fn latest(
        self,
        at: &mut Parts,
        copies: &mut Copies,
        old: &Declaration,
        latest: &mut Latest,
    ) -> Result<Rc<Declaration>, NoMemory>
        ensures changed { IfOk result (λ new. Turns self.entry.changes.now (λ ns. IsLiveDeclaration ns old.now) (λ ns. IsChangedDeclaration ns (change_by self.entry.changes.now) old.now new.value) at.old.store.nodes at.new.store.nodes copies.old copies.new) }
        ensures goes { Goes at.old at.new }
    {
        let new = self.declaration(at, copies, old)?;
        latest.declaration = Some(share_declaration(&new)?);
        Ok(new)
    }

    fn exception(
        self,
        at: &mut Parts,
        copies: &mut Copies,
        old: &Constructor,
    ) -> Result<Rc<Constructor>, NoMemory>
        ensures changed { IfOk result (λ new. Turns self.entry.changes.now (λ ns. IsLiveConstructor ns old.now) (λ ns. IsChangedConstructor ns (change_by self.entry.changes.now) old.now new.value) at.old.store.nodes at.new.store.nodes copies.old copies.new) }
        ensures goes { Goes at.old at.new }
    {
        let new = self.constructor(at, copies, old)?;
        owned(at.alloc(), new)
    }

    /// The paths of origins after the change.
    fn made(self, at: &Parts, old: &[Origin]) -> Result<Vec<Origin>, NoMemory>
        ensures { IfOk result (λ new. (V : Types) → paths_of new.items ≡ map (change_by self.entry.changes.now V).path (paths_of old.now)) }
    {
        let mut new = Vec::new(at.alloc());
        for origin in old {
            push(&mut new, self.moved(at, origin)?)?;
        }
        Ok(new)
    }
}

/// The structure with these components.
fn structure_of(at: &Parts, entries: Vec<Rc<Entry>>) -> Result<Rc<Sig>, NoMemory>
    ensures { IfOk result (λ s. components_of s.value ≡ Some entries.items) }
{
    owned(at.alloc(), Sig::Structure(Components { entries }))
}

/// The origin of the type that a declaration defines, where that is a constructor.
fn defined(at: &Parts, root: NodeRef, arity: u32) -> Result<Option<Origin>, NoMemory> {
    let body = if arity == 0 {
        Some(root)
    } else {
        match at.parts_of_tuple(root) {
            Some(parts) => parts.last().copied(),
            None => None,
        }
    };
    let Some(body) = body else {
        return Ok(None);
    };
    match at.read(body) {
        Some(View::Con(origin, _)) => Ok(Some(copied_origin(at, origin)?)),
        _ => Ok(None),
    }
}

impl<'a> Changing<'a> {
    #[cycle(changing)]
    fn what(
        self,
        at: &mut Parts,
        copies: &mut Copies,
        old: &What,
        latest: &mut Latest,
        depth: Depth,
    ) -> Result<What, NoMemory>
        ensures changed { IfOk result (λ new. Turns self.entry.changes.now (λ ns. IsLiveWithin ns old.now) (λ ns. IsTurnedWhat ns (change_by self.entry.changes.now) old.now new) at.old.store.nodes at.new.store.nodes copies.old copies.new) }
        ensures goes { Goes at.old at.new }
    {
        match old {
            What::Scheme(root) => Ok(What::Scheme(self.ty(at, copies, *root)?)),
            What::Constructor(declaration, place) => Ok(What::Constructor(
                self.owner(at, copies, declaration, latest)?,
                *place,
            )),
            What::Exception(constructor) => {
                Ok(What::Exception(self.exception(at, copies, constructor)?))
            }
            What::Label(declaration, place) => {
                Ok(What::Label(self.owner(at, copies, declaration, latest)?, *place))
            }
            What::Type(declaration) => {
                Ok(What::Type(self.latest(at, copies, declaration, latest)?))
            }
            What::Module(sig) => Ok(What::Module(self.sig(at, copies, sig, depth.inside()?)?)),
            What::ModuleType(template) => Ok(What::ModuleType(self.template(
                at,
                copies,
                template,
                depth.inside()?,
            )?)),
        }
    }

    #[cycle(changing)]
    fn entry(
        self,
        at: &mut Parts,
        copies: &mut Copies,
        old: &Entry,
        latest: &mut Latest,
        depth: Depth,
    ) -> Result<Rc<Entry>, NoMemory>
        ensures changed { IfOk result (λ new. Turns self.entry.changes.now (λ ns. IsLiveThrough ns old.now) (λ ns. IsTurnedEntry ns (change_by self.entry.changes.now) old.now new.value) at.old.store.nodes at.new.store.nodes copies.old copies.new) }
        ensures goes { Goes at.old at.new }
    {
        let new = Entry {
            name: old.name.share()?,
            kind: old.kind,
            place: old.place,
            what: self.what(at, copies, &old.what, latest, depth)?,
        };
        owned(at.alloc(), new)
    }

    #[cycle(changing)]
    fn entries(
        self,
        at: &mut Parts,
        copies: &mut Copies,
        old: &[Rc<Entry>],
        depth: Depth,
    ) -> Result<Vec<Rc<Entry>>, NoMemory>
        ensures changed { IfOk result (λ new. Turns self.entry.changes.now (λ ns. All (λ r. IsLiveThrough ns r.value) old.now) (λ ns. AllZip (λ r s. IsTurnedEntry ns (change_by self.entry.changes.now) r.value s.value) old.now new.items) at.old.store.nodes at.new.store.nodes copies.old copies.new) }
        ensures goes { Goes at.old at.new }
    {
        let mut new = Vec::new(at.alloc());
        let mut latest = Latest { declaration: None };
        for entry in old {
            push(&mut new, self.entry(at, copies, entry, &mut latest, depth)?)?;
        }
        Ok(new)
    }

    #[cycle(changing)]
    fn sig(
        self,
        at: &mut Parts,
        copies: &mut Copies,
        old: &Sig,
        depth: Depth,
    ) -> Result<Rc<Sig>, NoMemory>
        ensures changed { IfOk result (λ new. Turns self.entry.changes.now (λ ns. AreLive ns old.now) (λ ns. IsChangedSig ns (change_by self.entry.changes.now) old.now new.value) at.old.store.nodes at.new.store.nodes copies.old copies.new) }
        ensures goes { Goes at.old at.new }
    {
        match old {
            Sig::Hole => owned(at.alloc(), Sig::Hole),
            Sig::Structure(components) => {
                let entries = self.entries(at, copies, &components.entries, depth.inside()?)?;
                structure_of(at, entries)
            }
            Sig::Functor(parameter, body) => {
                let parameter = self.template(at, copies, parameter, depth.inside()?)?;
                let body = self.template(at, copies, body, depth.inside()?)?;
                owned(at.alloc(), Sig::Functor(parameter, body))
            }
        }
    }

    #[cycle(changing)]
    fn template(
        self,
        at: &mut Parts,
        copies: &mut Copies,
        old: &Template,
        depth: Depth,
    ) -> Result<Rc<Template>, NoMemory>
        ensures changed { IfOk result (λ new. Turns self.entry.changes.now (λ ns. IsLiveTemplate ns old.now) (λ ns. IsTurnedTemplate ns (change_by self.entry.changes.now) old.now new.value) at.old.store.nodes at.new.store.nodes copies.old copies.new) }
        ensures goes { Goes at.old at.new }
    {
        let new = Template {
            made: self.made(at, &old.made)?,
            sig: self.sig(at, copies, &old.sig, depth.inside()?)?,
        };
        owned(at.alloc(), new)
    }
}

/// A signature after a change of origins: at each reading that of before after the change, where the types that stand in the place
/// of origins are those of declarations.
pub fn changed(at: &mut Parts, sig: &Sig, changes: &Changes) -> Result<Rc<Sig>, NoMemory>
    ensures changed { IfOk result (λ s. AreDeclared at.old.store.nodes changes.now.real.items → AreLive at.old.store.nodes sig.now → IsChangedSig at.new.store.nodes (change_by changes.now) sig.now s.value) }
    ensures goes { Goes at.old at.new }
{
    let mut copies = Copies::new(at);
    Changing { changes }.sig(at, &mut copies, sig, Depth::WHOLE)
}
