//! The names of a text that was read as names of the prelude: each is defined at the same span, of the prelude's text in place of the
//! text that is read, and what it stands for is the same. It stands on the names in scope (`env_table`).
//! Above, the environment after the prelude's items is that after `of_prelude`.
#![tactic(auto)]

ghost use Rattle.std.specs.Prelude.{◌≡◌, ◌++◌, List, map, IfOk, OnOk};
ghost use Rattle.type_terms.specs.Views.{path_of};
ghost use Rattle.prelude_places.specs.There.{place_there, WhatThere, EntryThere, AreThere, SigThere, TemplateThere, values_of};

use env_table::{Components, Entry, Env, Origin, Place, Sig, Template, What};
use owned_lists::{owned, push, shared};
use std::alloc::Global;
use std::rc::Rc;
use typing_state::{Depth, NoMemory};

/// A place in the text that was read, as one of the prelude.
fn place_of_prelude(place: Place) -> Place
    ensures { result ≡ place_there place }
{
    match place {
        Place::Buffer(span) => Place::Prelude(span),
        Place::Prelude(span) => Place::Prelude(span),
        Place::BuiltIn(number) => Place::BuiltIn(number),
    }
}

/// Origins with the same paths.
fn origins(alloc: Global, old: &[Origin]) -> Result<Vec<Origin>, NoMemory>
    ensures { IfOk result (λ new. map path_of new.items ≡ map path_of old.now) }
{
    let mut new = Vec::new(alloc);
    for origin in old {
        push(&mut new, origin.copied(alloc)?)?;
    }
    Ok(new)
}

#[cycle(there)]
fn what(alloc: Global, old: &What, depth: Depth) -> Result<What, NoMemory>
    ensures { IfOk result (λ new. WhatThere old.now new) }
{
    match old {
        What::Scheme(root) => Ok(What::Scheme(*root)),
        What::Constructor(declaration, place) => {
            Ok(What::Constructor(shared(declaration)?, *place))
        }
        What::Exception(constructor) => Ok(What::Exception(shared(constructor)?)),
        What::Label(declaration, place) => Ok(What::Label(shared(declaration)?, *place)),
        What::Type(declaration) => Ok(What::Type(shared(declaration)?)),
        What::Module(signature) => Ok(What::Module(sig(alloc, signature, depth.inside()?)?)),
        What::ModuleType(made) => Ok(What::ModuleType(template(alloc, made, depth.inside()?)?)),
    }
}

#[cycle(there)]
fn entry(alloc: Global, old: &Entry, depth: Depth) -> Result<Rc<Entry>, NoMemory>
    ensures { IfOk result (λ new. EntryThere old.now new.value) }
{
    let new = Entry {
        name: old.name.share()?,
        kind: old.kind,
        place: place_of_prelude(old.place),
        what: what(alloc, &old.what, depth)?,
    };
    owned(alloc, new)
}

#[cycle(there)]
fn entries(alloc: Global, old: &[Rc<Entry>], depth: Depth) -> Result<Vec<Rc<Entry>>, NoMemory>
    ensures { IfOk result (λ new. AreThere (values_of old.now) (values_of new.items)) }
{
    let mut new = Vec::new(alloc);
    for one in old {
        push(&mut new, entry(alloc, one, depth)?)?;
    }
    Ok(new)
}

#[cycle(there)]
fn sig(alloc: Global, old: &Sig, depth: Depth) -> Result<Rc<Sig>, NoMemory>
    ensures { IfOk result (λ new. SigThere old.now new.value) }
{
    match old {
        Sig::Hole => owned(alloc, Sig::Hole),
        Sig::Structure(components) => {
            let entries = entries(alloc, &components.entries, depth.inside()?)?;
            owned(alloc, Sig::Structure(Components { entries }))
        }
        Sig::Functor(parameter, body) => {
            let parameter = template(alloc, parameter, depth.inside()?)?;
            let body = template(alloc, body, depth.inside()?)?;
            owned(alloc, Sig::Functor(parameter, body))
        }
    }
}

#[cycle(there)]
fn template(alloc: Global, old: &Template, depth: Depth) -> Result<Rc<Template>, NoMemory>
    ensures { IfOk result (λ new. TemplateThere old.now new.value) }
{
    let new = Template {
        made: origins(alloc, &old.made)?,
        sig: sig(alloc, &old.sig, depth.inside()?)?,
    };
    owned(alloc, new)
}

/// The entries of an environment as names of the prelude, the newest first.
fn newest_first(alloc: Global, env: &Env) -> Result<Vec<Rc<Entry>>, NoMemory>
    ensures { IfOk result (λ new. AreThere env.now (values_of new.items)) }
{
    let mut new = Vec::new(alloc);
    let mut rest = env.entries();
    while let Some((one, older)) = rest.split_first() {
        push(&mut new, entry(alloc, one, Depth::WHOLE)?)?;
        rest = older;
    }
    Ok(new)
}

/// The environment with these entries, the newest first.
fn env_of(alloc: Global, entries: Vec<Rc<Entry>>) -> Result<Env, NoMemory>
    ensures { IfOk result (λ env. env ≡ values_of entries.items) }
{
    let mut left = entries;
    let mut env = Env::empty();
    while let Some(one) = left.pop() {
        env = env.add(alloc, one)?;
    }
    Ok(env)
}

/// The same names as those of the prelude: what was defined in the text that was read is defined in the prelude's text.
pub fn of_prelude(alloc: Global, env: &Env) -> Result<Env, NoMemory>
    ensures { IfOk result (AreThere env.now) }
{
    let entries = newest_first(alloc, env)?;
    env_of(alloc, entries)
}
