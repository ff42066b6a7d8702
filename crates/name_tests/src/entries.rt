//! Entries and environments, made of short lists of what they have.
use env_table::*;
use std::alloc::Global;
use std::rc::Rc;
use text_terms::{RcStr, Span};

pub type Name = &'static str;

/// The number of an origin, and its name.
pub type Made = (u64, Name);

/// What an environment gets, the oldest first. An entry whose place is given starts there.
pub enum Step {
    /// A value at a place
    Value(Name, u32),
    /// So many values of one name, at the places from 0
    SameValues(Name, u32),
    /// So many values of the names `name_0`, `name_1` .., at the places from 0
    NumberedValues(u32),
    /// The labels of a record type, at a place and those after it
    Labels(u64, &'static [Name], u32),
    /// A type at a place: the origin that it makes, and the one that it defines
    Type(Name, Option<Made>, Option<Made>, u32),
    /// A structure with the last entries, so many of them, in their place
    Structure(Name, usize, u32),
    /// A functor from a structure of one of the last two entries to one of the other
    Functor(Name, u32),
    /// A module that isn't known
    Hole(Name, u32),
}

pub fn origin(alloc: Global, made: Made) -> Result<Origin, NoMemory> {
    let name = RcStr::from_str(alloc, made.1)?;
    let path = [made.0].to_vec(alloc)?;
    Ok(Origin { path, name })
}

fn place(at: u32) -> Place {
    Place::Buffer(Span {
        start: at,
        end: at.saturating_add(1),
    })
}

fn entry(
    alloc: Global,
    name: &str,
    kind: Kind,
    what: What,
    at: u32,
) -> Result<Rc<Entry>, NoMemory> {
    let name = RcStr::from_str(alloc, name)?;
    let place = place(at);
    let entry = Entry {
        name,
        kind,
        place,
        what,
    };
    Ok(Rc::new(alloc, entry)?)
}

fn value(alloc: Global, name: &str, at: u32) -> Result<Rc<Entry>, NoMemory> {
    entry(alloc, name, Kind::Value, What::Scheme(NodeRef(0)), at)
}

fn put(entries: &mut Vec<Rc<Entry>>, entry: Rc<Entry>) -> Result<(), NoMemory> {
    Ok(entries.push(entry)?)
}

fn optional_origin(alloc: Global, made: &Option<Made>) -> Result<Option<Origin>, NoMemory> {
    match made {
        Some(made) => Ok(Some(origin(alloc, *made)?)),
        None => Ok(None),
    }
}

fn declaration(
    alloc: Global,
    makes: &Option<Made>,
    defines: &Option<Made>,
    shape: Shape,
) -> Result<Rc<Declaration>, NoMemory> {
    let origin = optional_origin(alloc, makes)?;
    let defines = optional_origin(alloc, defines)?;
    let declaration = Declaration {
        arity: 0,
        origin,
        defines,
        root: NodeRef(0),
        shape,
    };
    Ok(Rc::new(alloc, declaration)?)
}

fn put_labels(
    alloc: Global,
    entries: &mut Vec<Rc<Entry>>,
    made: u64,
    names: &[Name],
    at: u32,
) -> Result<(), NoMemory> {
    let shape = Shape::Labels(Vec::new(alloc));
    let declaration = declaration(alloc, &None, &Some((made, "t")), shape)?;
    let mut number: u32 = 0;
    for name in names {
        let what = What::Label(Rc::clone(&declaration)?, number);
        let at = at.saturating_add(number);
        put(entries, entry(alloc, name, Kind::Label, what, at)?)?;
        number = number.saturating_add(1);
    }
    Ok(())
}

pub fn numbered(alloc: Global, at: u32) -> Result<String, NoMemory> {
    format!(in alloc; "name_{at}")
}

fn put_numbered(alloc: Global, entries: &mut Vec<Rc<Entry>>, count: u32) -> Result<(), NoMemory> {
    for at in 0..count {
        let name = numbered(alloc, at)?;
        put(entries, value(alloc, &name, at)?)?;
    }
    Ok(())
}

fn put_same(
    alloc: Global,
    entries: &mut Vec<Rc<Entry>>,
    name: &str,
    count: u32,
) -> Result<(), NoMemory> {
    for at in 0..count {
        put(entries, value(alloc, name, at)?)?;
    }
    Ok(())
}

/// Takes the last entries, so many of them, into a structure.
fn structure(alloc: Global, from: &mut Vec<Rc<Entry>>, count: usize) -> Result<Rc<Sig>, NoMemory> {
    let mut entries = Vec::new(alloc);
    for _ in 0..count {
        if let Some(entry) = from.pop() {
            put(&mut entries, entry)?;
        }
    }
    entries.reverse();
    Ok(Rc::new(alloc, Sig::Structure(Components { entries }))?)
}

fn template(alloc: Global, from: &mut Vec<Rc<Entry>>) -> Result<Rc<Template>, NoMemory> {
    let sig = structure(alloc, from, 1)?;
    let made = Vec::new(alloc);
    Ok(Rc::new(alloc, Template { made, sig })?)
}

fn functor(alloc: Global, from: &mut Vec<Rc<Entry>>) -> Result<Rc<Sig>, NoMemory> {
    let body = template(alloc, from)?;
    let parameter = template(alloc, from)?;
    Ok(Rc::new(alloc, Sig::Functor(parameter, body))?)
}

fn module(alloc: Global, name: &str, sig: Rc<Sig>, at: u32) -> Result<Rc<Entry>, NoMemory> {
    entry(alloc, name, Kind::Module, What::Module(sig), at)
}

fn type_entry(
    alloc: Global,
    name: &str,
    makes: &Option<Made>,
    defines: &Option<Made>,
    at: u32,
) -> Result<Rc<Entry>, NoMemory> {
    let declaration = declaration(alloc, makes, defines, Shape::Opaque)?;
    entry(alloc, name, Kind::TypeName, What::Type(declaration), at)
}

fn put_made(alloc: Global, entries: &mut Vec<Rc<Entry>>, step: &Step) -> Result<(), NoMemory> {
    match step {
        Step::Value(name, at) => put(entries, value(alloc, name, *at)?),
        Step::SameValues(name, count) => put_same(alloc, entries, name, *count),
        Step::NumberedValues(count) => put_numbered(alloc, entries, *count),
        Step::Labels(made, names, at) => put_labels(alloc, entries, *made, names, *at),
        Step::Type(name, makes, defines, at) => {
            put(entries, type_entry(alloc, name, makes, defines, *at)?)
        }
        Step::Structure(name, count, at) => {
            let sig = structure(alloc, entries, *count)?;
            put(entries, module(alloc, name, sig, *at)?)
        }
        Step::Functor(name, at) => {
            let sig = functor(alloc, entries)?;
            put(entries, module(alloc, name, sig, *at)?)
        }
        Step::Hole(name, at) => {
            let sig = Rc::new(alloc, Sig::Hole)?;
            put(entries, module(alloc, name, sig, *at)?)
        }
    }
}

fn entries(alloc: Global, steps: &[Step]) -> Result<Vec<Rc<Entry>>, NoMemory> {
    let mut entries = Vec::new(alloc);
    for step in steps {
        put_made(alloc, &mut entries, step)?;
    }
    Ok(entries)
}

/// An environment with the entries of some steps added to its own.
pub fn with(alloc: Global, env: Env, steps: &[Step]) -> Result<Env, NoMemory> {
    let mut env = env;
    for entry in entries(alloc, steps)? {
        env = env.add(alloc, entry)?;
    }
    Ok(env)
}
