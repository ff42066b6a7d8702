//! What paths, labels and origins find in environments.
use crate::entries::{Made, Name, Step, numbered, origin, with};
use env_table::*;
use std::alloc::{AllocError, Global};
use std::test::Fail;
use text_terms::RcStr;

/// What is found.
enum Wanted {
    /// An entry that starts here
    At(u32),
    Hole,
    Nothing,
}

/// A name after the names of modules.
type Written = (&'static [Name], Name);

/// What is asked of an environment, with the answer.
enum Asked {
    /// Where a path leads, to an entry of a kind
    Path(Written, Kind, Wanted),
    /// The record type of some labels
    Labels(&'static [Name], Wanted),
    /// The record type of one label of a module
    LabelOf(Written, Wanted),
    /// The module at the end of some names
    Module(&'static [Name], Wanted),
    /// The place of the first name that leads to no module
    LostModule(&'static [Name], Option<usize>),
    /// The names of the types that may make an origin, the newest first
    Makers(Made, &'static [Name]),
    /// The names of all entries, the newest first
    Entries(&'static [Name]),
    /// The names inside a module, the newest first
    Inside(Name, &'static [Name]),
    /// Whether each of so many values is found by its number
    Numbered(u32),
}

/// The environment that is asked.
enum Scope {
    Whole,
    /// Nothing but what opening a module adds
    Opened(Name),
    /// The whole with what opening a module adds
    WholeWith(Name),
}

fn names_of(alloc: Global, names: &[Name]) -> Result<Vec<RcStr>, NoMemory> {
    let mut found = Vec::new(alloc);
    for name in names {
        found.push(RcStr::from_str(alloc, name)?)?;
    }
    Ok(found)
}

fn path(alloc: Global, modules: &[Name], last: &str) -> Result<Path, NoMemory> {
    let modules = names_of(alloc, modules)?;
    let last = RcStr::from_str(alloc, last)?;
    Ok(Path { modules, last })
}

fn starts_at(found: Found<'_>, at: u32) -> bool {
    match found {
        Found::Entry(entry) => match entry.place {
            Place::Buffer(span) => span.start == at,
            _ => false,
        },
        _ => false,
    }
}

fn is_found(found: Found<'_>, wanted: &Wanted) -> bool {
    match (found, wanted) {
        (found, Wanted::At(at)) => starts_at(found, *at),
        (Found::Hole, Wanted::Hole) => true,
        (Found::Nothing, Wanted::Nothing) => true,
        _ => false,
    }
}

fn are_named(entries: Entries<'_>, names: &[Name]) -> bool {
    let mut rest = entries;
    for name in names {
        match rest.split_first() {
            Some((entry, older)) if entry.name.is(name) => rest = older,
            _ => return false,
        }
    }
    rest.split_first().is_none()
}

fn module_of<'a>(env: &'a Env, name: &str) -> Result<&'a Sig, NoMemory> {
    match env.newest(Kind::Module, name) {
        Some(entry) => match &entry.what {
            What::Module(sig) => Ok(sig),
            _ => Err(AllocError),
        },
        None => Err(AllocError),
    }
}

fn record(alloc: Global, env: &Env, labels: &[Name], wanted: &Wanted) -> Result<bool, NoMemory> {
    let mut paths = Vec::new(alloc);
    for label in labels {
        paths.push(path(alloc, &[], label)?)?;
    }
    Ok(is_found(env.record_type(&paths), wanted))
}

fn is_at(alloc: Global, env: &Env, number: u32) -> Result<bool, NoMemory> {
    let name = numbered(alloc, number)?;
    let path = path(alloc, &[], &name)?;
    Ok(starts_at(env.lookup(&path, Kind::Value), number))
}

fn are_at(alloc: Global, env: &Env, count: u32) -> Result<bool, NoMemory> {
    for number in 0..count {
        if !is_at(alloc, env, number)? {
            return Ok(false);
        }
    }
    Ok(true)
}

fn is_answered(alloc: Global, env: &Env, asked: &Asked) -> Result<bool, NoMemory> {
    match asked {
        Asked::Path(of, kind, wanted) => {
            let path = path(alloc, of.0, of.1)?;
            Ok(is_found(env.lookup(&path, *kind), wanted))
        }
        Asked::Labels(labels, wanted) => record(alloc, env, labels, wanted),
        Asked::LabelOf(of, wanted) => {
            let label = path(alloc, of.0, of.1)?;
            Ok(is_found(env.record_type(&[label]), wanted))
        }
        Asked::Module(names, wanted) => {
            let names = names_of(alloc, names)?;
            Ok(is_found(env.module_behind(&names), wanted))
        }
        Asked::LostModule(names, wanted) => {
            let names = names_of(alloc, names)?;
            Ok(env.lost_module(&names) == *wanted)
        }
        Asked::Makers(made, names) => Ok(are_named(env.makers(&origin(alloc, *made)?), names)),
        Asked::Entries(names) => Ok(are_named(env.entries(), names)),
        Asked::Inside(module, names) => Ok(are_named(module_of(env, module)?.entries(), names)),
        Asked::Numbered(count) => are_at(alloc, env, *count),
    }
}

fn opened(alloc: Global, of: &Env, env: &Env, module: &str) -> Result<Env, NoMemory> {
    of.open_module(alloc, module_of(env, module)?)
}

fn is_answered_in(
    alloc: Global,
    env: &Env,
    scope: &Scope,
    asked: &Asked,
) -> Result<bool, NoMemory> {
    match scope {
        Scope::Whole => is_answered(alloc, env, asked),
        Scope::Opened(name) => {
            let empty = Env::empty();
            is_answered(alloc, &opened(alloc, &empty, env, name)?, asked)
        }
        Scope::WholeWith(name) => is_answered(alloc, &opened(alloc, env, env, name)?, asked),
    }
}

/// A name, what an environment has, and what is asked.
type Case = (&'static str, &'static [Step], &'static [(Scope, Asked)]);

const FIVE: Made = (5, "t");

const CASES: &[Case] = &[
    (
        "one of a kind",
        &[Step::Value("x", 0)],
        &[(
            Scope::Whole,
            Asked::Path((&[], "x"), Kind::Value, Wanted::At(0)),
        )],
    ),
    (
        "the newest of a kind",
        &[Step::Value("x", 0), Step::Value("x", 4)],
        &[
            (
                Scope::Whole,
                Asked::Path((&[], "x"), Kind::Value, Wanted::At(4)),
            ),
            (
                Scope::Whole,
                Asked::Path((&[], "x"), Kind::TypeName, Wanted::Nothing),
            ),
        ],
    ),
    (
        "a module that is not known may have anything",
        &[Step::Hole("M", 0)],
        &[
            (
                Scope::Whole,
                Asked::Path((&["M"], "x"), Kind::Value, Wanted::Hole),
            ),
            (
                Scope::Whole,
                Asked::Path((&["N"], "x"), Kind::Value, Wanted::Nothing),
            ),
            (Scope::Whole, Asked::LabelOf((&["M"], "l"), Wanted::Hole)),
            (Scope::WholeWith("M"), Asked::Entries(&["M"])),
        ],
    ),
    // the types that make an origin are found by it, whatever they are named, and no other of these
    (
        "an origin finds what makes it",
        &[
            Step::Type("t", Some(FIVE), None, 1),
            Step::Type("u", Some((6, "t")), None, 2),
            Step::Type("v", Some(FIVE), None, 3),
            Step::Type("t", None, None, 4),
        ],
        &[
            (Scope::Whole, Asked::Makers(FIVE, &["v", "t"])),
            (Scope::Whole, Asked::Makers((7, "t"), &[])),
        ],
    ),
    // module M = struct let x = .. let x = .. end
    (
        "a module has its newest component",
        &[
            Step::Value("x", 5),
            Step::Value("x", 6),
            Step::Structure("M", 2, 0),
        ],
        &[
            (
                Scope::Whole,
                Asked::Path((&["M"], "x"), Kind::Value, Wanted::At(6)),
            ),
            (
                Scope::Whole,
                Asked::Path((&["M"], "y"), Kind::Value, Wanted::Nothing),
            ),
            (
                Scope::Whole,
                Asked::Path((&[], "x"), Kind::Value, Wanted::Nothing),
            ),
            (
                Scope::Opened("M"),
                Asked::Path((&[], "x"), Kind::Value, Wanted::At(6)),
            ),
        ],
    ),
    (
        "a newer module hides an older one",
        &[
            Step::Value("x", 5),
            Step::Value("x", 6),
            Step::Structure("M", 2, 0),
            Step::Value("y", 20),
            Step::Value("y", 21),
            Step::Structure("M", 2, 30),
        ],
        &[
            (
                Scope::Whole,
                Asked::Path((&["M"], "x"), Kind::Value, Wanted::Nothing),
            ),
            (
                Scope::Whole,
                Asked::Path((&["M"], "y"), Kind::Value, Wanted::At(21)),
            ),
        ],
    ),
    // module F (X : S) = ..
    (
        "a functor has nothing inside",
        &[
            Step::Value("x", 0),
            Step::Value("y", 5),
            Step::Functor("F", 9),
        ],
        &[
            (Scope::Whole, Asked::Inside("F", &[])),
            (Scope::Opened("F"), Asked::Entries(&[])),
            (
                Scope::Whole,
                Asked::Path((&["F"], "y"), Kind::Value, Wanted::Nothing),
            ),
        ],
    ),
    // M.N.O where only M and its N are there, and N isn't known
    (
        "the first module that is not there",
        &[Step::Hole("N", 1), Step::Structure("M", 1, 0)],
        &[
            (Scope::Whole, Asked::LostModule(&["M", "N", "O"], None)),
            (Scope::Whole, Asked::LostModule(&["N", "O"], Some(0))),
            (Scope::Whole, Asked::LostModule(&["M", "O", "N"], Some(1))),
            (Scope::Whole, Asked::Module(&["M", "N"], Wanted::At(1))),
            (Scope::Whole, Asked::Module(&["M", "N", "O"], Wanted::Hole)),
            (Scope::Whole, Asked::Module(&[], Wanted::Nothing)),
        ],
    ),
    // type a = { l : int; m : int }  type b = { l : int; n : int }
    (
        "every label decides the record type",
        &[
            Step::Labels(5, &["l", "m"], 0),
            Step::Labels(6, &["l", "n"], 10),
        ],
        &[
            (Scope::Whole, Asked::Labels(&[], Wanted::At(11))),
            (Scope::Whole, Asked::Labels(&["l"], Wanted::At(10))),
            (Scope::Whole, Asked::Labels(&["l", "m"], Wanted::At(0))),
            (
                Scope::Whole,
                Asked::Labels(&["l", "m", "n"], Wanted::Nothing),
            ),
        ],
    ),
    // as many names as a long text may have are found without a walk over all, and let go without a call for each
    (
        "many names",
        &[Step::NumberedValues(20_000)],
        &[(Scope::Whole, Asked::Numbered(20_000))],
    ),
    // one name many times is let go without a call for each
    (
        "a name many times",
        &[Step::SameValues("x", 100_000)],
        &[(
            Scope::Whole,
            Asked::Path((&[], "x"), Kind::Value, Wanted::At(99_999)),
        )],
    ),
];

fn are_answered(alloc: Global, steps: &[Step], asked: &[(Scope, Asked)]) -> Result<bool, NoMemory> {
    let env = with(alloc, Env::empty(), steps)?;
    for (scope, asked) in asked {
        if !is_answered_in(alloc, &env, scope, asked)? {
            return Ok(false);
        }
    }
    Ok(true)
}

/// The name of the first case that is answered otherwise.
fn first_wrong(alloc: Global, cases: &[Case]) -> Result<Option<&'static str>, NoMemory> {
    for (name, steps, asked) in cases {
        if !are_answered(alloc, steps, asked)? {
            return Ok(Some(name));
        }
    }
    Ok(None)
}

#[test]
fn lookups(rt: HostRuntime) -> Result<(), Fail> {
    match first_wrong(rt.alloc(), CASES)? {
        None => Ok(()),
        Some(name) => Err(Fail::new(name)),
    }
}
