//! Types without a store: instances of schemes, origins replaced, and which types are the same.
use crate::robinson::arity;
use std::alloc::{AllocError, Global};
use std::test::Fail;
use text_terms::RcStr;
use type_terms::*;

/// The first numbers of the paths: I is int, L is list, and both others have one name.
fn number_of(head: u8) -> u64 {
    match head {
        b'I' => 18_446_744_073_709_551_615,
        b'L' => 18_446_744_073_709_551_607,
        b'T' => 4_294_967_301,
        _ => 4_294_967_302,
    }
}

fn name_of(head: u8) -> &'static str {
    match head {
        b'I' => "int",
        b'L' => "list",
        _ => "t",
    }
}

fn origin(alloc: Global, head: u8) -> Result<Origin, NoMemory> {
    let name = RcStr::from_str(alloc, name_of(head))?;
    let path = [number_of(head)].to_vec(alloc)?;
    Ok(Origin { path, name })
}

fn boxed(alloc: Global, ty: Option<Ty>) -> Result<Box<Ty>, NoMemory> {
    match ty {
        Some(ty) => Ok(Box::new(alloc, ty)?),
        None => Err(AllocError),
    }
}

fn arrow(alloc: Global, stack: &mut Vec<Ty>) -> Result<Ty, NoMemory> {
    let from = boxed(alloc, stack.pop())?;
    let to = boxed(alloc, stack.pop())?;
    Ok(Ty::Arrow(from, to))
}

/// Takes the last types, so many of them, the last one first.
fn taken(alloc: Global, stack: &mut Vec<Ty>, count: usize) -> Result<Vec<Ty>, NoMemory> {
    let mut parts = Vec::new(alloc);
    for _ in 0..count {
        if let Some(part) = stack.pop() {
            parts.push(part)?;
        }
    }
    Ok(parts)
}

fn made(alloc: Global, stack: &mut Vec<Ty>, head: u8) -> Result<Ty, NoMemory> {
    match head {
        b'a' => Ok(Ty::Var(0)),
        b'b' => Ok(Ty::Var(1)),
        b'>' => arrow(alloc, stack),
        b'2' => Ok(Ty::Tuple(taken(alloc, stack, 2)?)),
        _ => {
            let origin = origin(alloc, head)?;
            Ok(Ty::Con(origin, taken(alloc, stack, arity(head))?))
        }
    }
}

/// The types of a text in prefix order, the first one last.
fn types(alloc: Global, text: &[u8]) -> Result<Vec<Ty>, NoMemory> {
    let mut stack = Vec::new(alloc);
    for head in text.iter().rev() {
        let ty = made(alloc, &mut stack, *head)?;
        stack.push(ty)?;
    }
    Ok(stack)
}

fn one(alloc: Global, text: &[u8]) -> Result<Ty, NoMemory> {
    match types(alloc, text)?.pop() {
        Some(ty) => Ok(ty),
        None => Err(AllocError),
    }
}

/// The scheme with one variable of its own at one type.
fn instance(alloc: Global, body: &[u8], at: &[u8]) -> Result<Ty, NoMemory> {
    let scheme = Scheme {
        bound: 1,
        body: one(alloc, body)?,
    };
    let args = types(alloc, at)?;
    if args.len() != 1 {
        return Err(AllocError);
    }
    instance_of(alloc, &scheme, &args)
}

fn replacements(alloc: Global, by: &[(u8, &[u8])]) -> Result<OriginMap, NoMemory> {
    let mut pairs = Vec::new(alloc);
    for (head, text) in by {
        let ty = one(alloc, text)?;
        pairs.push((origin(alloc, *head)?, ty))?;
    }
    Ok(OriginMap { pairs })
}

/// How a type is given.
enum Given {
    Written(&'static [u8]),
    /// The scheme with one variable of its own at a type
    Instance(&'static [u8], &'static [u8]),
    /// A type with types in place of constructors
    Replaced(&'static [u8], &'static [(u8, &'static [u8])]),
}

fn read_given(alloc: Global, of: &Given) -> Result<Ty, NoMemory> {
    match of {
        Given::Written(text) => one(alloc, text),
        Given::Instance(body, at) => instance(alloc, body, at),
        Given::Replaced(text, by) => {
            let by = replacements(alloc, by)?;
            replace_origins(alloc, &one(alloc, text)?, &by)
        }
    }
}

fn is_same(alloc: Global, of: &Given, text: &[u8]) -> Result<bool, NoMemory> {
    let found = read_given(alloc, of)?;
    Ok(same_type(&found, &one(alloc, text)?))
}

/// A type, another one, and whether they are the same.
const SAME: &[(&str, Given, &[u8], bool)] = &[
    // 'a -> 'b list * 'a, of which 'a is the scheme's own, at int
    (
        "instance of a scheme",
        Given::Instance(b">a2Lba", b"I"),
        b">I2LbI",
        true,
    ),
    // int list with `'a list` as 'a * 'a and int as int list: what is put in isn't looked through again
    (
        "origins are replaced once",
        Given::Replaced(b"LI", &[(b'L', b"2aa"), (b'I', b"LI")]),
        b"2LILI",
        true,
    ),
    // two types of one name and other paths are two types
    ("the same path", Given::Written(b"T"), b"T", true),
    ("another path", Given::Written(b"T"), b"U", false),
];

#[test]
fn same_types(rt: HostRuntime) -> Result<(), Fail> {
    for (name, of, text, wanted) in SAME {
        assert!(rt; is_same(rt.alloc(), of, text)? == *wanted, "{name}");
    }
    Ok(())
}
