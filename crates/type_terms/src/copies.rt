//! Copies of types.
ghost use Rattle.std.specs.Prelude.{◌≡◌, IfOk, map};
ghost use Rattle.text_terms.specs.Bytes.{str_bytes};
ghost use Rattle.type_terms.specs.Views.{type_of, spelled};

use crate::types::{Origin, Ty};
use std::alloc::{AllocError, Global};
use text_terms::NoMemory;

impl Origin {
    /// The same origin once more; its name is shared.
    pub fn copied(&self, alloc: Global) -> Result<Origin, NoMemory>
        ensures path { IfOk result (λ o. o.path.items ≡ self.now.path.items) }
        ensures name { IfOk result (λ o. str_bytes o.name ≡ str_bytes self.now.name) }
    {
        match self.path.iter().copied().collect(alloc) {
            Ok(path) => Ok(Origin {
                path,
                name: self.name.share()?,
            }),
            Err(_) => Err(AllocError),
        }
    }
}

/// A type on the heap.
pub fn boxed(alloc: Global, ty: Ty) -> Result<Box<Ty>, NoMemory>
    ensures { IfOk result (λ b. b.value ≡ ty) }
{
    Box::new(alloc, ty).map_err(|_| AllocError)
}

/// The same type once more.
#[cycle(copying)]
pub fn copy_of(alloc: Global, ty: &Ty) -> Result<Ty, NoMemory>
    ensures meaning { IfOk result (λ t. type_of t ≡ type_of ty.now) }
    ensures names { IfOk result (λ t. spelled t ≡ spelled ty.now) }
{
    match ty {
        Ty::Var(v) => Ok(Ty::Var(*v)),
        Ty::Arrow(from, to) => {
            let from = boxed(alloc, copy_of(alloc, from)?)?;
            let to = boxed(alloc, copy_of(alloc, to)?)?;
            Ok(Ty::Arrow(from, to))
        }
        Ty::Tuple(parts) => Ok(Ty::Tuple(copies_of(alloc, parts)?)),
        Ty::Con(origin, args) => Ok(Ty::Con(origin.copied(alloc)?, copies_of(alloc, args)?)),
    }
}

#[cycle(copying)]
fn copies_of(alloc: Global, types: &[Ty]) -> Result<Vec<Ty>, NoMemory>
    ensures meaning { IfOk result (λ ts. map type_of ts.items ≡ map type_of types.now) }
    ensures names { IfOk result (λ ts. map spelled ts.items ≡ map spelled types.now) }
{
    let mut copies = Vec::new(alloc);
    for ty in types {
        let copy = copy_of(alloc, ty)?;
        copies.push(copy)?;
    }
    Ok(copies)
}
