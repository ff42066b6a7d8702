//! Arguments in place of variables, and types in place of origins.
ghost use Rattle.std.specs.Prelude.{◌≡◌, List, ℕ, Option, option_map, IfOk, length, map, MatchOption};
ghost use Rattle.type_model.specs.Types.{Typ};
ghost use Rattle.type_model.specs.Substitutions.{apply, with_arguments};
ghost use Rattle.type_model.specs.Origins.{replaced, replaced_by, replacement_for};
ghost use Rattle.type_terms.specs.Views.{type_of, spelled, spelling_of, replacements_of, replacements_by, spelled_for};

use crate::copies::{boxed, copy_of};
use crate::types::{Origin, OriginMap, Scheme, Ty};
use std::alloc::Global;
use text_terms::NoMemory;

/// The arguments in place of the scheme's own variables, the i-th for the variable i, from 0.
pub fn instance_of(alloc: Global, scheme: &Scheme, args: &[Ty]) -> Result<Ty, NoMemory>
    requires { length args.now ≡ scheme.now.bound }
    ensures meaning { IfOk result (λ t. type_of t ≡ apply (with_arguments (map type_of args.now)) (type_of scheme.now.body)) }
    ensures names { IfOk result (λ t. spelled t ≡ apply (with_arguments (map spelled args.now)) (spelled scheme.now.body)) }
{
    filled(alloc, &scheme.body, args)
}

/// A type with arguments in place of the variables 0, 1 and so on. Every other variable stays.
#[cycle(filling)]
fn filled(alloc: Global, ty: &Ty, args: &[Ty]) -> Result<Ty, NoMemory>
    ensures meaning { IfOk result (λ t. type_of t ≡ apply (with_arguments (map type_of args.now)) (type_of ty.now)) }
    ensures names { IfOk result (λ t. spelled t ≡ apply (with_arguments (map spelled args.now)) (spelled ty.now)) }
{
    match ty {
        Ty::Var(v) => argument_or_variable(alloc, *v, args),
        Ty::Arrow(from, to) => {
            let from = boxed(alloc, filled(alloc, from, args)?)?;
            let to = boxed(alloc, filled(alloc, to, args)?)?;
            Ok(Ty::Arrow(from, to))
        }
        Ty::Tuple(parts) => Ok(Ty::Tuple(all_filled(alloc, parts, args)?)),
        Ty::Con(origin, parts) => Ok(Ty::Con(
            origin.copied(alloc)?,
            all_filled(alloc, parts, args)?,
        )),
    }
}

#[cycle(filling)]
fn all_filled(alloc: Global, types: &[Ty], args: &[Ty]) -> Result<Vec<Ty>, NoMemory>
    ensures meaning { IfOk result (λ ts. map type_of ts.items ≡ map (apply (with_arguments (map type_of args.now))) (map type_of types.now)) }
    ensures names { IfOk result (λ ts. map spelled ts.items ≡ map (apply (with_arguments (map spelled args.now))) (map spelled types.now)) }
{
    let mut all = Vec::new(alloc);
    for ty in types {
        let one = filled(alloc, ty, args)?;
        all.push(one)?;
    }
    Ok(all)
}

fn argument_or_variable(alloc: Global, v: u64, args: &[Ty]) -> Result<Ty, NoMemory>
    ensures meaning { IfOk result (λ t. type_of t ≡ with_arguments (map type_of args.now) v) }
    ensures names { IfOk result (λ t. spelled t ≡ with_arguments (map spelled args.now) v) }
{
    match args.get(v as usize) {
        Some(arg) => copy_of(alloc, arg),
        None => Ok(Ty::Var(v)),
    }
}

/// The type that the map puts in place of an origin, if it has one for it.
fn find<'a>(changes: &'a OriginMap, origin: &Origin) -> Option<&'a Ty>
    ensures meaning { option_map (λ t. type_of t.now) result ≡ replacement_for origin.now.path.items (replacements_of changes.now) }
    ensures names { option_map (λ t. spelled t.now) result ≡ replacement_for origin.now.path.items (replacements_by spelling_of changes.now) }
{
    for (from, to) in &changes.pairs {
        if origin.path == from.path {
            return Some(to);
        }
    }
    None
}

/// The map's types in place of their origins. What they put in isn't looked through again.
#[cycle(replacing)]
pub fn replace_origins(alloc: Global, ty: &Ty, changes: &OriginMap) -> Result<Ty, NoMemory>
    ensures meaning { IfOk result (λ t. type_of t ≡ replaced (replacements_of changes.now) (type_of ty.now)) }
    ensures names { IfOk result (λ t. spelled t ≡ replaced_by (spelled_for changes.now) (spelled ty.now)) }
{
    match ty {
        Ty::Var(v) => Ok(Ty::Var(*v)),
        Ty::Arrow(from, to) => {
            let from = boxed(alloc, replace_origins(alloc, from, changes)?)?;
            let to = boxed(alloc, replace_origins(alloc, to, changes)?)?;
            Ok(Ty::Arrow(from, to))
        }
        Ty::Tuple(parts) => Ok(Ty::Tuple(replace_in_all(alloc, parts, changes)?)),
        Ty::Con(origin, args) => {
            let args = replace_in_all(alloc, args, changes)?;
            match find(changes, origin) {
                Some(body) => filled(alloc, body, &args),
                None => Ok(Ty::Con(origin.copied(alloc)?, args)),
            }
        }
    }
}

#[cycle(replacing)]
fn replace_in_all(alloc: Global, types: &[Ty], changes: &OriginMap) -> Result<Vec<Ty>, NoMemory>
    ensures meaning { IfOk result (λ ts. map type_of ts.items ≡ map (replaced (replacements_of changes.now)) (map type_of types.now)) }
    ensures names { IfOk result (λ ts. map spelled ts.items ≡ map (replaced_by (spelled_for changes.now)) (map spelled types.now)) }
{
    let mut all = Vec::new(alloc);
    for ty in types {
        let one = replace_origins(alloc, ty, changes)?;
        all.push(one)?;
    }
    Ok(all)
}
