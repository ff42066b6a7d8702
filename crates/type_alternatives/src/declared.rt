//! The declaration that makes an origin, among the names in scope and in the modules there, shadowed ones too.
ghost use Rattle.std.specs.Prelude.{◌≡◌, ◌∷◌, ◌++◌, [], Some, IfNone, IfOk, IfSome, OnOk, option_map};
ghost use Rattle.type_terms.specs.Views.{path_of};
ghost use Rattle.signature_model.specs.Records.{is_of_type};
ghost use Rattle.env_table.specs.Views.{names_of};
ghost use Rattle.env_table.specs.declared.entries.Declaration.{Declaration};
ghost use Rattle.type_print.specs.Paths.{contents};
ghost use Rattle.type_alternatives.specs.Standing.{declaration_in, lists_of, IsFoundOrNone};

use env_table::{Declaration, Entries, Entry, Env, What};
use std::alloc::{AllocError, Global};
use std::rc::Rc;
use text_terms::NoMemory;
use type_nodes::Origin;

/// Whether a declaration makes an origin.
pub(crate) fn makes(declaration: &Declaration, origin: &Origin) -> bool
    ensures { result ≡ is_of_type (path_of origin.now) (option_map path_of declaration.now.origin) }
{
    match &declaration.origin {
        Some(made) => origin.path == made.path,
        None => false,
    }
}

/// What an entry declares, if it is a type.
fn declaration_in(entry: &Entry) -> Option<&Rc<Declaration>>
    ensures { option_map (λ d. d.now.value) result ≡ declaration_in entry.now }
{
    match &entry.what {
        What::Type(declaration) => Some(declaration),
        What::Scheme(_) => None,
        What::Constructor(_, _) => None,
        What::Exception(_) => None,
        What::Label(_, _) => None,
        What::Module(_) => None,
        What::ModuleType(_) => None,
    }
}

/// What stands in an entry, where that is known.
pub(crate) fn contents(entry: &Entry) -> Entries<'_>
    ensures { names_of result ≡ contents entry.now }
{
    match &entry.what {
        What::Module(sig) => sig.entries(),
        What::Scheme(_) => Entries::none(),
        What::Constructor(_, _) => Entries::none(),
        What::Exception(_) => Entries::none(),
        What::Label(_, _) => Entries::none(),
        What::Type(_) => Entries::none(),
        What::ModuleType(_) => Entries::none(),
    }
}

/// The declaration that an entry is, if it makes the origin.
fn declaration_of_origin<'a>(entry: &'a Entry, origin: &Origin) -> Option<&'a Rc<Declaration>>
    ensures made { IfSome result (λ d. (declaration_in entry.now ≡ Some d.now.value) × (option_map path_of d.now.value.origin ≡ Some (path_of origin.now))) }
    ensures other { IfNone result ((d : Declaration) → declaration_in entry.now ≡ Some d → option_map path_of d.origin ≡ Some (path_of origin.now) → ⊥) }
{
    match declaration_in(entry) {
        Some(declaration) if makes(declaration, origin) => Some(declaration),
        _ => None,
    }
}

fn add<'a>(left: &mut Vec<Entries<'a>>, entries: Entries<'a>) -> Result<(), NoMemory>
    ensures { OnOk result (lists_of left.new.items ≡ lists_of left.old.items ++ names_of entries.entry ∷ []) }
{
    left.push(entries).map_err(|_| AllocError)
}

fn take_last<'a>(left: &mut Vec<Entries<'a>>) -> Option<Entries<'a>>
    ensures some { IfSome result (λ es. lists_of left.old.items ≡ lists_of left.new.items ++ names_of es ∷ []) }
    ensures none { IfNone result (lists_of left.old.items ≡ []) }
{
    left.pop()
}

/// A declaration that makes the origin. None where no entry is one.
pub(crate) fn declaration_of<'a>(
    alloc: Global,
    origin: &Origin,
    env: &'a Env,
) -> Result<Option<&'a Rc<Declaration>>, NoMemory>
    ensures { IfOk result (λ r. IsFoundOrNone env.now (path_of origin.now) (option_map (λ d. d.now.value) r)) }
{
    let mut left = Vec::new(alloc);
    add(&mut left, env.entries())?;
    while let Some(entries) = take_last(&mut left) {
        if let Some((entry, older)) = entries.split_first() {
            if let Some(found) = declaration_of_origin(entry, origin) {
                return Ok(Some(found));
            }
            add(&mut left, older)?;
            add(&mut left, contents(entry))?;
        }
    }
    Ok(None)
}
