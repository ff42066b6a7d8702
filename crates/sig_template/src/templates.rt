//! Templates: made anew at a node, with a type given, and applied.
ghost use Rattle.std.specs.Prelude.{◌≡◌, [], IfOk, IfSome, option_map};
ghost use Rattle.type_terms.specs.Views.{path_of};
ghost use Rattle.signature_model.specs.Changes.{in_front, realised};
ghost use Rattle.signature_model.specs.Templates.{origins_at, without, only};
ghost use Rattle.typing_state.specs.Goes.{Goes};
ghost use Rattle.type_reading.specs.Copying.{paths_of, declared, IsDeclared};
ghost use Rattle.sig_template.specs.Realising.{IsApplied};
ghost use Rattle.sig_template.specs.Changed.{IsChangedSig};
ghost use Rattle.sig_template.specs.Live.{AreLive};
ghost use Rattle.sig_template.specs.Abstract.{abstract_declared, abstract_of, abstract_named};

use crate::changing::changed;
use crate::realising::realisation;
use crate::shared::{no_changes, share_sig};
use env_table::{Declaration, Entry, Kind, Origin, Shape, Sig, Template, What};
use owned_lists::{owned, push};
use std::rc::Rc;
use type_reading::{Changes, Real, copied_origin, in_front, is_among};
use typing_state::{NoMemory, NodeRef, Parts};

/// Copies of origins, in their order.
pub fn copied_origins(at: &Parts, origins: &[Origin]) -> Result<Vec<Origin>, NoMemory>
    ensures { IfOk result (λ os. paths_of os.items ≡ paths_of origins.now) }
{
    let mut copied = Vec::new(at.alloc());
    for origin in origins {
        push(&mut copied, copied_origin(at, origin)?)?;
    }
    Ok(copied)
}

/// The origins that are made at the node of this number.
fn origins_at(at: &Parts, origins: &[Origin], node: u64) -> Result<Vec<Origin>, NoMemory>
    ensures { IfOk result (λ os. paths_of os.items ≡ origins_at (paths_of origins.now) node) }
{
    let mut made = Vec::new(at.alloc());
    for origin in origins {
        push(&mut made, in_front(at, node, origin)?)?;
    }
    Ok(made)
}

/// The origins but one.
fn without(at: &Parts, origin: &Origin, origins: &[Origin]) -> Result<Vec<Origin>, NoMemory>
    ensures { IfOk result (λ os. paths_of os.items ≡ without (path_of origin.now) (paths_of origins.now)) }
{
    let mut others = Vec::new(at.alloc());
    for other in origins {
        if other.path != origin.path {
            push(&mut others, copied_origin(at, other)?)?;
        }
    }
    Ok(others)
}

/// The signature of a template whose origins are made anew at the node of this number, with these origins.
pub fn made_at(at: &mut Parts, template: &Template, node: u64) -> Result<Template, NoMemory>
    ensures made { IfOk result (λ t. paths_of t.made.items ≡ origins_at (paths_of template.now.made.items) node) }
    ensures sig { IfOk result (λ t. AreLive at.old.store.nodes template.now.sig.value → IsChangedSig at.new.store.nodes (λ _. in_front (paths_of template.now.made.items) node) template.now.sig.value t.sig.value) }
    ensures same { IfOk result (λ t. paths_of template.now.made.items ≡ [] → (t.sig.value ≡ template.now.sig.value) × (at.new ≡ at.old)) }
    ensures goes { Goes at.old at.new }
{
    let made = origins_at(at, &template.made, node)?;
    if template.made.is_empty() {
        return Ok(Template {
            made,
            sig: share_sig(&template.sig)?,
        });
    }
    let changes = Changes {
        made: copied_origins(at, &template.made)?,
        number: node,
        real: Vec::new(at.alloc()),
    };
    Ok(Template {
        made,
        sig: changed(at, &template.sig, &changes)?,
    })
}

/// The origin of an abstract type that a declaration makes here.
fn abstract_declared<'a>(
    declaration: &'a Declaration,
    made: &[Origin],
    arity: u32,
) -> Option<&'a Origin>
    ensures { option_map (λ o. path_of o.now) result ≡ abstract_declared (paths_of made.now) arity declaration.now }
{
    match (&declaration.origin, &declaration.shape) {
        (Some(origin), Shape::Opaque) if declaration.arity == arity && is_among(made, origin) => {
            Some(origin)
        }
        _ => None,
    }
}

/// The origin of an abstract type of a name that an entry makes here.
fn abstract_of<'a>(entry: &'a Entry, made: &[Origin], name: &str, arity: u32) -> Option<&'a Origin>
    ensures { option_map (λ o. path_of o.now) result ≡ abstract_of (paths_of made.now) name.now arity entry.now }
{
    if entry.kind != Kind::TypeName || !entry.name.is(name) {
        return None;
    }
    match &entry.what {
        What::Type(declaration) => abstract_declared(declaration, made, arity),
        What::Scheme(_) => None,
        What::Constructor(_, _) => None,
        What::Exception(_) => None,
        What::Label(_, _) => None,
        What::Module(_) => None,
        What::ModuleType(_) => None,
    }
}

/// The newest abstract type of a name and a number of parameters.
fn abstract_named<'a>(template: &'a Template, name: &str, arity: u32) -> Option<&'a Origin>
    ensures { option_map (λ o. path_of o.now) result ≡ abstract_named template.now name.now arity }
{
    let mut rest = template.sig.entries();
    while let Some((entry, older)) = rest.split_first() {
        if let Some(origin) = abstract_of(entry, &template.made, name, arity) {
            return Some(origin);
        }
        rest = older;
    }
    None
}

/// The template in which the newest abstract type of a name is this type, behind so many parameters; None exactly where there
/// is no such type.
pub fn with_type(
    at: &mut Parts,
    template: &Template,
    name: &str,
    arity: u32,
    root: NodeRef,
) -> Result<Option<Template>, NoMemory>
    ensures made { IfOk result (λ with. option_map (λ t. paths_of t.made.items) with ≡ option_map (λ o. without o (paths_of template.now.made.items)) (abstract_named template.now name.now arity)) }
    ensures sig { IfOk result (λ with. IfSome with (λ t. IfSome (abstract_named template.now name.now arity) (λ o. IsDeclared at.old.store.nodes root.0 arity → AreLive at.old.store.nodes template.now.sig.value → IsChangedSig at.new.store.nodes (λ V. realised (only o (declared arity (V root.0)))) template.now.sig.value t.sig.value))) }
    ensures goes { Goes at.old at.new }
{
    let Some(origin) = abstract_named(template, name, arity) else {
        return Ok(None);
    };
    let made = without(at, origin, &template.made)?;
    let mut changes = no_changes(at);
    let real = Real {
        origin: copied_origin(at, origin)?,
        root,
        arity,
    };
    push(&mut changes.real, real)?;
    Ok(Some(Template {
        made,
        sig: changed(at, &template.sig, &changes)?,
    }))
}

/// The body of a functor for an argument: the parameter's origins are those of the argument, and the body's are made anew at
/// the node of this number.
pub fn applied(
    at: &mut Parts,
    node: u64,
    argument: &Sig,
    parameter: &Template,
    body: &Template,
) -> Result<Template, NoMemory>
    ensures made { IfOk result (λ t. paths_of t.made.items ≡ origins_at (paths_of body.now.made.items) node) }
    ensures sig { IfOk result (λ t. IsApplied at.old.store.nodes at.new.store.nodes node argument.now parameter.now body.now t) }
    ensures goes { Goes at.old at.new }
{
    let mut realised = realisation(at, argument, parameter)?;
    realised.changes.made = copied_origins(at, &body.made)?;
    realised.changes.number = node;
    let sig = changed(at, &body.sig, &realised.changes)?;
    realised.close(at)?;
    Ok(Template {
        made: origins_at(at, &body.made, node)?,
        sig,
    })
}

/// An owner of a signature.
pub fn owned_sig(at: &Parts, sig: Sig) -> Result<Rc<Sig>, NoMemory>
    ensures { IfOk result (λ r. r.value ≡ sig) }
{
    owned(at.alloc(), sig)
}
