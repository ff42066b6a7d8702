//! The walk over the components of a wanted signature.
ghost use Rattle.std.specs.Prelude.{◌≡◌, ◌+◌, ◌^◌, ◌-◌, map, option_map, IfOk, IfSome};
ghost use Rattle.text_terms.specs.Bytes.{str_bytes};
ghost use Rattle.signature_model.specs.Failing as rules;
ghost use Rattle.signature_model.specs.Matching.{new_number};
ghost use Rattle.type_reading.specs.Copying.{paths_of};
ghost use Rattle.typing_state.specs.Goes.{Goes};
ghost use Rattle.sig_template.specs.Ways.{sig_of};
ghost use Rattle.signature_match.specs.Blames.{cause_of, blame_of, unless, MayFail};
ghost use Rattle.signature_match.specs.Newest.{newest_value, newest_type, newest_exception, newest_module, newest_module_type, exception_in, exception_named};
ghost use Rattle.signature_match.specs.Anew.{IsMadeAnew};
ghost use Rattle.signature_match.specs.Wanting.{IsRealisedIn, IsWanted, IsRenewedBody, AreBodies};
ghost use Rattle.signature_match.specs.Telling.{TellsValue, TellsType, TellsException, Tells, TellsWanted, TellsFirst, TellsOne, TellsBoth, TellsFunctors, TellsEntry, TellsParameter, TellsMatch};

use crate::causes::{Cause, Mismatch};
use crate::compare::{covers, declares, same_exception};
use env_table::{Constructor, Declaration, Entry, Kind, Sig, Template, What};
use owned_lists::shared;
use sig_template::{changed, copied_origins, made_at, realisation};
use std::alloc::AllocError;
use std::rc::Rc;
use type_reading::Changes;
use typing_state::{Depth, NoMemory, NodeRef, Parts};

/// The numbers from this one on are no node's: the origins of wanted parameters get them, each by the functors that stand
/// round it.
const NEW: u64 = 9_223_372_032_559_808_512;

/// The number for the origins of a wanted parameter that so many functors stand round; None where it is too large.
fn new_number(round: u64) -> Option<u64>
    ensures { IfSome result (λ n. n ≡ new_number round) }
{
    NEW.checked_add(round)
}

/// A mismatch of one component, if there is one.
fn unless(at: &Parts, met: bool, cause: Cause) -> Option<Mismatch>
    ensures { option_map blame_of result ≡ unless met (cause_of cause) }
{
    if met {
        None
    } else {
        Some(Mismatch::here(at.alloc(), cause))
    }
}

/// The root of the newest actual value of a name.
fn newest_value(actual: &Sig, name: &str) -> Option<NodeRef>
    ensures { result ≡ newest_value name.now actual.now }
{
    match actual.entries().newest(Kind::Value, name) {
        Some(entry) => match &entry.what {
            What::Scheme(root) => Some(*root),
            What::Constructor(_, _)
            | What::Exception(_)
            | What::Label(_, _)
            | What::Type(_)
            | What::Module(_)
            | What::ModuleType(_) => None,
        },
        None => None,
    }
}

/// The newest actual type of a name.
fn newest_type<'a>(actual: &'a Sig, name: &str) -> Option<&'a Rc<Declaration>>
    ensures { option_map (λ d. d.now.value) result ≡ newest_type name.now actual.now }
{
    match actual.entries().newest(Kind::TypeName, name) {
        Some(entry) => match &entry.what {
            What::Type(declaration) => Some(declaration),
            What::Scheme(_)
            | What::Constructor(_, _)
            | What::Exception(_)
            | What::Label(_, _)
            | What::Module(_)
            | What::ModuleType(_) => None,
        },
        None => None,
    }
}

/// The exception that an entry is.
fn exception_in(entry: &Entry) -> Option<&Rc<Constructor>>
    ensures { option_map (λ c. c.now.value) result ≡ exception_in entry.now }
{
    match &entry.what {
        What::Exception(constructor) => Some(constructor),
        What::Scheme(_)
        | What::Constructor(_, _)
        | What::Label(_, _)
        | What::Type(_)
        | What::Module(_)
        | What::ModuleType(_) => None,
    }
}

/// An entry's exception, where it has this name.
fn exception_named<'a>(entry: &'a Entry, name: &str) -> Option<&'a Rc<Constructor>>
    ensures { option_map (λ c. c.now.value) result ≡ exception_named name.now entry.now }
{
    if entry.name.is(name) {
        exception_in(entry)
    } else {
        None
    }
}

/// The newest actual exception of a name.
fn newest_exception<'a>(actual: &'a Sig, name: &str) -> Option<&'a Rc<Constructor>>
    ensures { option_map (λ c. c.now.value) result ≡ newest_exception name.now actual.now }
{
    let mut rest = actual.entries();
    while let Some((entry, older)) = rest.split_first() {
        let found = exception_named(entry, name);
        if found.is_some() {
            return found;
        }
        rest = older;
    }
    None
}

/// The signature of the newest actual module of a name.
fn newest_module<'a>(actual: &'a Sig, name: &str) -> Option<&'a Rc<Sig>>
    ensures { option_map (λ s. s.now.value) result ≡ newest_module name.now actual.now }
{
    match actual.entries().newest(Kind::Module, name) {
        Some(entry) => match &entry.what {
            What::Module(sig) => Some(sig),
            What::Scheme(_)
            | What::Constructor(_, _)
            | What::Exception(_)
            | What::Label(_, _)
            | What::Type(_)
            | What::ModuleType(_) => None,
        },
        None => None,
    }
}

/// The newest actual module type of a name.
fn newest_module_type<'a>(actual: &'a Sig, name: &str) -> Option<&'a Rc<Template>>
    ensures { option_map (λ t. t.now.value) result ≡ newest_module_type name.now actual.now }
{
    match actual.entries().newest(Kind::ModuleType, name) {
        Some(entry) => match &entry.what {
            What::ModuleType(template) => Some(template),
            What::Scheme(_)
            | What::Constructor(_, _)
            | What::Exception(_)
            | What::Label(_, _)
            | What::Type(_)
            | What::Module(_) => None,
        },
        None => None,
    }
}

/// A wanted value.
fn match_value(
    at: &mut Parts,
    actual: &Sig,
    wanted: &Entry,
    root: NodeRef,
) -> Result<Option<Mismatch>, NoMemory>
    ensures told { IfOk result (λ met. TellsValue at.old.store.nodes at.new.store.nodes (newest_value (str_bytes wanted.now.name) actual.now) root (option_map blame_of met)) }
    ensures goes { Goes at.old at.new }
{
    match newest_value(actual, wanted.name.as_str()) {
        None => Ok(unless(at, false, Cause::Absent)),
        Some(found) => {
            let met = covers(at, found, root)?;
            Ok(unless(at, met, Cause::ValueDiffers))
        }
    }
}

/// A wanted type.
fn match_type(
    at: &mut Parts,
    actual: &Sig,
    wanted: &Entry,
    declaration: &Declaration,
) -> Result<Option<Mismatch>, NoMemory>
    ensures told { IfOk result (λ met. TellsType at.old.store.nodes at.new.store.nodes (newest_type (str_bytes wanted.now.name) actual.now) declaration.now (option_map blame_of met)) }
    ensures goes { Goes at.old at.new }
{
    match newest_type(actual, wanted.name.as_str()) {
        None => Ok(unless(at, false, Cause::Absent)),
        Some(found) if found.arity != declaration.arity => {
            Ok(unless(at, false, Cause::TypeArity))
        }
        Some(found) => {
            let met = declares(at, found, declaration)?;
            Ok(unless(at, met, Cause::TypeDiffers))
        }
    }
}

/// A wanted exception.
fn match_exception(
    at: &mut Parts,
    actual: &Sig,
    wanted: &Entry,
    constructor: &Constructor,
) -> Result<Option<Mismatch>, NoMemory>
    ensures told { IfOk result (λ met. TellsException at.old.store.nodes at.new.store.nodes (newest_exception (str_bytes wanted.now.name) actual.now) constructor.now (option_map blame_of met)) }
    ensures goes { Goes at.old at.new }
{
    match newest_exception(actual, wanted.name.as_str()) {
        None => Ok(unless(at, false, Cause::Absent)),
        Some(found) => {
            let met = same_exception(at, found, constructor)?;
            Ok(unless(at, met, Cause::ExceptionDiffers))
        }
    }
}

/// One wanted component; so many functors stand round it.
#[cycle(matching)]
fn match_entry(
    at: &mut Parts,
    actual: &Sig,
    wanted: &Entry,
    round: u64,
    depth: Depth,
) -> Result<Option<Mismatch>, NoMemory>
    ensures told { IfOk result (λ met. TellsEntry round at.old.store.nodes at.new.store.nodes actual.now wanted.now (option_map blame_of met)) }
    ensures goes { Goes at.old at.new }
{
    match match_component(at, actual, wanted, round, depth)? {
        None => Ok(None),
        Some(mismatch) => Ok(Some(mismatch.inside(at.alloc(), &wanted.name)?)),
    }
}

/// The same, where the path of a mismatch begins inside of the component.
#[cycle(matching)]
fn match_component(
    at: &mut Parts,
    actual: &Sig,
    wanted: &Entry,
    round: u64,
    depth: Depth,
) -> Result<Option<Mismatch>, NoMemory>
    ensures told { IfOk result (λ met. TellsOne round at.old.store.nodes at.new.store.nodes actual.now wanted.now (option_map blame_of met)) }
    ensures goes { Goes at.old at.new }
{
    match &wanted.what {
        What::Scheme(root) => match_value(at, actual, wanted, *root),
        What::Type(declaration) => match_type(at, actual, wanted, declaration),
        What::Exception(constructor) => match_exception(at, actual, wanted, constructor),
        What::Module(sig) => match newest_module(actual, wanted.name.as_str()) {
            None => Ok(unless(at, false, Cause::Absent)),
            Some(found) => meets(at, found, sig, round, depth.inside()?),
        },
        What::ModuleType(template) => match newest_module_type(actual, wanted.name.as_str()) {
            None => Ok(unless(at, false, Cause::Absent)),
            Some(found) => match_both(at, found, template, round, depth.inside()?),
        },
        What::Constructor(_, _) => Ok(None),
        What::Label(_, _) => Ok(None),
    }
}

/// Two module types match each other.
#[cycle(matching)]
fn match_both(
    at: &mut Parts,
    actual: &Template,
    wanted: &Template,
    round: u64,
    depth: Depth,
) -> Result<Option<Mismatch>, NoMemory>
    ensures told { IfOk result (λ met. TellsBoth round at.old.store.nodes at.new.store.nodes actual.now wanted.now (option_map blame_of met)) }
    ensures goes { Goes at.old at.new }
{
    if matches(at, &actual.sig, wanted, round, depth.inside()?)?.is_some() {
        return Ok(unless(at, false, Cause::ModuleTypeDiffers));
    }
    let met = matches(at, &wanted.sig, actual, round, depth.inside()?)?.is_none();
    Ok(unless(at, met, Cause::ModuleTypeDiffers))
}

/// Whether an actual signature meets a wanted one whose origins are realised.
#[cycle(matching)]
fn meets(
    at: &mut Parts,
    actual: &Sig,
    wanted: &Sig,
    round: u64,
    depth: Depth,
) -> Result<Option<Mismatch>, NoMemory>
    ensures told { IfOk result (λ met. Tells round at.old.store.nodes at.new.store.nodes actual.now wanted.now (option_map blame_of met)) }
    ensures goes { Goes at.old at.new }
{
    match (actual, wanted) {
        (Sig::Hole, _) => Ok(None),
        (Sig::Structure(_), Sig::Hole) => Ok(None),
        (Sig::Functor(_, _), Sig::Hole) => Ok(None),
        (Sig::Structure(_), Sig::Structure(components)) => {
            first_failing(at, actual, &components.entries, round, depth)
        }
        (Sig::Functor(parameter, body), Sig::Functor(wanted_parameter, wanted_body)) => {
            let met = functors_match(
                at,
                (parameter, body),
                (wanted_parameter, wanted_body),
                round,
                depth.inside()?,
            )?;
            Ok(unless(at, met, Cause::KindDiffers))
        }
        (Sig::Structure(_), Sig::Functor(_, _)) => Ok(unless(at, false, Cause::KindDiffers)),
        (Sig::Functor(_, _), Sig::Structure(_)) => Ok(unless(at, false, Cause::KindDiffers)),
    }
}

/// The first of several wanted components that fails.
#[cycle(matching)]
fn first_failing(
    at: &mut Parts,
    actual: &Sig,
    wanted: &[Rc<Entry>],
    round: u64,
    depth: Depth,
) -> Result<Option<Mismatch>, NoMemory>
    ensures told { IfOk result (λ met. TellsFirst round at.old.store.nodes at.new.store.nodes actual.now (map (λ r. r.value) wanted.now) (option_map blame_of met)) }
    ensures goes { Goes at.old at.new }
{
    for entry in wanted {
        let failed = match_entry(at, actual, entry, round, depth.inside()?)?;
        if failed.is_some() {
            return Ok(failed);
        }
    }
    Ok(None)
}

/// Two functors: the wanted parameter with new origins matches the actual one, and the actual body for it the wanted one.
#[cycle(matching)]
fn functors_match(
    at: &mut Parts,
    actual: (&Rc<Template>, &Rc<Template>),
    wanted: (&Rc<Template>, &Rc<Template>),
    round: u64,
    depth: Depth,
) -> Result<bool, NoMemory>
    ensures told { IfOk result (λ met. TellsFunctors round at.old.store.nodes at.new.store.nodes actual.entry.0.now.value actual.entry.1.now.value wanted.entry.0.now.value wanted.entry.1.now.value met) }
    ensures goes { Goes at.old at.new }
{
    let (Some(inner), Some(number)) = (round.checked_add(1), new_number(round)) else {
        return Err(AllocError);
    };
    let (argument, met) = match_parameter(at, actual.0, wanted.0, number, inner, depth)?;
    if !met {
        return Ok(false);
    }
    let (body, wanted_body) = bodies(at, &argument.sig, actual, wanted, number)?;
    Ok(matches(at, &body, &wanted_body, inner, depth.inside()?)?.is_none())
}

/// The wanted parameter with the number in front of its origins, and whether it matches the actual one.
#[cycle(matching)]
fn match_parameter(
    at: &mut Parts,
    actual: &Template,
    wanted: &Template,
    number: u64,
    round: u64,
    depth: Depth,
) -> Result<(Template, bool), NoMemory>
    ensures anew { IfOk result (λ p. IsMadeAnew at.old.store.nodes number wanted.now p.0) }
    ensures told { IfOk result (λ p. TellsParameter round number at.old.store.nodes at.new.store.nodes actual.now wanted.now p.0 p.1) }
    ensures goes { Goes at.old at.new }
{
    let argument = made_at(at, wanted, number)?;
    let failed = matches(at, &argument.sig, actual, round, depth.inside()?)?;
    Ok((argument, failed.is_none()))
}

/// The actual body for an argument, and the wanted one for it.
fn bodies(
    at: &mut Parts,
    argument: &Sig,
    actual: (&Rc<Template>, &Rc<Template>),
    wanted: (&Rc<Template>, &Rc<Template>),
    number: u64,
) -> Result<(Rc<Sig>, Template), NoMemory>
    ensures are { IfOk result (λ p. AreBodies at.old.store.nodes at.new.store.nodes number argument.now actual.entry.0.now.value actual.entry.1.now.value wanted.entry.0.now.value wanted.entry.1.now.value p.0.value p.1) }
    ensures goes { Goes at.old at.new }
{
    let wanted_body = renewed_body(at, wanted.0, wanted.1, number)?;
    let body = body_for(at, argument, actual.0, actual.1)?;
    Ok((body, wanted_body))
}

/// The actual body for an argument.
fn body_for(
    at: &mut Parts,
    argument: &Sig,
    parameter: &Template,
    body: &Template,
) -> Result<Rc<Sig>, NoMemory>
    ensures put { IfOk result (λ s. IsRealisedIn at.old.store.nodes at.new.store.nodes argument.now parameter.now (sig_of body.now) s.value) }
    ensures goes { Goes at.old at.new }
{
    realised_in(at, argument, parameter, &body.sig)
}

/// The wanted body for the wanted parameter with new origins.
fn renewed_body(
    at: &mut Parts,
    parameter: &Template,
    body: &Template,
    number: u64,
) -> Result<Template, NoMemory>
    ensures renewed { IfOk result (λ t. IsRenewedBody at.old.store.nodes at.new.store.nodes number parameter.now body.now t) }
    ensures goes { Goes at.old at.new }
{
    let changes = Changes {
        made: copied_origins(at, &parameter.made)?,
        number,
        real: Vec::new(at.alloc()),
    };
    Ok(Template {
        made: copied_origins(at, &body.made)?,
        sig: changed(at, &body.sig, &changes)?,
    })
}

/// A signature in which the origins of a template are realised by an actual signature.
fn realised_in(
    at: &mut Parts,
    actual: &Sig,
    template: &Template,
    sig: &Sig,
) -> Result<Rc<Sig>, NoMemory>
    ensures put { IfOk result (λ s. IsRealisedIn at.old.store.nodes at.new.store.nodes actual.now template.now sig.now s.value) }
    ensures goes { Goes at.old at.new }
{
    let mut realised = realisation(at, actual, template)?;
    let put = changed(at, sig, &realised.changes)?;
    realised.close(at)?;
    Ok(put)
}

/// The wanted signature, where its origins are realised by an actual one. One that makes no origin is shared.
fn wanted_for(at: &mut Parts, actual: &Sig, wanted: &Template) -> Result<Rc<Sig>, NoMemory>
    ensures wanted { IfOk result (λ s. IsWanted at.old.store.nodes at.new.store.nodes actual.now wanted.now s.value) }
    ensures goes { Goes at.old at.new }
{
    if wanted.made.is_empty() {
        shared(&wanted.sig)
    } else {
        realised_in(at, actual, wanted, &wanted.sig)
    }
}

/// Whether an actual signature matches a wanted one: its origins are realised first.
#[cycle(matching)]
fn matches(
    at: &mut Parts,
    actual: &Sig,
    wanted: &Template,
    round: u64,
    depth: Depth,
) -> Result<Option<Mismatch>, NoMemory>
    ensures told { IfOk result (λ met. TellsWanted round at.old.store.nodes at.new.store.nodes actual.now wanted.now (option_map blame_of met)) }
    ensures goes { Goes at.old at.new }
{
    let sig = wanted_for(at, actual, wanted)?;
    meets(at, actual, &sig, round, depth.inside()?)
}

/// The first component of a wanted signature that an actual one doesn't meet; None where it meets all. After a mismatch the types
/// are as before; else the weak variables that the match needs are bound.
pub fn match_sig(
    at: &mut Parts,
    actual: &Sig,
    wanted: &Template,
) -> Result<Option<Mismatch>, NoMemory>
    ensures told { IfOk result (λ met. TellsMatch at.old.store.nodes at.new.store.nodes actual.now wanted.now (option_map blame_of met)) }
    ensures mismatch { IfOk result (λ met. IfSome met (λ m. at.new.store ≡ at.old.store)) }
    ensures goes { Goes at.old at.new }
{
    let mark = at.mark();
    let failed = matches(at, actual, wanted, 0, Depth::WHOLE)?;
    if failed.is_some() {
        at.back_to(mark);
    }
    Ok(failed)
}
