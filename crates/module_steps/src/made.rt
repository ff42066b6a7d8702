//! Modules: one that isn't known, one behind a seal, and what a functor gives for an argument.
ghost use Rattle.std.specs.Prelude.{◌≡◌, [], true, false, IfOk};
ghost use Rattle.env_table.specs.declared.entries.Template.{Template};
ghost use Rattle.typing_state.specs.Goes.{Goes};
ghost use Rattle.type_reading.specs.Copying.{paths_of};
ghost use Rattle.module_steps.specs.Modules.{is_functor, IsUnknown, IsBehind, IsTemplateAt};

use crate::lists::add_origins;
use crate::matches::ask_match;
use env_table::{Origin, Sig, Template};
use owned_lists::owned;
use sig_template::{applied, made_at};
use std::rc::Rc;
use syntax_tree::Span;
use typing_state::{NoMemory, Parts};

/// What a module expression comes to: its signature, and the origins that it makes.
#[derive(Drop)]
pub struct Made {
    pub sig: Rc<Sig>,
    pub makes: Vec<Origin>,
}

/// A module of which nothing is known, and that makes these origins.
pub fn hole(at: &Parts, makes: Vec<Origin>) -> Result<Made, NoMemory>
    ensures { IfOk result (λ m. IsUnknown m (paths_of makes.items)) }
{
    Ok(Made {
        sig: owned(at.alloc(), Sig::Hole)?,
        makes,
    })
}

/// A module that isn't known.
pub fn unknown(at: &Parts) -> Result<Made, NoMemory>
    ensures { IfOk result (λ m. IsUnknown m []) }
{
    hole(at, Vec::new(at.alloc()))
}

/// The signature of a template, whose origins are made behind these.
pub fn behind(at: &Parts, makes: Vec<Origin>, anew: Template) -> Result<Made, NoMemory>
    ensures { IfOk result (λ m. IsBehind m (paths_of makes.items) anew) }
{
    let mut makes = makes;
    add_origins(at, &mut makes, &anew.made)?;
    Ok(Made {
        sig: anew.sig,
        makes,
    })
}

/// A module behind a seal: the template made anew at the node of this number, whose origins stand behind those of the module.
pub fn sealed(
    at: &mut Parts,
    span: Span,
    made: Made,
    template: &Template,
    number: u64,
) -> Result<Made, NoMemory>
    ensures made { IfOk result (λ m. (anew : Template) × IsBehind m (paths_of made.makes.items) anew × IsTemplateAt at.old.store.nodes number template.now anew) }
    ensures goes { Goes at.old at.new }
{
    ask_match(at, span, &made.sig, template)?;
    let anew = made_at(at, template, number)?;
    behind(at, made.makes, anew)
}

/// The argument matches the parameter; the body for it, made anew at this node.
pub fn apply(
    at: &mut Parts,
    functor: &Sig,
    span: Span,
    argument: &Sig,
    makes: Vec<Origin>,
    number: u32,
) -> Result<Made, NoMemory>
    ensures unknown { IfOk result (λ m. is_functor functor.now ≡ false → IsUnknown m (paths_of makes.items)) }
    ensures goes { Goes at.old at.new }
{
    match functor {
        Sig::Functor(parameter, body) => {
            let kept = ask_match(at, span, argument, parameter)?;
            applied_if(at, kept, (parameter, body), argument, makes, number)
        }
        Sig::Structure(_) => hole(at, makes),
        Sig::Hole => hole(at, makes),
    }
}

/// The body of a functor for an argument that matches; for another one it isn't known.
fn applied_if(
    at: &mut Parts,
    matches: bool,
    functor: (&Rc<Template>, &Rc<Template>),
    argument: &Sig,
    makes: Vec<Origin>,
    number: u32,
) -> Result<Made, NoMemory>
    ensures unknown { IfOk result (λ m. matches ≡ false → IsUnknown m (paths_of makes.items)) }
    ensures made { IfOk result (λ m. matches ≡ true → (anew : Template) × IsBehind m (paths_of makes.items) anew) }
    ensures goes { Goes at.old at.new }
{
    if !matches {
        return hole(at, makes);
    }
    let node = at.node_number(number);
    let anew = applied(at, node, argument, functor.0, functor.1)?;
    behind(at, makes, anew)
}
