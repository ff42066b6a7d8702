//! Parameters of functors, and functors over them.
ghost use Rattle.std.specs.Prelude.{◌≡◌, [], ◌∷◌, option_map, IfOk};
ghost use Rattle.typing_state.specs.Goes.{Goes};
ghost use Rattle.sig_template.specs.Changed.{made_of};
ghost use Rattle.module_steps.specs.Listed.{seen_values};
ghost use Rattle.module_steps.specs.Modules.{templates_of, IsFunctorOver, IsFunctor, IsClosed, IsItself, env_behind, named, TakesName};

use crate::closing::ask_closed;
use crate::made::Made;
use env_table::{Entry, Kind, Place, Sig, Template, What};
use owned_lists::{owned, push, shared};
use sig_template::made_at;
use std::rc::Rc;
use syntax_tree::{Span, Token};
use typing_state::{Env, NoMemory, Parts};

/// A parameter of a functor: its name, and its signature made anew at the node of its module type.
#[derive(Drop)]
pub struct Taken {
    pub entry: Option<Rc<Entry>>,
    pub template: Rc<Template>,
    /// The environment behind it.
    pub env: Env,
}

/// A parameter behind an environment: its module type made anew at the node of this number, and its name.
pub fn taken_as(
    at: &mut Parts,
    name: Option<&Token>,
    template: &Template,
    node: u64,
    env: &Env,
) -> Result<Taken, NoMemory>
    ensures named { IfOk result (λ p. TakesName (option_map (λ t. t.now) name.entry) p.template.value env.now p) }
    ensures goes { Goes at.old at.new }
{
    let anew = made_at(at, template, node)?;
    let template = owned(at.alloc(), anew)?;
    match name {
        Some(name) => taken_named(at, name, template, env),
        None => Ok(Taken {
            entry: None,
            template,
            env: env.share()?,
        }),
    }
}

/// The same with its name.
fn taken_named(
    at: &Parts,
    name: &Token,
    template: Rc<Template>,
    env: &Env,
) -> Result<Taken, NoMemory>
    ensures { IfOk result (λ p. TakesName (Some name.now) template.value env.now p) }
{
    let entry = Entry {
        name: name.name.share()?,
        kind: Kind::Module,
        place: Place::Buffer(name.span),
        what: What::Module(shared(&template.sig)?),
    };
    let entry = owned(at.alloc(), entry)?;
    Ok(Taken {
        env: env.add(at.alloc(), shared(&entry)?)?,
        entry: Some(entry),
        template,
    })
}

/// The environment behind parameters.
pub fn env_behind(taken: &[Taken], env: &Env) -> Result<Env, NoMemory>
    ensures { IfOk result (λ e. e ≡ env_behind taken.now env.now) }
{
    match taken.split_last() {
        Some((parameter, _)) => parameter.env.share(),
        None => env.share(),
    }
}

/// The entries of the names of parameters.
pub fn names_of(at: &Parts, taken: &[Taken]) -> Result<Vec<Option<Rc<Entry>>>, NoMemory>
    ensures { IfOk result (λ v. seen_values v.items ≡ named taken.now) }
{
    let mut names = Vec::new(at.alloc());
    for parameter in taken {
        if let Some(entry) = &parameter.entry {
            let entry = shared(entry)?;
            push(&mut names, Some(entry))?;
        }
    }
    Ok(names)
}

/// A functor of parameters over a body, which leaves no type open that was made at the node of this number or behind it.
pub fn closed_functor(
    at: &mut Parts,
    taken: Vec<Taken>,
    span: Span,
    made: Made,
    scope: u64,
) -> Result<Made, NoMemory>
    ensures closed { IfOk result (λ m. IsClosed taken.items made m) }
    ensures goes { Goes at.old at.new }
{
    let parameters = taken.as_slice();
    if parameters.is_empty() {
        return Ok(made);
    }
    ask_closed(at, span, &made.sig, scope)?;
    functor_over(at, parameters, made)
}

/// A functor of parameters over a body. The body's origins are made where it is applied.
fn functor_over(at: &Parts, taken: &[Taken], made: Made) -> Result<Made, NoMemory>
    ensures { IfOk result (λ m. IsFunctor taken.now made m) }
{
    let body = Template {
        made: made.makes,
        sig: made.sig,
    };
    let functor = functor_template(at, taken, owned(at.alloc(), body)?)?;
    Ok(Made {
        sig: shared(&functor.sig)?,
        makes: Vec::new(at.alloc()),
    })
}

/// The template of a functor type: of a body behind parameters, the first of them outermost.
pub fn functor_template(
    at: &Parts,
    taken: &[Taken],
    body: Rc<Template>,
) -> Result<Rc<Template>, NoMemory>
    ensures { IfOk result (λ t. IsFunctorOver (templates_of taken.now) body.value t.value) }
{
    let mut template = body;
    let mut rest = taken;
    while let Some((parameter, outer)) = rest.split_last() {
        template = functor_of(at, &parameter.template, template)?;
        rest = outer;
    }
    Ok(template)
}

/// The template of a functor of one parameter.
fn functor_of(
    at: &Parts,
    parameter: &Rc<Template>,
    body: Rc<Template>,
) -> Result<Rc<Template>, NoMemory>
    ensures { IfOk result (λ t. IsFunctorOver (parameter.now.value ∷ []) body.value t.value) }
{
    let sig = Sig::Functor(shared(parameter)?, body);
    let functor = Template {
        made: Vec::new(at.alloc()),
        sig: owned(at.alloc(), sig)?,
    };
    owned(at.alloc(), functor)
}

/// A module of a module type behind parameters: without any it is made anew at the item's node.
pub fn specified(
    at: &mut Parts,
    taken: &[Taken],
    template: Rc<Template>,
    number: u32,
) -> Result<Made, NoMemory>
    ensures own { IfOk result (λ m. taken.now ≡ [] → made_of template.value ≡ [] → IsItself template.value m × (at.new ≡ at.old)) }
    ensures goes { Goes at.old at.new }
{
    if taken.is_empty() {
        let own = at.node_number(number);
        let anew = made_at(at, &template, own)?;
        return Ok(Made {
            sig: anew.sig,
            makes: anew.made,
        });
    }
    let functor = functor_template(at, taken, template)?;
    Ok(Made {
        sig: shared(&functor.sig)?,
        makes: Vec::new(at.alloc()),
    })
}
