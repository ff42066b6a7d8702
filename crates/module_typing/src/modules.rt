//! Structures, module expressions and the items of structures.
ghost use Rattle.std.specs.Prelude.{map, OnOk};
ghost use Rattle.row_parts.specs.Numbered.{operand_view};
ghost use Rattle.typing_state.specs.Goes.{Goes};
ghost use Rattle.module_steps.specs.Scenes.{SameNames};
ghost use Rattle.signature_typing.specs.Specifications.{GivesSpecification};
ghost use Rattle.module_typing.specs.Items.{AddsValues, GivesItem, GivesItems, Grows, NamesNone};

use crate::items::let_item;
use env_table::{Entry, Kind, What};
use module_steps::{
    Made, Scene, add_origins, apply, ask_functor, closed_functor, env_behind, hole, module_path,
    names_of, sealed, unknown,
};
use row_parts::{Operand, first_operand, operand_in, operands, token, tokens_or_missing};
use sig_template::structure;
use signature_typing::{
    Kept, exception_item, include_item, read_module_type, type_named, type_parameters,
    type_specification,
};
use std::rc::Rc;
use syntax_tree::{Node, RowName};
use typing_state::{Depth, Env, NoMemory, Parts};

/// Types the items of a structure in order.
#[cycle(modules)]
fn type_items(
    at: &mut Parts,
    items: &[Operand<'_>],
    env: &Env,
    depth: Depth,
) -> Result<Kept, NoMemory>
    ensures carries { OnOk result (GivesItems at.old at.new env.now (map operand_view items.now)) }
    ensures goes { Goes at.old at.new }
{
    let mut scene = Scene::new(at.alloc(), env.share()?);
    for item in items {
        type_item(at, *item, &mut scene, depth)?;
    }
    Ok(Kept {
        components: scene.components,
        makes: scene.makes,
    })
}

/// Types an item of a structure, or of the prelude, whose items are those of a signature, and goes on after it.
#[cycle(modules)]
pub fn type_item(
    at: &mut Parts,
    item: Operand<'_>,
    scene: &mut Scene,
    depth: Depth,
) -> Result<(), NoMemory>
    ensures carries { OnOk result (GivesItem at.old at.new scene.old scene.new (operand_view item.entry)) }
    ensures specifies { OnOk result (GivesSpecification at.old at.new scene.old scene.new (operand_view item.entry)) }
    ensures names { NamesNone (operand_view item.entry).part → SameNames scene.old scene.new }
    ensures grows { AddsValues (operand_view item.entry).part → OnOk result (Grows scene.old scene.new) }
    ensures goes { Goes at.old at.new }
{
    let Some(node) = item.node else {
        return at.note_plain(item.number, &scene.env);
    };
    match node.row {
        RowName::Let => let_item(at, node, item.number, scene, depth),
        RowName::Break => at.note_plain(item.number, &scene.env),
        RowName::Exception => exception_item(at, node, item.number, scene, depth),
        RowName::Module => type_module_item(at, node, item.number, scene, depth),
        RowName::Include => include_item(at, node, item.number, scene),
        _ => type_specification(at, item, scene, depth),
    }
}

/// Types a module expression, or a missing one, which isn't known.
#[cycle(modules)]
fn type_module(at: &mut Parts, m: Operand<'_>, env: &Env, depth: Depth) -> Result<Made, NoMemory>
    ensures goes { Goes at.old at.new }
{
    let Some(node) = m.node else {
        at.note_plain(m.number, env)?;
        return unknown(at);
    };
    match node.row {
        RowName::Mpath => {
            let sig = module_path(at, node, m.number, 0, 1, env)?;
            Ok(Made {
                sig,
                makes: Vec::new(at.alloc()),
            })
        }
        RowName::Mstruct => {
            at.note_plain(m.number, env)?;
            let items = operands(at.alloc(), node, m.number, 1)?;
            let kept = type_items(at, &items, env, depth.inside()?)?;
            Ok(Made {
                sig: structure(at.alloc(), &kept.components)?,
                makes: kept.makes,
            })
        }
        RowName::Mparen => {
            at.note_plain(m.number, env)?;
            let inner = operand_in(node, m.number, 1);
            let seal = first_operand(node, m.number, 3);
            let number = at.node_number(m.number);
            type_sealed(at, inner, seal, number, env, depth.inside()?)
        }
        RowName::Mapp => {
            at.note_plain(m.number, env)?;
            type_application(at, node, m.number, env, depth.inside()?)
        }
        RowName::Mfunctor => type_functor(at, node, m.number, env, depth.inside()?),
        _ => {
            at.note_plain(m.number, env)?;
            unknown(at)
        }
    }
}

/// ( m ), ( m : y ): with a seal the signature is made anew at the node of this number, whether or not it matches
#[cycle(modules)]
fn type_sealed(
    at: &mut Parts,
    inner: Operand<'_>,
    seal: Option<Operand<'_>>,
    number: u64,
    env: &Env,
    depth: Depth,
) -> Result<Made, NoMemory>
    ensures goes { Goes at.old at.new }
{
    let made = type_module(at, inner, env, depth)?;
    let Some(seal) = seal else {
        return Ok(made);
    };
    let template = read_module_type(at, seal, env, depth)?;
    sealed(at, inner.span, made, &template, number)
}

/// m ( m ), m ( m : y )
#[cycle(modules)]
fn type_application(
    at: &mut Parts,
    node: &Node,
    number: u32,
    env: &Env,
    depth: Depth,
) -> Result<Made, NoMemory>
    ensures goes { Goes at.old at.new }
{
    let argument = operand_in(node, number, 2);
    let (functor, is_functor) = type_head(at, operand_in(node, number, 0), env, depth)?;
    let seal = first_operand(node, number, 4);
    let seal_number = match seal {
        Some(seal) => at.node_number(seal.number),
        None => 0,
    };
    let given = type_sealed(at, argument, seal, seal_number, env, depth)?;
    let mut makes = functor.makes;
    add_origins(at, &mut makes, &given.makes)?;
    if !is_functor {
        return hole(at, makes);
    }
    apply(at, &functor.sig, argument.span, &given.sig, makes, number)
}

/// The module that is applied, and whether the demand that it is a functor is kept.
#[cycle(modules)]
fn type_head(
    at: &mut Parts,
    head: Operand<'_>,
    env: &Env,
    depth: Depth,
) -> Result<(Made, bool), NoMemory>
    ensures goes { Goes at.old at.new }
{
    let functor = type_module(at, head, env, depth)?;
    let is_functor = ask_functor(at, head.span, &functor.sig)?;
    Ok((functor, is_functor))
}

/// functor (X : y) -> m
#[cycle(modules)]
fn type_functor(
    at: &mut Parts,
    node: &Node,
    number: u32,
    env: &Env,
    depth: Depth,
) -> Result<Made, NoMemory>
    ensures goes { Goes at.old at.new }
{
    let taken = type_named(at, node, number, env, depth)?;
    let inner = env_behind(&taken, env)?;
    let body = operand_in(node, number, 7);
    let made = type_module(at, body, &inner, depth)?;
    let scope = at.node_number(number);
    closed_functor(at, taken, body.span, made, scope)
}

/// An item `module M = m` with parameters and a seal: `module F (X : S) : R = E` is a functor over (E : R).
#[cycle(modules)]
fn type_module_item(
    at: &mut Parts,
    node: &Node,
    number: u32,
    scene: &mut Scene,
    depth: Depth,
) -> Result<(), NoMemory>
    ensures goes { Goes at.old at.new }
{
    let name = token(node, 1);
    scene.ask_new(at, Kind::Module, name)?;
    let (made, seen) = type_defined(at, node, number, &scene.env, depth)?;
    let what = What::Module(made.sig);
    scene.add_named(at, number, name, Kind::Module, what, seen)?;
    scene.add_made(at, &made.makes)
}

/// The module that an item defines, and the entries of its parameters.
#[cycle(modules)]
fn type_defined(
    at: &mut Parts,
    node: &Node,
    number: u32,
    env: &Env,
    depth: Depth,
) -> Result<(Made, Vec<Option<Rc<Entry>>>), NoMemory>
    ensures goes { Goes at.old at.new }
{
    let names = tokens_or_missing(at.alloc(), node, 3)?;
    let types = operands(at.alloc(), node, number, 5)?;
    let taken = type_parameters(at, &names, &types, env, depth)?;
    let seen = names_of(at, &taken)?;
    let inner = env_behind(&taken, env)?;
    let body = operand_in(node, number, 10);
    let seal = first_operand(node, number, 8);
    let seal_number = at.node_number(number);
    let made = type_sealed(at, body, seal, seal_number, &inner, depth)?;
    Ok((
        closed_functor(at, taken, body.span, made, seal_number)?,
        seen,
    ))
}
