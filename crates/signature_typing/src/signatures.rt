//! Module types, and the items of signatures.
ghost use Rattle.std.specs.Prelude.{◌≡◌, [], map, IfOk, OnOk};
ghost use Rattle.syntax_tree.specs.View.{node_view};
ghost use Rattle.row_parts.specs.Numbered.{operand_view};
ghost use Rattle.typing_state.specs.Goes.{Goes};
ghost use Rattle.signature_typing.specs.ModuleTypes.{IsTemplateOf, IsUnknownType};
ghost use Rattle.signature_typing.specs.Specifications.{GivesSpecification, GivesSpecifications, GivesValuesModule};
ghost use Rattle.signature_typing.specs.ValueSignatures.{GivesAdded, GivesAllAdded, GivesModule, GivesStructure};
ghost use Rattle.sig_template.specs.Structures.{entries_of};

use crate::clauses::behind_clauses;
use crate::items::{exception_item, include_specification, open_item, type_group, value_item};
use env_table::{Entry, Kind, Origin, Sig, Template, What};
use module_steps::{
    Made, Scene, Taken, env_behind, functor_template, module_type_path, names_of, specified,
    taken_as,
};
use owned_lists::{owned, push};
use row_parts::{Operand, operand_in, operands, token, tokens_or_missing};
use sig_template::structure;
use std::rc::Rc;
use syntax_tree::{Node, RowName, Token};
use typing_state::{Depth, Env, NoMemory, Parts};

/// What the items of a structure or a signature come to: their components in order, and the origins that they make.
#[derive(Drop)]
pub struct Kept {
    pub components: Vec<Rc<Entry>>,
    pub makes: Vec<Origin>,
}

/// Types an item of a signature, and goes on after it. `include` names a module type there, whose origins are made by the signature.
/// No other row is an item of a signature: what has one is recorded alone.
#[cycle(signatures)]
pub fn type_specification(
    at: &mut Parts,
    item: Operand<'_>,
    scene: &mut Scene,
    depth: Depth,
) -> Result<(), NoMemory>
    ensures carries { OnOk result (GivesSpecification at.old at.new scene.old scene.new (operand_view item.entry)) }
    ensures adds { OnOk result (GivesAdded at.old at.new scene.old scene.new (operand_view item.entry)) }
    ensures goes { Goes at.old at.new }
{
    let Some(node) = item.node else {
        return at.note_plain(item.number, &scene.env);
    };
    match node.row {
        RowName::TypeRow => type_group(at, node, item.number, scene, depth),
        RowName::Exception => exception_item(at, node, item.number, scene, depth),
        RowName::Val => value_item(at, node, item.number, scene, depth),
        RowName::Gmodule => { type_module_specification(at, node, item.number, scene, depth) }
        RowName::Modtype => type_module_type_item(at, node, item.number, scene, depth),
        RowName::Open => open_item(at, node, item.number, scene),
        RowName::Include => include_specification(at, node, item.number, scene),
        _ => at.note_plain(item.number, &scene.env),
    }
}

/// Types the items of a signature in order.
#[cycle(signatures)]
fn type_specifications(
    at: &mut Parts,
    items: &[Operand<'_>],
    env: &Env,
    depth: Depth,
) -> Result<Kept, NoMemory>
    ensures carries { OnOk result (GivesSpecifications at.old at.new env.now (map operand_view items.now)) }
    ensures adds { IfOk result (λ k. GivesAllAdded at.old at.new env.now (map operand_view items.now) (entries_of k.components.items) k.makes.items) }
    ensures goes { Goes at.old at.new }
{
    let mut scene = Scene::new(at.alloc(), env.share()?);
    for item in items {
        type_specification(at, *item, &mut scene, depth)?;
    }
    Ok(Kept {
        components: scene.components,
        makes: scene.makes,
    })
}

/// The template of a module type that isn't known.
pub fn unknown_type(at: &Parts) -> Result<Rc<Template>, NoMemory>
    ensures { IfOk result (λ t. IsUnknownType t.value) }
{
    let template = Template {
        made: Vec::new(at.alloc()),
        sig: owned(at.alloc(), Sig::Hole)?,
    };
    owned(at.alloc(), template)
}

/// Reads a module type, or a missing one, which isn't known.
#[cycle(signatures)]
pub fn read_module_type(
    at: &mut Parts,
    y: Operand<'_>,
    env: &Env,
    depth: Depth,
) -> Result<Rc<Template>, NoMemory>
    ensures values { IfOk result (λ t. GivesStructure at.old at.new env.now (operand_view y.entry) t.value) }
    ensures goes { Goes at.old at.new }
{
    let Some(node) = y.node else {
        at.note_plain(y.number, env)?;
        return unknown_type(at);
    };
    match node.row {
        RowName::Ypath => module_type_path(at, node, y.number, 0, 1, env),
        RowName::Ysig => {
            at.note_plain(y.number, env)?;
            let items = operands(at.alloc(), node, y.number, 1)?;
            let kept = type_specifications(at, &items, env, depth.inside()?)?;
            template_of(at, kept)
        }
        RowName::Yparen => {
            at.note_plain(y.number, env)?;
            read_module_type(at, operand_in(node, y.number, 1), env, depth.inside()?)
        }
        RowName::Ywith => {
            at.note_plain(y.number, env)?;
            let base = read_module_type(at, operand_in(node, y.number, 0), env, depth.inside()?)?;
            let clauses = operands(at.alloc(), node, y.number, 2)?;
            behind_clauses(at, base, &clauses, env, depth)
        }
        RowName::Yfunctor => {
            let taken = type_named(at, node, y.number, env, depth.inside()?)?;
            let inner = env_behind(&taken, env)?;
            let body = read_module_type(
                at,
                operand_in(node, y.number, 7),
                &inner,
                depth.inside()?,
            )?;
            functor_template(at, &taken, body)
        }
        _ => {
            at.note_plain(y.number, env)?;
            unknown_type(at)
        }
    }
}

/// sig g end
fn template_of(at: &Parts, kept: Kept) -> Result<Rc<Template>, NoMemory>
    ensures { IfOk result (λ t. IsTemplateOf (entries_of kept.components.items) kept.makes.items t.value) }
{
    let template = Template {
        made: kept.makes,
        sig: structure(at.alloc(), &kept.components)?,
    };
    owned(at.alloc(), template)
}

/// Parameters, each in the environment of those before. Their names are tokens, which may be missing.
#[cycle(signatures)]
pub fn type_parameters(
    at: &mut Parts,
    names: &[Option<&Token>],
    types: &[Operand<'_>],
    env: &Env,
    depth: Depth,
) -> Result<Vec<Taken>, NoMemory>
    ensures none { IfOk result (λ ps. types.now ≡ [] → (ps.items ≡ []) × (at.new ≡ at.old)) }
    ensures goes { Goes at.old at.new }
{
    let mut taken = Vec::new(at.alloc());
    let mut env = env.share()?;
    for (place, ty) in types.iter().enumerate() {
        let template = read_module_type(at, *ty, &env, depth)?;
        let node = at.node_number(ty.number);
        let name = match names.get(place) {
            Some(name) => *name,
            None => None,
        };
        let parameter = taken_as(at, name, &template, node, &env)?;
        env = parameter.env.share()?;
        push(&mut taken, parameter)?;
    }
    Ok(taken)
}

/// The parameters of a functor or of a functor type; it is recorded with their names.
#[cycle(signatures)]
pub fn type_named(
    at: &mut Parts,
    node: &Node,
    number: u32,
    env: &Env,
    depth: Depth,
) -> Result<Vec<Taken>, NoMemory>
    ensures goes { Goes at.old at.new }
{
    let names = tokens_or_missing(at.alloc(), node, 2)?;
    let types = operands(at.alloc(), node, number, 4)?;
    let taken = type_parameters(at, &names, &types, env, depth)?;
    let seen = names_of(at, &taken)?;
    at.note(number, env, None, seen)?;
    Ok(taken)
}

/// An item `module M : y` of a signature: the module type is made anew at the item's node.
#[cycle(signatures)]
pub fn type_module_specification(
    at: &mut Parts,
    node: &Node,
    number: u32,
    scene: &mut Scene,
    depth: Depth,
) -> Result<(), NoMemory>
    ensures carries { OnOk result (GivesValuesModule at.old at.new scene.old scene.new number (node_view node.now)) }
    ensures goes { Goes at.old at.new }
{
    let name = token(node, 1);
    scene.ask_new(at, Kind::Module, name)?;
    let (made, seen) = type_specified(at, node, number, &scene.env, depth)?;
    let what = What::Module(made.sig);
    scene.add_named(at, number, name, Kind::Module, what, seen)?;
    scene.add_made(at, &made.makes)
}

/// The module that an item of a signature specifies, and the entries of its parameters.
#[cycle(signatures)]
fn type_specified(
    at: &mut Parts,
    node: &Node,
    number: u32,
    env: &Env,
    depth: Depth,
) -> Result<(Made, Vec<Option<Rc<Entry>>>), NoMemory>
    ensures values { IfOk result (λ r. GivesModule at.old at.new env.now number (node_view node.now) r.0.sig.value) }
    ensures goes { Goes at.old at.new }
{
    let names = tokens_or_missing(at.alloc(), node, 3)?;
    let types = operands(at.alloc(), node, number, 5)?;
    let taken = type_parameters(at, &names, &types, env, depth)?;
    let seen = names_of(at, &taken)?;
    let inner = env_behind(&taken, env)?;
    let template = read_module_type(at, operand_in(node, number, 8), &inner, depth)?;
    Ok((specified(at, &taken, template, number)?, seen))
}

/// An item `module type S = y`.
#[cycle(signatures)]
pub fn type_module_type_item(
    at: &mut Parts,
    node: &Node,
    number: u32,
    scene: &mut Scene,
    depth: Depth,
) -> Result<(), NoMemory>
    ensures goes { Goes at.old at.new }
{
    let name = token(node, 1);
    scene.ask_new(at, Kind::ModuleType, name)?;
    let template = read_module_type(at, operand_in(node, number, 3), &scene.env, depth)?;
    let what = What::ModuleType(template);
    let none = Vec::new(at.alloc());
    scene.add_named(at, number, name, Kind::ModuleType, what, none)
}
