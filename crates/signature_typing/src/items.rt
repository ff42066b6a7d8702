//! Items without module expressions.
ghost use Rattle.std.specs.Prelude.{◌≡◌, map, IfOk, OnOk};
ghost use Rattle.syntax_tree.specs.View.{node_view, tok_of};
ghost use Rattle.row_parts.specs.Numbered.{token_in};
ghost use Rattle.typing_state.specs.Goes.{Goes, OnlyFaults, OnlyIndex};
ghost use Rattle.decl_groups.specs.Written.{declaration_view};
ghost use Rattle.type_expressions.specs.Untyped.{Untyped};
ghost use Rattle.signature_typing.specs.Values.{DenotesValue, ClosesValue, IsValue, SpecifiesValue};
ghost use Rattle.signature_typing.specs.ValueItems.{GivesValue};
ghost use Rattle.signature_typing.specs.ValueSignatures.{AddsIf};
ghost use Rattle.declared_items.specs.Adding.{AddsException, GivesException};
ghost use Rattle.module_steps.specs.Scenes.{SameNames, OnlyNames};
ghost use Rattle.signature_typing.specs.TypeItems.{names_written, AsksEach, GivesType};

use crate::variables::add_variables;
use decl_groups::{DeclarationPart, declarations_of};
use decl_typing::{new_parameters, type_decls, type_exception};
use env_table::{Entry, Kind, Place, What};
use module_steps::{Scene, module_path, module_type_path};
use owned_lists::{owned, push};
use row_parts::{operand_in, token};
use std::rc::Rc;
use syntax_tree::{Node, Token};
use type_expressions::{Variables, read_type};
use typing_state::{Depth, Env, NoMemory, NodeRef, Parts, share_entry};

/// type d and d: the names of its types are asked first.
pub fn type_group(
    at: &mut Parts,
    node: &Node,
    number: u32,
    scene: &mut Scene,
    depth: Depth,
) -> Result<(), NoMemory>
    ensures carries { OnOk result (GivesType at.old at.new scene.old scene.new number (node_view node.now)) }
    ensures goes { Goes at.old at.new }
{
    at.note_plain(number, &scene.env)?;
    let parts = declarations_of(at.alloc(), node, number)?;
    let names = names_in(at, &parts)?;
    ask_names(at, &names, scene)?;
    let declared = type_decls(at, node, number, &scene.env, depth)?;
    scene.add_made(at, &declared.makes)?;
    scene.add(declared.env, &declared.entries)
}

/// The names of declarations.
fn names_in<'a>(at: &Parts, parts: &[DeclarationPart<'a>]) -> Result<Vec<&'a Token>, NoMemory>
    ensures { IfOk result (λ ns. map (λ t. tok_of t.now) ns.items ≡ names_written (map declaration_view parts.now)) }
{
    let mut names = Vec::new(at.alloc());
    for part in parts {
        if let Some(name) = part.name {
            push(&mut names, name)?;
        }
    }
    Ok(names)
}

/// The demands that names of types are new, in order.
fn ask_names(at: &mut Parts, names: &[&Token], scene: &mut Scene) -> Result<(), NoMemory>
    ensures asked { OnOk result (AsksEach (map (λ t. t.now) names.now) scene.old scene.new at.old at.new) }
    ensures scene { OnlyNames scene.old scene.new }
    ensures rest { OnlyFaults at.old at.new }
    ensures goes { Goes at.old at.new }
{
    for name in names {
        scene.ask_new(at, Kind::TypeName, Some(*name))?;
    }
    Ok(())
}

/// exception A of t: its name is in scope after it.
pub fn exception_item(
    at: &mut Parts,
    node: &Node,
    number: u32,
    scene: &mut Scene,
    depth: Depth,
) -> Result<(), NoMemory>
    ensures carries { OnOk result (GivesException at.old at.new scene.old.env scene.new.env number (node_view node.now)) }
    ensures adds { OnOk result (AddsException at.old at.new scene.old.env scene.new.env number (node_view node.now)) }
    ensures names { SameNames scene.old scene.new }
    ensures goes { Goes at.old at.new }
{
    at.note_plain(number, &scene.env)?;
    let declared = type_exception(at, node, number, &scene.env, depth)?;
    scene.add(declared.env, &declared.entries)
}

/// val x : t: its type variables are the scheme's own
pub fn value_item(
    at: &mut Parts,
    node: &Node,
    number: u32,
    scene: &mut Scene,
    depth: Depth,
) -> Result<(), NoMemory>
    ensures carries { OnOk result (GivesValue at.old at.new scene.old.env scene.new.env number (node_view node.now)) }
    ensures means { OnOk result (SpecifiesValue at.old at.new scene.old.env scene.new.env number (node_view node.now)) }
    ensures adds { OnOk result (AddsIf (token_in (node_view node.now) 1) scene.old scene.new) }
    ensures names { SameNames scene.old scene.new }
    ensures untyped { OnOk result (Untyped at.old at.new) }
    ensures goes { Goes at.old at.new }
{
    let root = specified_scheme(at, node, number, &scene.env, depth)?;
    let Some(name) = token(node, 1) else {
        return at.note_plain(number, &scene.env);
    };
    let entry = value_entry(at, name, root)?;
    note_value(at, number, &scene.env, &entry)?;
    let env = scene.env.add(at.alloc(), share_entry(&entry)?)?;
    let entries = vec![in at.alloc(); entry]?;
    scene.add(env, &entries)
}

/// The entry of a value of this name and scheme.
fn value_entry(at: &Parts, name: &Token, root: NodeRef) -> Result<Rc<Entry>, NoMemory>
    ensures { IfOk result (λ x. IsValue x.value (tok_of name.now) root.0) }
{
    let entry = Entry {
        name: name.name.share()?,
        kind: Kind::Value,
        place: Place::Buffer(name.span),
        what: What::Scheme(root),
    };
    owned(at.alloc(), entry)
}

/// Records a value's specification with its entry.
fn note_value(at: &mut Parts, number: u32, env: &Env, entry: &Rc<Entry>) -> Result<(), NoMemory>
    ensures rest { OnlyIndex at.old at.new }
    ensures untyped { OnOk result (Untyped at.old at.new) }
    ensures goes { Goes at.old at.new }
{
    let names = at.one_name(Some(entry))?;
    at.note(number, env, None, names)
}

/// The scheme that is written for a value: one level further in, then its variables are bound.
fn specified_scheme(
    at: &mut Parts,
    node: &Node,
    number: u32,
    env: &Env,
    depth: Depth,
) -> Result<NodeRef, NoMemory>
    ensures means { IfOk result (λ r. ClosesValue at.old at.new env.now number (node_view node.now) r.0) }
    ensures untyped { OnOk result (Untyped at.old at.new) }
    ensures goes { Goes at.old at.new }
{
    let level = at.level;
    at.level = level.saturating_add(1);
    let read = specified(at, node, number, env, depth);
    at.level = level;
    let root = read?;
    at.generalise(root)?;
    // what is known of each store is made known by its length
    let _nodes = at.store.len();
    Ok(root)
}

/// The type that is written for a value.
fn specified(
    at: &mut Parts,
    node: &Node,
    number: u32,
    env: &Env,
    depth: Depth,
) -> Result<NodeRef, NoMemory>
    ensures means { IfOk result (λ m. DenotesValue at.old at.new env.now number (node_view node.now) m.0) }
    ensures untyped { OnOk result (Untyped at.old at.new) }
    ensures goes { Goes at.old at.new }
{
    let mut names = Vec::new(at.alloc());
    add_variables(node, &mut names)?;
    let parameters = new_parameters(at, &names)?;
    let variables = Variables::Parameters(parameters);
    read_type(at, operand_in(node, number, 3), env, &variables, depth)
}

/// open M
pub fn open_item(
    at: &mut Parts,
    node: &Node,
    number: u32,
    scene: &mut Scene,
) -> Result<(), NoMemory>
    ensures goes { Goes at.old at.new }
{
    let sig = module_path(at, node, number, 1, 2, &scene.env)?;
    scene.open(at, &sig)
}

/// include M, in a structure: a module
pub fn include_item(
    at: &mut Parts,
    node: &Node,
    number: u32,
    scene: &mut Scene,
) -> Result<(), NoMemory>
    ensures goes { Goes at.old at.new }
{
    let sig = module_path(at, node, number, 1, 2, &scene.env)?;
    scene.include(at, node.span, &sig)
}

/// include S, in a signature: a module type, whose origins are made by the signature
pub fn include_specification(
    at: &mut Parts,
    node: &Node,
    number: u32,
    scene: &mut Scene,
) -> Result<(), NoMemory>
    ensures goes { Goes at.old at.new }
{
    let template = module_type_path(at, node, number, 1, 2, &scene.env)?;
    scene.include(at, node.span, &template.sig)?;
    scene.add_made(at, &template.made)
}
