//! Declarations of types and exceptions.
ghost use Rattle.std.specs.Prelude.{◌≡◌, ◌<◌, ◌^◌, ℕ, List, [], ◌∷◌, ◌++◌, length, map, reverse, false, Some, None, option_map, OnOk, IfOk};
ghost use Rattle.text_terms.specs.Bytes.{str_bytes};
ghost use Rattle.syntax_tree.specs.View.{node_view, tok_of};
ghost use Rattle.row_parts.specs.Numbered.{first_in, operand_view};
ghost use Rattle.typing_state.specs.Goes.{Goes, OnlyFaults, OnlyIndex, OnlyStore};
ghost use Rattle.type_nodes.specs.Nodes.{IsSound};
ghost use Rattle.type_nodes.specs.Views.{numbers};
ghost use Rattle.typing_conditions.specs.Environments.{defined_at};
ghost use Rattle.typing_conditions.specs.Locals.{IsPlain};
ghost use Rattle.operand_laws.specs.Operands.{number_of};
ghost use Rattle.type_model.specs.Types.{Typ};
ghost use Rattle.signature_model.specs.Declarations.{Name, in_text};
ghost use Rattle.typing_model.specs.Parts.{place_of};
ghost use Rattle.signature_model.specs.Records.{is_some};
ghost use Rattle.typing_model.specs.Contexts.{tell};
ghost use Rattle.typing_model.specs.Declarations.{read_optional};
ghost use Rattle.typing_model.specs.BuiltIns.{exn_type};
ghost use Rattle.type_expressions.specs.Items.{IsOver, HasNodes, names_of, nodes_of};
ghost use Rattle.type_expressions.specs.Untyped.{Untyped};
ghost use Rattle.typing_rows.specs.DeclaredContracts.{SettlesTo};
ghost use Rattle.decl_typing.specs.Denoting.{DenotesArgument, DenotesConstructor, ClosesArgument};
ghost use Rattle.decl_typing.specs.Entering.{IsException, DeclaresException, DeclaresPartIf, DeclaresItem, alone, entered, TreatsArgument};
ghost use Rattle.decl_typing.specs.Asked.{tokens_as, SettlesTokens};
ghost use Rattle.decl_typing.specs.Owned.{IsOwnRight, AreOwnRights, IsVariant, IsRecord, told_in, ReadsTold, MakesType, ClosesType, OriginOf, DeclaresType, MakesOwnRoot, MakesOpaque, AreOpaque};
ghost use Rattle.decl_typing.specs.Entries.{TypeEntryIf, IsToldEntry, second_names, names_told, constructor_names, label_names, names_told_if, values_of, AddsTold, AddsEntries, EntersNames, GroupEntered, QuietlyEntered};
ghost use Rattle.decl_groups.specs.declared.groups.DeclarationPart.{DeclarationPart as CodePart};
ghost use Rattle.decl_groups.specs.Marks.{AreUnset};
ghost use Rattle.decl_typing.specs.Groups.{DeclaresEach, AddsOwn, DeclaresGroup, DeclaresTypes};
ghost use Rattle.decl_typing.specs.Parameters.{token_names, MakesParameters, MakesDeclared, MakesOwn, constructor_roots, label_roots, shape_roots, ClosesRoots};
ghost use Rattle.decl_typing.specs.Parts.{ReadsConstructor, ReadsConstructors, shape_constructors};
ghost use Rattle.decl_typing.specs.LabelParts.{ReadsLabel, ReadsLabels, shape_labels};
ghost use Rattle.decl_typing.specs.Labels.{label_as, labels_as, HasBody, SettlesLabelNames, SettlesLabels};
ghost use Rattle.decl_typing.specs.Settling.{constructor_as, constructors_as, HasOperand, SettlesArgument, SettlesConstructor, SettlesConstructors, SettlesNames, SettlesOption, SettlesPartIf};

use crate::fresh::ask_new;
use crate::reexports::with_reexports;
use decl_groups::{
    ConstructorPart, DeclarationPart, LabelPart, Mentions, Right, Told, clear, declarations_of,
    is_set, last_token, missing_in,
};
use env_table::{Constructor, Declaration, Entry, Env, Kind, Label, Place, Shape, What};
use owned_lists::{owned, push, shared};
use row_parts::{Operand, first_operand, token};
use std::alloc::Global;
use std::collections::HashSet;
use std::rc::Rc;
use syntax_tree::{Node, Token};
use text_terms::RcStr;
use type_expressions::{Parameter, Variables, read_type};
use type_nodes::{NoMemory, NodeRef, Origin};
use typing_state::{Depth, Parts, Telling, share_entry};

/// What a group or an exception adds: the environment behind it, its entries in order, and the origins that it makes.
#[derive(Drop)]
pub struct Declared {
    pub env: Env,
    pub entries: Vec<Rc<Entry>>,
    pub makes: Vec<Origin>,
}

/// Whether a declaration is another type where nothing stands against it.
fn may_rename(right: &Right<'_>) -> bool
    ensures own { IsOwnRight right.now → result ≡ false }
{
    match right {
        Right::Abbreviation(_, _) => true,
        _ => false,
    }
}

/// The origin that the declaration at a node makes.
fn origin_at(at: &Parts, number: u32, name: Option<&Token>) -> Result<Origin, NoMemory>
    ensures path { IfOk result (λ o. o.path.items ≡ number_of at.now.item number ∷ []) }
{
    let name = match name {
        Some(token) => token.name.share()?,
        None => RcStr::from_str(at.alloc(), "")?,
    };
    Ok(Origin {
        path: vec![in at.alloc(); at.node_number(number)]?,
        name,
    })
}

/// A variable for each written parameter.
pub fn new_parameters(at: &mut Parts, names: &[&Token]) -> Result<Vec<Parameter>, NoMemory>
    ensures named { IfOk result (λ ps. names_of ps.items ≡ token_names names.now) }
    ensures means { IfOk result (λ ps. MakesParameters at.old at.new (nodes_of ps.items)) }
    ensures rest { OnlyStore at.old at.new }
    ensures goes { Goes at.old at.new }
{
    let mut parameters = Vec::new(at.alloc());
    for name in names {
        let node = at.var()?;
        let name = name.name.share()?;
        push(&mut parameters, Parameter { name, node })?;
    }
    Ok(parameters)
}

fn nodes_of(at: &Parts, parameters: &[Parameter]) -> Result<Vec<NodeRef>, NoMemory>
    ensures { IfOk result (λ ns. numbers ns.items ≡ nodes_of parameters.now) }
{
    let mut nodes = Vec::new(at.alloc());
    for parameter in parameters {
        push(&mut nodes, parameter.node)?;
    }
    Ok(nodes)
}

/// The root of a declaration: its type, behind its parameters where it has some.
fn declared_root(at: &mut Parts, parameters: &[NodeRef], body: NodeRef) -> Result<NodeRef, NoMemory>
    ensures means { IfOk result (λ r. MakesDeclared at.old at.new (numbers parameters.now) body.0 r.0) }
    ensures rest { OnlyStore at.old at.new }
    ensures goes { Goes at.old at.new }
{
    if parameters.is_empty() {
        return Ok(body);
    }
    let mut parts = Vec::new(at.alloc());
    for parameter in parameters {
        push(&mut parts, *parameter)?;
    }
    push(&mut parts, body)?;
    at.tuple(&parts)
}

/// The origin of a type that is a constructor.
fn origin_of(at: &Parts, ty: NodeRef) -> Result<Option<Origin>, NoMemory>
    ensures { IfOk result (λ x. OriginOf at.now ty.0 (option_map (λ (o : Origin). o.path.items) x)) }
{
    match at.read(ty) {
        Some(type_nodes::View::Con(origin, _)) => {
            let path = origin.path.iter().copied().collect(at.alloc());
            Ok(Some(Origin {
                path: path?,
                name: origin.name.share()?,
            }))
        }
        _ => Ok(None),
    }
}

/// A declaration that is a type of its own, of which nothing more is known.
fn opaque(at: &mut Parts, part: &DeclarationPart<'_>) -> Result<Rc<Declaration>, NoMemory>
    ensures means { IfOk result (λ d. MakesOpaque at.old at.new part.now d.value) }
    ensures rest { OnlyStore at.old at.new }
    ensures untyped { OnOk result (Untyped at.old at.new) }
    ensures goes { Goes at.old at.new }
{
    let level = at.level;
    at.level = level.saturating_add(1);
    let made = own_root(at, part);
    at.level = level;
    let root = made?;
    at.generalise(root)?;
    // by the length of the store its invariant is known to the proof
    let _nodes = at.store.len();
    let declaration = Declaration {
        arity: number_of(part.parameters.len()),
        origin: Some(origin_at(at, part.number, part.name)?),
        defines: Some(origin_at(at, part.number, part.name)?),
        root,
        shape: Shape::Opaque,
    };
    owned(at.alloc(), declaration)
}

/// The root of a declaration that is a type of its own over new parameters.
fn own_root(at: &mut Parts, part: &DeclarationPart<'_>) -> Result<NodeRef, NoMemory>
    ensures means { IfOk result (λ r. MakesOwnRoot at.old at.new part.now r.0) }
    ensures rest { OnlyStore at.old at.new }
    ensures untyped { OnOk result (Untyped at.old at.new) }
    ensures goes { Goes at.old at.new }
{
    let parameters = new_parameters(at, &part.parameters)?;
    let (root, _) = own_type(at, part, &parameters)?;
    Ok(root)
}

/// The root and the type of a declaration that is a type of its own.
fn own_type(
    at: &mut Parts,
    part: &DeclarationPart<'_>,
    parameters: &[Parameter],
) -> Result<(NodeRef, NodeRef), NoMemory>
    ensures means { IfOk result (λ r. MakesOwn at.old at.new (nodes_of parameters.now) (number_of at.old.item part.now.number ∷ []) r.0.0 r.1.0) }
    ensures rest { OnlyStore at.old at.new }
    ensures goes { Goes at.old at.new }
{
    let nodes = nodes_of(at, parameters)?;
    let origin = origin_at(at, part.number, part.name)?;
    let body = at.con(&origin, &nodes)?;
    let root = declared_root(at, &nodes, body)?;
    Ok((root, body))
}

/// A declaration that is another type.
fn another(
    at: &mut Parts,
    part: &DeclarationPart<'_>,
    ty: Operand<'_>,
    env: &Env,
    depth: Depth,
) -> Result<Rc<Declaration>, NoMemory>
    ensures untyped { OnOk result (Untyped at.old at.new) }
    ensures goes { Goes at.old at.new }
{
    let level = at.level;
    at.level = level.saturating_add(1);
    let read = another_type(at, part, ty, env, depth);
    at.level = level;
    let (root, body) = read?;
    at.generalise(root)?;
    let declaration = Declaration {
        arity: number_of(part.parameters.len()),
        origin: None,
        defines: origin_of(at, body)?,
        root,
        shape: Shape::Opaque,
    };
    owned(at.alloc(), declaration)
}

fn another_type(
    at: &mut Parts,
    part: &DeclarationPart<'_>,
    ty: Operand<'_>,
    env: &Env,
    depth: Depth,
) -> Result<(NodeRef, NodeRef), NoMemory>
    ensures untyped { OnOk result (Untyped at.old at.new) }
    ensures goes { Goes at.old at.new }
{
    let parameters = new_parameters(at, &part.parameters)?;
    let nodes = nodes_of(at, &parameters)?;
    let body = read_type(at, ty, env, &Variables::Parameters(parameters), depth)?;
    let root = declared_root(at, &nodes, body)?;
    Ok((root, body))
}

/// The entry of a declaration's name, if it has one.
fn type_entry(
    at: &Parts,
    part: &DeclarationPart<'_>,
    declaration: &Rc<Declaration>,
) -> Result<Option<Rc<Entry>>, NoMemory>
    ensures { IfOk result (TypeEntryIf declaration.now.value part.now.name) }
{
    let Some(name) = part.name else {
        return Ok(None);
    };
    let what = What::Type(shared(declaration)?);
    Ok(Some(entry_of(at, name, Kind::TypeName, what)?))
}

/// The entry of a name of this kind.
fn entry_of(at: &Parts, name: &Token, kind: Kind, what: What) -> Result<Rc<Entry>, NoMemory>
    ensures name { IfOk result (λ e. str_bytes e.value.name ≡ str_bytes name.now.name) }
    ensures kind { IfOk result (λ e. e.value.kind ≡ kind) }
    ensures what { IfOk result (λ e. e.value.what ≡ what) }
    ensures placed { IfOk result (λ e. defined_at e.value.place ≡ in_text (place_of (tok_of name.now))) }
{
    let entry = Entry {
        name: name.name.share()?,
        kind,
        place: Place::Buffer(name.span),
        what,
    };
    owned(at.alloc(), entry)
}

/// The environment with the names of a group, in order.
fn with_names(
    at: &Parts,
    parts: &[DeclarationPart<'_>],
    declared: &[Rc<Declaration>],
    env: &Env,
) -> Result<Env, NoMemory>
    ensures { IfOk result (λ r. EntersNames parts.now declared.now env.now r) }
{
    let mut inner = env.share()?;
    for (place, part) in parts.iter().enumerate() {
        let Some(declaration) = declared.get(place) else {
            return Ok(inner);
        };
        inner = with_entry(at, &type_entry(at, part, declaration)?, &inner)?;
    }
    Ok(inner)
}

/// What the names of a group stand for, quietly: those that rename are read in an order in which each stands behind those
/// that it mentions.
fn sketched(
    at: &mut Parts,
    parts: &[DeclarationPart<'_>],
    mentions: &Mentions,
    renames: &[bool],
    env: &Env,
    depth: Depth,
) -> Result<Vec<Rc<Declaration>>, NoMemory>
    ensures own { IfOk result (λ ds. AreOwnRights parts.now → AreOpaque at.old at.new parts.now ds.items) }
    ensures untyped { OnOk result (Untyped at.old at.new) }
    ensures goes { Goes at.old at.new }
{
    let mut declared = Vec::new(at.alloc());
    for part in parts {
        let declaration = opaque(at, part)?;
        push(&mut declared, declaration)?;
    }
    let order = mentions.order(at.alloc(), renames)?;
    let mut inner = with_names(at, parts, &declared, env)?;
    for place in order {
        inner = sketch(at, parts, &mut declared, place, inner, depth)?;
    }
    Ok(declared)
}

/// Reads one that renames, in the environment of those before it, and adds it there.
fn sketch(
    at: &mut Parts,
    parts: &[DeclarationPart<'_>],
    declared: &mut Vec<Rc<Declaration>>,
    place: usize,
    inner: Env,
    depth: Depth,
) -> Result<Env, NoMemory>
    ensures own { AreOwnRights parts.now → (at.new ≡ at.old) × (declared.new.items ≡ declared.old.items) }
    ensures untyped { OnOk result (Untyped at.old at.new) }
    ensures goes { Goes at.old at.new }
{
    let Some(part) = parts.get(place) else {
        return Ok(inner);
    };
    let ty = match &part.right {
        Right::Abbreviation(_, ty) => *ty,
        Right::Reexport(_, ty, _, _) => *ty,
        _ => return Ok(inner),
    };
    let declaration = another(at, part, ty, &inner, depth)?;
    let entry = type_entry(at, part, &declaration)?;
    if place < declared.len() {
        declared[place] = declaration;
    }
    match entry {
        Some(entry) => inner.add(at.alloc(), entry),
        None => Ok(inner),
    }
}

/// Which declarations of a group are other types: abbreviations that don't contain themselves. One that does is a type of its
/// own for those behind it.
fn which_rename(
    at: &Parts,
    parts: &[DeclarationPart<'_>],
    mentions: &Mentions,
) -> Result<Vec<bool>, NoMemory>
    ensures own { IfOk result (λ rs. AreOwnRights parts.now → AreUnset rs.items) }
{
    let mut renames = Vec::new(at.alloc());
    for part in parts {
        push(&mut renames, may_rename(&part.right))?;
    }
    let ordered = mentions.ordered(at.alloc(), &renames)?;
    for place in 0..renames.len() {
        // what has a place in an order mentions no cycle, so it isn't searched
        if is_set(&renames, place)
            && !is_set(&ordered, place)
            && mentions.leads_to_itself(at.alloc(), place, &renames)?
        {
            clear(&mut renames, place);
        }
    }
    Ok(renames)
}

/// The demands that each parameter is new.
fn parameters_are_new(at: &mut Parts, names: &[&Token]) -> Result<(), NoMemory>
    ensures settles { OnOk result (SettlesTokens at.old at.new (tokens_as names.now)) }
    ensures rest { OnlyFaults at.old at.new }
    ensures goes { Goes at.old at.new }
{
    let mut seen = HashSet::new(at.alloc());
    for name in names {
        ask_new(at, &mut seen, name)?;
    }
    Ok(())
}

/// What a declaration of a group declares, with the demands of its right side. It stands in the environment of the group;
/// `renames` is whether it is another type.
fn declare(
    at: &mut Parts,
    part: &DeclarationPart<'_>,
    renames: bool,
    inner: &Env,
    depth: Depth,
) -> Result<Rc<Declaration>, NoMemory>
    ensures means { IfOk result (λ d. DeclaresType at.old at.new inner.now part.now d.value.root.0 (option_map (λ (o : Origin). o.path.items) d.value.defines) d.value.shape) }
    ensures arity { IfOk result (λ d. length part.now.parameters.items < 2 ^ 32 → d.value.arity ≡ length part.now.parameters.items) }
    ensures origin { IfOk result (λ d. renames ≡ false → (o : Origin) × (d.value.origin ≡ Some o) × (o.path.items ≡ number_of at.old.item part.now.number ∷ [])) }
    ensures untyped { OnOk result (Untyped at.old at.new) }
    ensures goes { Goes at.old at.new }
{
    note_written(at, part, inner)?;
    parameters_are_new(at, &part.parameters)?;
    let (root, body, shape) = declared_deeper(at, part, renames, inner, depth)?;
    let origin = if renames {
        None
    } else {
        Some(origin_at(at, part.number, part.name)?)
    };
    let declaration = Declaration {
        arity: number_of(part.parameters.len()),
        origin,
        defines: origin_of(at, body)?,
        root,
        shape,
    };
    owned(at.alloc(), declaration)
}

/// Records a declaration, and what is missing on its right side.
fn note_written(at: &mut Parts, part: &DeclarationPart<'_>, inner: &Env) -> Result<(), NoMemory>
    ensures untyped { OnOk result (Untyped at.old at.new) }
    ensures rest { OnlyIndex at.old at.new }
    ensures goes { Goes at.old at.new }
{
    at.note_plain(part.number, inner)?;
    note_all(at, &part.missing, inner)
}

/// Records nodes without names of their own, or missing operands, by their numbers.
fn note_all(at: &mut Parts, numbers: &[u32], env: &Env) -> Result<(), NoMemory>
    ensures untyped { OnOk result (Untyped at.old at.new) }
    ensures rest { OnlyIndex at.old at.new }
    ensures goes { Goes at.old at.new }
{
    for number in numbers {
        at.note_plain(*number, env)?;
    }
    Ok(())
}

/// The root, the type and the shape of a declaration, with their variables bound.
fn declared_deeper(
    at: &mut Parts,
    part: &DeclarationPart<'_>,
    renames: bool,
    inner: &Env,
    depth: Depth,
) -> Result<(NodeRef, NodeRef, Shape), NoMemory>
    ensures means { IfOk result (λ r. ClosesType at.old at.new inner.now part.now r.0.0 r.1.0 r.2) }
    ensures untyped { OnOk result (Untyped at.old at.new) }
    ensures goes { Goes at.old at.new }
{
    let level = at.level;
    at.level = level.saturating_add(1);
    let read = declared_in(at, part, renames, inner, depth);
    at.level = level;
    let (root, body, shape) = read?;
    generalise_declared(at, root, &shape)?;
    Ok((root, body, shape))
}

/// Binds the variables of a declaration's root and of the types of its shape.
fn generalise_declared(at: &mut Parts, root: NodeRef, shape: &Shape) -> Result<(), NoMemory>
    ensures closes { OnOk result (ClosesRoots at.old at.new (root.0 ∷ shape_roots shape.now)) }
    ensures sound { OnOk result (IsSound at.new.store.nodes) }
    ensures plain { OnOk result (IsPlain at.new.store.nodes) }
    ensures rest { OnlyStore at.old at.new }
    ensures goes { Goes at.old at.new }
{
    at.generalise(root)?;
    generalise_shape(at, shape)?;
    // by the length of the store its invariant is known to the proof
    let _nodes = at.store.len();
    Ok(())
}

/// The root, the type and the shape of a declaration.
fn declared_in(
    at: &mut Parts,
    part: &DeclarationPart<'_>,
    renames: bool,
    inner: &Env,
    depth: Depth,
) -> Result<(NodeRef, NodeRef, Shape), NoMemory>
    ensures means { IfOk result (λ r. MakesType at.old at.new inner.now part.now r.0.0 r.1.0 r.2) }
    ensures untyped { OnOk result (Untyped at.old at.new) }
    ensures goes { Goes at.old at.new }
{
    let parameters = new_parameters(at, &part.parameters)?;
    let nodes = nodes_of(at, &parameters)?;
    let own = own_type(at, part, &parameters)?;
    let variables = Variables::Parameters(parameters);
    let (root, body) = right_side(at, part, renames, &nodes, own, inner, &variables, depth)?;
    let shape = read_told(at, part, body, inner, &variables, depth)?;
    Ok((root, body, shape))
}

/// The root and the type of a declaration, whose own are given: those of its right side, where it is another type.
fn right_side(
    at: &mut Parts,
    part: &DeclarationPart<'_>,
    renames: bool,
    parameters: &[NodeRef],
    own: (NodeRef, NodeRef),
    inner: &Env,
    variables: &Variables,
    depth: Depth,
) -> Result<(NodeRef, NodeRef), NoMemory>
    ensures own { IfOk result (λ r. IsOwnRight part.now.right → (r ≡ own) × OnlyIndex at.old at.new) }
    ensures untyped { OnOk result (Untyped at.old at.new) }
    ensures goes { Goes at.old at.new }
{
    match read_other(at, part, inner, variables, depth)? {
        Some(other) if renames => Ok((declared_root(at, parameters, other)?, other)),
        _ => Ok(own),
    }
}

/// The type on the right side of a declaration, where one stands there.
fn read_other(
    at: &mut Parts,
    part: &DeclarationPart<'_>,
    inner: &Env,
    variables: &Variables,
    depth: Depth,
) -> Result<Option<NodeRef>, NoMemory>
    ensures own { IfOk result (λ o. IsOwnRight part.now.right → (o ≡ None) × OnlyIndex at.old at.new) }
    ensures untyped { OnOk result (Untyped at.old at.new) }
    ensures goes { Goes at.old at.new }
{
    match &part.right {
        Right::Abbreviation(number, ty) => {
            at.note_plain(*number, inner)?;
            Ok(Some(read_type(at, *ty, inner, variables, depth)?))
        }
        Right::Reexport(number, ty, kind, _) => {
            at.note_plain(*number, inner)?;
            let other = read_type(at, *ty, inner, variables, depth)?;
            at.note_plain(*kind, inner)?;
            Ok(Some(other))
        }
        Right::Own(number, _) => {
            at.note_plain(*number, inner)?;
            Ok(None)
        }
        Right::Abstract => Ok(None),
    }
}

/// What a declaration tells of its values.
fn read_told(
    at: &mut Parts,
    part: &DeclarationPart<'_>,
    own: NodeRef,
    inner: &Env,
    variables: &Variables,
    depth: Depth,
) -> Result<Shape, NoMemory>
    ensures means { IfOk result (λ z. (names : List Name) (ps : List ℕ) (t : Typ) → IsOver variables.now names → HasNodes variables.now ps → ReadsTold at.old at.new inner.now names ps (told_in part.now.right) t own.0 z) }
    ensures untyped { OnOk result (Untyped at.old at.new) }
    ensures goes { Goes at.old at.new }
{
    let told = match &part.right {
        Right::Reexport(_, _, _, told) => told,
        Right::Own(_, told) => told,
        _ => return Ok(Shape::Opaque),
    };
    match told {
        Told::Constructors(parts) => { read_constructors(at, parts, own, inner, variables, depth) }
        Told::Labels(parts) => read_labels(at, parts, own, inner, variables, depth),
    }
}

/// The constructors that have a name; where none has, nothing is told.
fn read_constructors(
    at: &mut Parts,
    parts: &[ConstructorPart<'_>],
    own: NodeRef,
    inner: &Env,
    variables: &Variables,
    depth: Depth,
) -> Result<Shape, NoMemory>
    ensures settles { OnOk result ((names : List Name) → IsOver variables.now names → SettlesConstructors at.old at.new inner.now names parts.now) }
    ensures means { IfOk result (λ z. (names : List Name) (ps : List ℕ) (t : Typ) → IsOver variables.now names → HasNodes variables.now ps → ReadsConstructors at.old at.new inner.now names ps parts.now t own.0 (shape_constructors z)) }
    ensures shape { IfOk result (λ z. IsVariant z) }
    ensures untyped { OnOk result (Untyped at.old at.new) }
    ensures goes { Goes at.old at.new }
{
    let mut constructors = Vec::new(at.alloc());
    for part in parts {
        let constructor = read_constructor(at, part, own, inner, variables, depth)?;
        if let Some(constructor) = constructor {
            push(&mut constructors, constructor)?;
        }
    }
    names_are_new(at, parts)?;
    if constructors.is_empty() {
        Ok(Shape::Opaque)
    } else {
        Ok(Shape::Variant(constructors))
    }
}

fn names_are_new(at: &mut Parts, parts: &[ConstructorPart<'_>]) -> Result<(), NoMemory>
    ensures settles { OnOk result (SettlesNames at.old at.new (constructors_as at.old.item parts.now)) }
    ensures rest { OnlyFaults at.old at.new }
    ensures goes { Goes at.old at.new }
{
    let mut seen = HashSet::new(at.alloc());
    for part in parts {
        if let Some(name) = part.name {
            ask_new(at, &mut seen, name)?;
        }
    }
    Ok(())
}

fn labels_are_new(at: &mut Parts, parts: &[LabelPart<'_>]) -> Result<(), NoMemory>
    ensures settles { OnOk result (SettlesLabelNames at.old at.new (labels_as at.old.item parts.now)) }
    ensures rest { OnlyFaults at.old at.new }
    ensures goes { Goes at.old at.new }
{
    let mut seen = HashSet::new(at.alloc());
    for part in parts {
        if let Some(name) = part.name {
            ask_new(at, &mut seen, name)?;
        }
    }
    Ok(())
}

/// The type of a constructor, from its argument where it has one.
fn constructor_root(
    at: &mut Parts,
    part: &ConstructorPart<'_>,
    own: NodeRef,
    inner: &Env,
    variables: &Variables,
    depth: Depth,
) -> Result<NodeRef, NoMemory>
    ensures settles { OnOk result ((names : List Name) → IsOver variables.now names → HasOperand part.now → SettlesOption at.old at.new inner.now names (λ c. read_optional c (constructor_as at.old.item part.now).argument) (constructor_as at.old.item part.now).argument) }
    ensures means { IfOk result (λ m. (names : List Name) (ps : List ℕ) (t : Typ) → IsOver variables.now names → HasNodes variables.now ps → DenotesConstructor at.old at.new inner.now names ps part.now t own.0 m.0) }
    ensures untyped { OnOk result (Untyped at.old at.new) }
    ensures goes { Goes at.old at.new }
{
    match part.argument {
        Some(argument) => {
            let from = read_type(at, argument, inner, variables, depth)?;
            at.arrow(from, own)
        }
        None => Ok(own),
    }
}

/// A constructor; None where its name is missing. One with a name is recorded with its entry.
fn read_constructor(
    at: &mut Parts,
    part: &ConstructorPart<'_>,
    own: NodeRef,
    inner: &Env,
    variables: &Variables,
    depth: Depth,
) -> Result<Option<Constructor>, NoMemory>
    ensures settles { OnOk result ((names : List Name) → IsOver variables.now names → HasOperand part.now → SettlesOption at.old at.new inner.now names (λ c. tell (constructor_as at.old.item part.now).node c ++ read_optional c (constructor_as at.old.item part.now).argument) (constructor_as at.old.item part.now).argument) }
    ensures means { IfOk result (λ k. (names : List Name) (ps : List ℕ) (t : Typ) → IsOver variables.now names → HasNodes variables.now ps → ReadsConstructor at.old at.new inner.now names ps part.now t own.0 k) }
    ensures untyped { OnOk result (Untyped at.old at.new) }
    ensures goes { Goes at.old at.new }
{
    let root = constructor_root(at, part, own, inner, variables, depth)?;
    match part.name {
        None => {
            at.note_plain(part.number, inner)?;
            Ok(None)
        }
        Some(name) => Ok(Some(Constructor {
            name: name.name.share()?,
            root,
            has_argument: part.argument.is_some(),
        })),
    }
}

/// A label; None where its name is missing. One with a name is recorded with its entry.
fn read_label(
    at: &mut Parts,
    part: &LabelPart<'_>,
    record: NodeRef,
    inner: &Env,
    variables: &Variables,
    depth: Depth,
) -> Result<Option<Label>, NoMemory>
    ensures settles { OnOk result ((names : List Name) → IsOver variables.now names → HasBody part.now → SettlesTo at.old at.new inner.now names (λ c. tell (label_as at.old.item part.now).node c ++ (label_as at.old.item part.now).body.read c) (label_as at.old.item part.now).body.node) }
    ensures means { IfOk result (λ l. (names : List Name) (ps : List ℕ) (t : Typ) → IsOver variables.now names → HasNodes variables.now ps → ReadsLabel at.old at.new inner.now names ps part.now t «record».0 l) }
    ensures untyped { OnOk result (Untyped at.old at.new) }
    ensures goes { Goes at.old at.new }
{
    let field = read_type(at, part.body, inner, variables, depth)?;
    let root = at.arrow(record, field)?;
    match part.name {
        None => {
            at.note_plain(part.number, inner)?;
            Ok(None)
        }
        Some(name) => Ok(Some(Label {
            name: name.name.share()?,
            root,
            is_mutable: part.is_mutable,
        })),
    }
}

fn read_labels(
    at: &mut Parts,
    parts: &[LabelPart<'_>],
    record: NodeRef,
    inner: &Env,
    variables: &Variables,
    depth: Depth,
) -> Result<Shape, NoMemory>
    ensures settles { OnOk result ((names : List Name) → IsOver variables.now names → SettlesLabels at.old at.new inner.now names parts.now) }
    ensures means { IfOk result (λ z. (names : List Name) (ps : List ℕ) (t : Typ) → IsOver variables.now names → HasNodes variables.now ps → ReadsLabels at.old at.new inner.now names ps parts.now t «record».0 (shape_labels z)) }
    ensures shape { IfOk result (λ z. IsRecord z) }
    ensures untyped { OnOk result (Untyped at.old at.new) }
    ensures goes { Goes at.old at.new }
{
    let mut labels = Vec::new(at.alloc());
    for part in parts {
        if let Some(label) = read_label(at, part, record, inner, variables, depth)? {
            push(&mut labels, label)?;
        }
    }
    labels_are_new(at, parts)?;
    Ok(Shape::Labels(labels))
}

/// Binds the variables of the types of a shape.
fn generalise_shape(at: &mut Parts, shape: &Shape) -> Result<(), NoMemory>
    ensures closes { OnOk result (ClosesRoots at.old at.new (shape_roots shape.now)) }
    ensures rest { OnlyStore at.old at.new }
    ensures goes { Goes at.old at.new }
{
    match shape {
        Shape::Opaque => Ok(()),
        Shape::Variant(constructors) => {
            for constructor in constructors {
                at.generalise(constructor.root)?;
            }
            Ok(())
        }
        Shape::Labels(labels) => generalise_labels(at, labels),
    }
}

fn generalise_labels(at: &mut Parts, labels: &[Label]) -> Result<(), NoMemory>
    ensures closes { OnOk result (ClosesRoots at.old at.new (label_roots labels.now)) }
    ensures rest { OnlyStore at.old at.new }
    ensures goes { Goes at.old at.new }
{
    for label in labels {
        at.generalise(label.root)?;
    }
    Ok(())
}

/// A count as a number of 32 bits. No text has as many parts.
fn number_of(count: usize) -> u32
    ensures { count < 2 ^ 32 → result ≡ count }
{
    match u32::try_from(count) {
        Ok(number) => number,
        Err(_) => u32::MAX,
    }
}

/// The name tokens of what a declaration tells, with their numbers.
fn told_names<'a>(alloc: Global, told: &Told<'a>) -> Result<Vec<(u32, &'a Token)>, NoMemory>
    ensures { IfOk result (λ ns. second_names ns.items ≡ names_told told.now) }
{
    let mut names = Vec::new(alloc);
    match told {
        Told::Constructors(parts) => push_constructors(&mut names, parts)?,
        Told::Labels(parts) => push_labels(&mut names, parts)?,
    }
    Ok(names)
}

fn push_constructors<'a>(
    names: &mut Vec<(u32, &'a Token)>,
    parts: &[ConstructorPart<'a>],
) -> Result<(), NoMemory>
    ensures { OnOk result (second_names names.new.items ≡ second_names names.old.items ++ constructor_names parts.now) }
{
    for part in parts {
        if let Some(name) = part.name {
            push(names, (part.number, name))?;
        }
    }
    Ok(())
}

fn push_labels<'a>(
    names: &mut Vec<(u32, &'a Token)>,
    parts: &[LabelPart<'a>],
) -> Result<(), NoMemory>
    ensures { OnOk result (second_names names.new.items ≡ second_names names.old.items ++ label_names parts.now) }
{
    for part in parts {
        if let Some(name) = part.name {
            push(names, (part.number, name))?;
        }
    }
    Ok(())
}

/// The entry of the constructor or label at a place of a declaration.
fn told_entry(
    at: &Parts,
    declaration: &Rc<Declaration>,
    place: u32,
    name: &Token,
) -> Result<Rc<Entry>, NoMemory>
    ensures { IfOk result (λ e. IsToldEntry declaration.now.value place (tok_of name.now) e.value) }
{
    let owner = shared(declaration)?;
    match &declaration.shape {
        Shape::Labels(_) => entry_of(at, name, Kind::Label, What::Label(owner, place)),
        _ => entry_of(at, name, Kind::Constructor, What::Constructor(owner, place)),
    }
}

/// The entries of what a declaration tells, in order; each is recorded for its node.
fn told_entries(
    at: &mut Parts,
    part: &DeclarationPart<'_>,
    declaration: &Rc<Declaration>,
    inner: &Env,
    entries: &mut Vec<Rc<Entry>>,
) -> Result<(), NoMemory>
    ensures entries { OnOk result (AddsTold declaration.now.value (names_told_if (told_in part.now.right)) entries.old.items entries.new.items) }
    ensures rest { OnlyIndex at.old at.new }
    ensures untyped { OnOk result (Untyped at.old at.new) }
    ensures goes { Goes at.old at.new }
{
    let told = match &part.right {
        Right::Reexport(_, _, _, told) => told,
        Right::Own(_, told) => told,
        _ => return Ok(()),
    };
    for (place, named) in told_names(at.alloc(), told)?.iter().enumerate() {
        let (number, name) = *named;
        let entry = told_entry(at, declaration, number_of(place), name)?;
        let names = at.one_name(Some(&entry))?;
        at.note(number, inner, None, names)?;
        push(entries, entry)?;
    }
    Ok(())
}

/// The entries of a declaration: its name, and then its constructors or labels.
fn part_entries(
    at: &mut Parts,
    part: &DeclarationPart<'_>,
    declaration: &Rc<Declaration>,
    inner: &Env,
    entries: &mut Vec<Rc<Entry>>,
) -> Result<(), NoMemory>
    ensures entries { OnOk result (AddsEntries declaration.now.value part.now entries.old.items entries.new.items) }
    ensures rest { OnlyIndex at.old at.new }
    ensures untyped { OnOk result (Untyped at.old at.new) }
    ensures goes { Goes at.old at.new }
{
    let entry = type_entry(at, part, declaration)?;
    let names = at.one_name(entry.as_ref())?;
    at.note(part.head, inner, None, names)?;
    if let Some(entry) = entry {
        push(entries, entry)?;
    }
    told_entries(at, part, declaration, inner, entries)
}

/// The declarations of a group in order, with their demands.
fn declare_all(
    at: &mut Parts,
    parts: &[DeclarationPart<'_>],
    renames: &[bool],
    inner: &Env,
    depth: Depth,
) -> Result<Vec<Rc<Entry>>, NoMemory>
    ensures own { IfOk result (λ es. AreOwnRights parts.now → AreUnset renames.now → DeclaresEach inner.now at.old at.new parts.now [] es.items) }
    ensures untyped { OnOk result (Untyped at.old at.new) }
    ensures goes { Goes at.old at.new }
{
    let mut entries = Vec::new(at.alloc());
    for (place, part) in parts.iter().enumerate() {
        let renamed = is_set(renames, place);
        let declaration = declare(at, part, renamed, inner, depth)?;
        report_reexport(at, part, renamed)?;
        part_entries(at, part, &declaration, inner, &mut entries)?;
    }
    Ok(entries)
}

/// Reports a re-export that doesn't tell the same as the type that it names.
fn report_reexport(
    at: &mut Parts,
    part: &DeclarationPart<'_>,
    renamed: bool,
) -> Result<(), NoMemory>
    ensures own { IsOwnRight part.now.right → at.new ≡ at.old }
    ensures untyped { OnOk result (Untyped at.old at.new) }
    ensures goes { Goes at.old at.new }
{
    if renamed {
        return Ok(());
    }
    if let Right::Reexport(_, ty, _, _) = &part.right {
        if let Some(node) = ty.node {
            if let Some(last) = last_token(node) {
                return at.differs_from(ty.span, last.name.as_str());
            }
        }
    }
    Ok(())
}

/// Reports the abbreviations that contain themselves.
fn report_cycles(
    at: &mut Parts,
    parts: &[DeclarationPart<'_>],
    renames: &[bool],
) -> Result<(), NoMemory>
    ensures own { AreOwnRights parts.now → at.new ≡ at.old }
    ensures untyped { OnOk result (Untyped at.old at.new) }
    ensures goes { Goes at.old at.new }
{
    for (place, part) in parts.iter().enumerate() {
        if may_rename(&part.right) && !is_set(renames, place) {
            if let Some(name) = part.name {
                at.cyclic(name.span, name.name.as_str())?;
            }
        }
    }
    Ok(())
}

/// The environment in which the declarations of a group stand: with what their names stand for.
pub fn group_env(
    at: &mut Parts,
    parts: &[DeclarationPart<'_>],
    mentions: &Mentions,
    renames: &[bool],
    env: &Env,
    depth: Depth,
) -> Result<Env, NoMemory>
    ensures own { IfOk result (λ r. AreOwnRights parts.now → GroupEntered at.old at.new parts.now env.now r) }
    ensures untyped { OnOk result (Untyped at.old at.new) }
    ensures goes { Goes at.old at.new }
{
    let declared = sketched(at, parts, mentions, renames, env, depth)?;
    with_names(at, parts, &declared, env)
}

/// The same, not reporting.
fn group_env_quietly(
    at: &mut Parts,
    parts: &[DeclarationPart<'_>],
    mentions: &Mentions,
    renames: &[bool],
    env: &Env,
    depth: Depth,
) -> Result<Env, NoMemory>
    ensures own { IfOk result (λ r. AreOwnRights parts.now → QuietlyEntered at.old at.new parts.now env.now r) }
    ensures untyped { OnOk result (Untyped at.old at.new) }
    ensures goes { Goes at.old at.new }
{
    let telling = at.telling;
    at.telling = Telling::Quiet;
    let inner = group_env(at, parts, mentions, renames, env, depth);
    at.telling = telling;
    inner
}

/// Types an item of the row `type` or `exception` with this number: what it adds. That the names of types are new in their
/// structure or signature is asked by the caller.
pub fn type_decls(
    at: &mut Parts,
    item: &Node,
    number: u32,
    env: &Env,
    depth: Depth,
) -> Result<Declared, NoMemory>
    ensures own { IfOk result (λ d. DeclaresTypes env.now at.old at.new number (node_view item.now) d) }
    ensures goes { Goes at.old at.new }
{
    let missing = missing_in(at.alloc(), item, number, 2)?;
    note_all(at, &missing, env)?;
    let parts = declarations_of(at.alloc(), item, number)?;
    declared_behind(at, &parts, env, depth)
}

/// The environment behind declarations, with their entries and origins.
fn declared_behind(
    at: &mut Parts,
    parts: &[DeclarationPart<'_>],
    env: &Env,
    depth: Depth,
) -> Result<Declared, NoMemory>
    ensures own { IfOk result (λ d. AreOwnRights parts.now → DeclaresGroup env.now at.old at.new parts.now d) }
    ensures untyped { OnOk result (AreOwnRights parts.now → Untyped at.old at.new) }
    ensures goes { Goes at.old at.new }
{
    let mentions = Mentions::new(at.alloc(), parts, env)?;
    let renames = all_renames(at, parts, &mentions, env, depth)?;
    let inner = group_env_quietly(at, parts, &mentions, &renames, env, depth)?;
    added(at, parts, &renames, env, &inner, depth)
}

/// Which declarations of a group are other types, its re-exports included.
fn all_renames(
    at: &mut Parts,
    parts: &[DeclarationPart<'_>],
    mentions: &Mentions,
    env: &Env,
    depth: Depth,
) -> Result<Vec<bool>, NoMemory>
    ensures own { AreOwnRights parts.now → at.new ≡ at.old }
    ensures unset { IfOk result (λ rs. AreOwnRights parts.now → AreUnset rs.items) }
    ensures goes { Goes at.old at.new }
{
    let renames = which_rename(at, parts, mentions)?;
    with_reexports(at, parts, mentions, renames, env, depth)
}

/// What declarations add that stand in the environment of their group, `inner`.
fn added(
    at: &mut Parts,
    parts: &[DeclarationPart<'_>],
    renames: &[bool],
    env: &Env,
    inner: &Env,
    depth: Depth,
) -> Result<Declared, NoMemory>
    ensures own { IfOk result (λ d. AreOwnRights parts.now → AreUnset renames.now → AddsOwn inner.now env.now at.old at.new parts.now d) }
    ensures untyped { OnOk result (Untyped at.old at.new) }
    ensures goes { Goes at.old at.new }
{
    let entries = declare_all(at, parts, renames, inner, depth)?;
    report_cycles(at, parts, renames)?;
    let makes = origins_made(at, parts, renames)?;
    Ok(Declared {
        env: with_entries(at, &entries, env)?,
        entries,
        makes,
    })
}

/// Types the constructor of an item of the row `exception`.
pub fn type_exception(
    at: &mut Parts,
    item: &Node,
    number: u32,
    env: &Env,
    depth: Depth,
) -> Result<Declared, NoMemory>
    ensures settles { OnOk result (SettlesPartIf at.old at.new env.now (first_in number (node_view item.now) 1)) }
    ensures means { IfOk result (λ d. DeclaresItem at.old at.new env.now (first_in number (node_view item.now) 1) at.old.constants.exn.0 d) }
    ensures untyped { OnOk result (Untyped at.old at.new) }
    ensures goes { Goes at.old at.new }
{
    let entry = exception_part(at, first_operand(item, number, 1), env, depth)?;
    Ok(Declared {
        env: with_entry(at, &entry, env)?,
        entries: alone(at, entry)?,
        makes: Vec::new(at.alloc()),
    })
}

/// The environment behind an entry, where there is one.
fn with_entry(at: &Parts, entry: &Option<Rc<Entry>>, env: &Env) -> Result<Env, NoMemory>
    ensures { IfOk result (λ r. r ≡ entered entry.now env.now) }
{
    match entry {
        None => env.share(),
        Some(entry) => env.add(at.alloc(), share_entry(entry)?),
    }
}

/// The environment with entries, in order.
fn with_entries(at: &Parts, entries: &[Rc<Entry>], env: &Env) -> Result<Env, NoMemory>
    ensures { IfOk result (λ r. r ≡ reverse (values_of entries.now) ++ env.now) }
{
    let mut inner = env.share()?;
    for entry in entries {
        inner = inner.add(at.alloc(), share_entry(entry)?)?;
    }
    Ok(inner)
}

/// An entry alone, where there is one.
fn alone(at: &Parts, entry: Option<Rc<Entry>>) -> Result<Vec<Rc<Entry>>, NoMemory>
    ensures { IfOk result (λ r. r.items ≡ alone entry) }
{
    let mut entries = Vec::new(at.alloc());
    if let Some(entry) = entry {
        push(&mut entries, entry)?;
    }
    Ok(entries)
}

/// The origins of the declarations of a group that are types of their own.
fn origins_made(
    at: &Parts,
    parts: &[DeclarationPart<'_>],
    renames: &[bool],
) -> Result<Vec<Origin>, NoMemory>
    ensures { IfOk result (λ os. AreUnset renames.now → map (λ (o : Origin). o.path.items) os.items ≡ map (λ (p : CodePart). number_of at.now.item p.number ∷ []) parts.now) }
{
    let mut makes = Vec::new(at.alloc());
    for (place, part) in parts.iter().enumerate() {
        if !is_set(renames, place) {
            let origin = origin_at(at, part.number, part.name)?;
            push(&mut makes, origin)?;
        }
    }
    Ok(makes)
}

/// What stands behind `exception`; None where it or its name is missing.
fn exception_part(
    at: &mut Parts,
    part: Option<Operand<'_>>,
    env: &Env,
    depth: Depth,
) -> Result<Option<Rc<Entry>>, NoMemory>
    ensures settles { OnOk result (SettlesPartIf at.old at.new env.now (option_map operand_view part.entry)) }
    ensures means { IfOk result (λ x. DeclaresPartIf at.old at.new env.now (option_map operand_view part.entry) at.old.constants.exn.0 x) }
    ensures untyped { OnOk result (Untyped at.old at.new) }
    ensures goes { Goes at.old at.new }
{
    let Some(part) = part else {
        return Ok(None);
    };
    match part.node {
        Some(node) => exception(at, node, part.number, env, depth),
        None => {
            at.note_plain(part.number, env)?;
            Ok(None)
        }
    }
}

/// A of t, behind `exception`; None where its name is missing.
fn exception(
    at: &mut Parts,
    node: &Node,
    number: u32,
    env: &Env,
    depth: Depth,
) -> Result<Option<Rc<Entry>>, NoMemory>
    ensures settles { OnOk result (SettlesConstructor at.old at.new env.now number (node_view node.now)) }
    ensures means { IfOk result (λ x. DeclaresException at.old at.new env.now number (node_view node.now) at.old.constants.exn.0 x) }
    ensures untyped { OnOk result (Untyped at.old at.new) }
    ensures goes { Goes at.old at.new }
{
    let root = exception_type(at, node, number, env, depth)?;
    let Some(name) = token(node, 0) else {
        at.note_plain(number, env)?;
        return Ok(None);
    };
    let entry = exception_entry(at, node, number, name, root)?;
    let names = at.one_name(Some(&entry))?;
    at.note(number, env, None, names)?;
    Ok(Some(entry))
}

/// The entry of an exception of this name and type.
fn exception_entry(
    at: &Parts,
    node: &Node,
    number: u32,
    name: &Token,
    root: NodeRef,
) -> Result<Rc<Entry>, NoMemory>
    ensures { IfOk result (λ x. IsException x.value (tok_of name.now) root.0 (is_some (first_in number (node_view node.now) 2))) }
{
    let constructor = Constructor {
        name: name.name.share()?,
        root,
        has_argument: first_operand(node, number, 2).is_some(),
    };
    let what = What::Exception(owned(at.alloc(), constructor)?);
    let entry = Entry {
        name: name.name.share()?,
        kind: Kind::Constructor,
        place: Place::Buffer(name.span),
        what,
    };
    owned(at.alloc(), entry)
}

/// The type of an exception, with its variables bound.
fn exception_type(
    at: &mut Parts,
    node: &Node,
    number: u32,
    env: &Env,
    depth: Depth,
) -> Result<NodeRef, NoMemory>
    ensures settles { OnOk result (SettlesArgument at.old at.new env.now [] number (node_view node.now)) }
    ensures means { IfOk result (λ r. ClosesArgument at.old at.new env.now [] [] number (node_view node.now) exn_type at.old.constants.exn.0 r.0) }
    ensures treats { OnOk result (TreatsArgument at.old at.new env.now number (node_view node.now)) }
    ensures untyped { OnOk result (Untyped at.old at.new) }
    ensures goes { Goes at.old at.new }
{
    let level = at.level;
    at.level = level.saturating_add(1);
    let read = exception_root(at, node, number, env, depth);
    at.level = level;
    let root = read?;
    at.generalise(root)?;
    // by the length of the store its invariant is known to the proof
    let _nodes = at.store.len();
    Ok(root)
}

fn exception_root(
    at: &mut Parts,
    node: &Node,
    number: u32,
    env: &Env,
    depth: Depth,
) -> Result<NodeRef, NoMemory>
    ensures settles { OnOk result (SettlesArgument at.old at.new env.now [] number (node_view node.now)) }
    ensures means { IfOk result (λ m. DenotesArgument at.old at.new env.now [] [] number (node_view node.now) exn_type at.old.constants.exn.0 m.0) }
    ensures treats { OnOk result (TreatsArgument at.old at.new env.now number (node_view node.now)) }
    ensures untyped { OnOk result (Untyped at.old at.new) }
    ensures goes { Goes at.old at.new }
{
    match first_operand(node, number, 2) {
        None => Ok(at.constants.exn),
        Some(argument) => {
            let variables = Variables::Parameters(Vec::new(at.alloc()));
            let from = read_type(at, argument, env, &variables, depth)?;
            at.arrow(from, at.constants.exn)
        }
    }
}
