//! Uses of values, constructors and labels by their paths.
#![tactic(auto, using(typing_state::proofs::Going::goes_trans, typing_state::proofs::Going::goes_refl, typing_state::proofs::Silence::store_silent, typing_state::proofs::Silence::silent_refl, typing_state::proofs::Silence::silent_trans))]

ghost use Rattle.std.specs.Prelude.{◌≡◌, ℕ, true, None, Some, IfNone, IfOk, IfSome, OnOk, option_map, option_and_then};
ghost use Rattle.type_nodes.specs.Nodes.{Node as plain};
ghost use Rattle.type_nodes.specs.Links.{reading};
ghost use Rattle.std.specs.Option.{option_copied};
ghost use Rattle.row_parts.specs.Numbered.{path_view};
ghost use Rattle.typing_state.specs.Goes.{Goes, OnlyFaults, OnlyStore, Silent};
ghost use Rattle.typing_model.specs.Expressions.{value_asks};
ghost use Rattle.typing_steps.specs.Typing.{TypesOwn, path_as};
ghost use Rattle.env_table.specs.declared.entries.Kind.{Kind};
ghost use Rattle.use_typing.specs.Uses.{BuildsBy, BuildsIf, BuildsNew, IsNoArrow, TellsCountsLast, taken_by, LastHas, TellsBound, TellsUse, UsesScheme, SidesOf, UsesLabel, UsesLabelIf, label_named, constructor_named, scheme_in, TypesLabelIf};
ghost use Rattle.typing_conditions.specs.Declared.{constructor_in, label_in};
ghost use Rattle.typing_steps.specs.Building.{TypesConstructor};

use env_table::{Constructor, Kind, Label, Shape, What};
use row_parts::WrittenPath;
use std::rc::Rc;
use typing_state::{Entry, Env, NoMemory, NodeRef, Parts};

/// What the name tokens of a node stand for, in text order.
pub type Names = Vec<Option<Rc<Entry>>>;

/// A type with the names of the node that has it.
#[derive(Drop)]
pub struct Used {
    pub ty: NodeRef,
    pub names: Names,
}

/// A use of a constructor.
#[derive(Drop)]
pub struct Construction {
    /// The type of what it builds.
    pub built: NodeRef,
    /// The type of its argument; None where it takes none.
    pub argument: Option<NodeRef>,
    /// Whether its demand `bound` is kept and it is known.
    pub known: bool,
    pub names: Names,
}

/// A value by its path: `bound`, and an instance of its scheme.
pub fn value(at: &mut Parts, env: &Env, path: &WrittenPath<'_>) -> Result<Used, NoMemory>
    ensures tells { OnOk result (TellsBound (path_view path.now) Kind.Value at.old at.new env.now) }
    ensures ty { IfOk result (λ u. LastHas (path_view path.now).last Kind.Value at.old at.new env.now (path_view path.now).qualifiers u.ty) }
    ensures carries { IfOk result (λ u. (n k : ℕ) → TypesOwn at.old at.new env.now (λ c t. value_asks c n k (path_as (path_view path.now)) t) u.ty.0) }
    ensures goes { Goes at.old at.new }
{
    let Some(last) = path.last else {
        let names = at.seen_names(env, path, None)?;
        return Ok(Used {
            ty: at.var()?,
            names,
        });
    };
    let entry = at.bound(env, path, last, Kind::Value)?;
    let names = at.seen_names(env, path, entry.as_ref())?;
    let ty = instance_of(at, entry.as_ref())?;
    Ok(Used { ty, names })
}

/// An instance of the scheme behind an entry, or a new variable where there is none.
fn instance_of(at: &mut Parts, entry: Option<&Rc<Entry>>) -> Result<NodeRef, NoMemory>
    ensures ty { IfOk result (λ n. UsesScheme (option_and_then scheme_in (option_map (λ e. e.what) (option_map (λ r. r.value) (option_copied entry.entry)))) at.old at.new n) }
    ensures rest { OnlyStore at.old at.new }
    ensures silent { Silent at.old at.new }
    ensures goes { Goes at.old at.new }
{
    let Some(entry) = entry else {
        return at.var();
    };
    match entry.what {
        What::Scheme(root) => at.instance(root),
        _ => at.var(),
    }
}

/// The constructor behind an entry.
fn constructor_of(entry: &Entry) -> Option<&Constructor>
    ensures { option_map (λ c. c.now) result ≡ constructor_in entry.now.what }
{
    match &entry.what {
        What::Constructor(declaration, place) => match &declaration.shape {
            Shape::Variant(constructors) => constructors.get(*place as usize),
            _ => None,
        },
        What::Exception(constructor) => Some(constructor),
        _ => None,
    }
}

/// A constructor by its path with so many arguments: `bound`, `arity`, and an instance.
pub fn constructor(
    at: &mut Parts,
    env: &Env,
    path: &WrittenPath<'_>,
    given: usize,
) -> Result<Construction, NoMemory>
    ensures tells { OnOk result (TellsUse (path_view path.now) given at.old at.new env.now) }
    ensures builds { IfOk result (λ r. BuildsIf (constructor_named (path_view path.now).last env.now (path_view path.now).qualifiers) at.old at.new r) }
    ensures carries { IfOk result (λ r. TypesConstructor at.old at.new env.now (path_as (path_view path.now)) given r.known r.built.0 (option_map (λ m. m.0) r.argument)) }
    ensures goes { Goes at.old at.new }
{
    let entry = at.bound_last(env, path, Kind::Constructor)?;
    let names = at.seen_names(env, path, entry.as_ref())?;
    let Some(constructor) = constructor_behind(entry.as_ref()) else {
        return built_by_unknown(at, names);
    };
    ask_count(at, path, constructor, given)?;
    built(at, constructor, names)
}

/// The constructor behind an entry, if there is one.
fn constructor_behind(entry: Option<&Rc<Entry>>) -> Option<&Constructor>
    ensures { option_map (λ c. c.now) result ≡ option_and_then constructor_in (option_map (λ e. e.what) (option_map (λ r. r.value) (option_copied entry.entry))) }
{
    match entry {
        Some(entry) => constructor_of(entry),
        None => None,
    }
}

/// The demand that a constructor is given as many arguments as it takes.
fn ask_count(
    at: &mut Parts,
    path: &WrittenPath<'_>,
    constructor: &Constructor,
    given: usize,
) -> Result<(), NoMemory>
    ensures tells { OnOk result (TellsCountsLast (path_view path.now).last (taken_by constructor.now) given at.old at.new) }
    ensures rest { OnlyFaults at.old at.new }
    ensures goes { Goes at.old at.new }
{
    let Some(last) = path.last else {
        return Ok(());
    };
    let taken = if constructor.has_argument { 1 } else { 0 };
    at.arity(last.span, last.name.as_str(), taken, given)?;
    Ok(())
}

/// What a constructor builds that isn't known: a new type.
fn built_by_unknown(at: &mut Parts, names: Names) -> Result<Construction, NoMemory>
    ensures builds { IfOk result (λ r. BuildsNew at.old at.new r) }
    ensures rest { OnlyStore at.old at.new }
    ensures silent { Silent at.old at.new }
    ensures goes { Goes at.old at.new }
{
    Ok(Construction {
        built: at.var()?,
        argument: None,
        known: false,
        names,
    })
}

/// What a known constructor builds, from its argument, where it takes one.
fn built(at: &mut Parts, constructor: &Constructor, names: Names) -> Result<Construction, NoMemory>
    ensures builds { IfOk result (λ r. BuildsBy constructor.now at.old at.new r) }
    ensures rest { OnlyStore at.old at.new }
    ensures silent { Silent at.old at.new }
    ensures goes { Goes at.old at.new }
{
    let instance = at.instance(constructor.root)?;
    let Some((from, to)) = argument_sides(at, constructor, instance) else {
        return Ok(Construction {
            built: instance,
            argument: None,
            known: true,
            names,
        });
    };
    Ok(Construction {
        built: to,
        argument: Some(from),
        known: true,
        names,
    })
}

/// The two sides of the type of a constructor that takes an argument.
fn argument_sides(
    at: &Parts,
    constructor: &Constructor,
    instance: NodeRef,
) -> Option<(NodeRef, NodeRef)>
    ensures some { IfSome result (λ p. (constructor.now.has_argument ≡ true) × (reading at.now.store.nodes instance.0 ≡ Some (plain.Arrow p.0.0 p.1.0))) }
    ensures none { IfNone result (constructor.now.has_argument ≡ true → IsNoArrow at.now instance) }
{
    if constructor.has_argument {
        at.sides_of_arrow(instance)
    } else {
        None
    }
}

/// A label that is found, with the types of its record and of its field.
#[derive(Drop)]
pub struct LabelUse {
    pub record: NodeRef,
    pub field: NodeRef,
    pub is_mutable: bool,
}

/// The label behind an entry.
pub fn label_of(entry: &Entry) -> Option<&Label>
    ensures { option_map (λ l. l.now) result ≡ label_in entry.now.what }
{
    match &entry.what {
        What::Label(declaration, place) => match &declaration.shape {
            Shape::Labels(labels) => labels.get(*place as usize),
            _ => None,
        },
        _ => None,
    }
}

/// The two sides of an arrow, or new variables.
fn sides_or_vars(at: &mut Parts, arrow: NodeRef) -> Result<(NodeRef, NodeRef), NoMemory>
    ensures sides { IfOk result (λ p. SidesOf at.old at.new arrow p.0 p.1) }
    ensures rest { OnlyStore at.old at.new }
    ensures silent { Silent at.old at.new }
    ensures goes { Goes at.old at.new }
{
    match at.sides_of_arrow(arrow) {
        Some(sides) => Ok(sides),
        None => Ok((at.var()?, at.var()?)),
    }
}

/// An instance of a label: the record and the field.
pub fn label_use(at: &mut Parts, label: &Label) -> Result<LabelUse, NoMemory>
    ensures label { IfOk result (λ u. UsesLabel label.now at.old at.new u) }
    ensures rest { OnlyStore at.old at.new }
    ensures silent { Silent at.old at.new }
    ensures goes { Goes at.old at.new }
{
    let instance = at.instance(label.root)?;
    let (record, field) = sides_or_vars(at, instance)?;
    Ok(LabelUse {
        record,
        field,
        is_mutable: label.is_mutable,
    })
}

/// A label by its path: `bound`, and an instance.
pub fn field_label(
    at: &mut Parts,
    env: &Env,
    path: &WrittenPath<'_>,
) -> Result<(Option<LabelUse>, Names), NoMemory>
    ensures tells { OnOk result (TellsBound (path_view path.now) Kind.Label at.old at.new env.now) }
    ensures label { IfOk result (λ r. UsesLabelIf (label_named (path_view path.now).last env.now (path_view path.now).qualifiers) at.old at.new r.0) }
    ensures carries { IfOk result (λ r. TypesLabelIf r.0 at.old at.new env.now (path_as (path_view path.now))) }
    ensures goes { Goes at.old at.new }
{
    let entry = at.bound_last(env, path, Kind::Label)?;
    let names = at.seen_names(env, path, entry.as_ref())?;
    let used = used_label(at, label_behind(entry.as_ref()))?;
    Ok((used, names))
}

/// The label behind an entry, if it is one.
fn label_behind(entry: Option<&Rc<Entry>>) -> Option<&Label>
    ensures { option_map (λ l. l.now) result ≡ option_and_then label_in (option_map (λ e. e.what) (option_map (λ r. r.value) (option_copied entry.entry))) }
{
    match entry {
        Some(entry) => label_of(entry),
        None => None,
    }
}

/// An instance of a label, if there is one.
fn used_label(at: &mut Parts, label: Option<&Label>) -> Result<Option<LabelUse>, NoMemory>
    ensures label { IfOk result (λ u. UsesLabelIf (option_map (λ l. l.now) label.entry) at.old at.new u) }
    ensures none { option_map (λ l. l.now) label.entry ≡ None → at.new ≡ at.old }
    ensures rest { OnlyStore at.old at.new }
    ensures silent { Silent at.old at.new }
    ensures goes { Goes at.old at.new }
{
    match label {
        Some(label) => Ok(Some(label_use(at, label)?)),
        None => Ok(None),
    }
}
