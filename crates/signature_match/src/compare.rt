//! Values, declarations and exceptions, one against another.
ghost use Rattle.std.specs.Prelude.{◌≡◌, ◌↔◌, ◌⊎◌, true, IsTrue, IfOk};
ghost use Rattle.std.specs.List.{AllZip};
ghost use Rattle.type_nodes.specs.Nodes.{IsNode};
ghost use Rattle.scheme_match.specs.Covering.{Compared};
ghost use Rattle.scheme_match.specs.Unknown.{HasUnknown};
ghost use Rattle.typing_state.specs.Goes.{Goes};
ghost use Rattle.signature_match.specs.Shapes.{ConstructorsFit, LabelsFit, ShapesFit};
ghost use Rattle.signature_match.specs.Values.{AreComparable};
ghost use Rattle.signature_match.specs.Comparing.{ComparesRoots, ComparesConstructor, ComparesConstructors, ComparesLabel, ComparesLabels, ComparesShapes, ComparesDeclarations, ComparesExceptions};

use env_table::{Constructor, Declaration, Label, Shape};
use owned_lists::push;
use type_reading::{Changes, Copies, ForBound, ForUnknown, filled, unchanged};
use typing_state::{NoMemory, NodeRef, Parts};

/// A copy of a type with something for its bound variables and its unknown types.
fn copied(
    at: &mut Parts,
    root: NodeRef,
    bound: ForBound,
    unknown: ForUnknown,
) -> Result<NodeRef, NoMemory>
    ensures goes { Goes at.old at.new }
{
    let none = Changes::none(at.alloc());
    Copies::new(at).copy(at, root, unchanged(&none, bound, unknown))
}

/// Whether each instance of the wanted scheme is one of the actual scheme. Unknown types may be any.
pub fn covers(at: &mut Parts, actual: NodeRef, wanted: NodeRef) -> Result<bool, NoMemory>
    ensures compared { IfOk result (λ met. AreComparable at.old.store.nodes actual wanted → Compared at.old.store.nodes at.new.store.nodes actual.0 wanted.0 met) }
    ensures goes { Goes at.old at.new }
{
    if at.has_unknown(wanted)? {
        let known = copied(at, wanted, ForBound::Itself, ForUnknown::Variable)?;
        at.covers(actual, known)
    } else {
        at.covers(actual, wanted)
    }
}

/// The type of a declaration over arguments; in what is unknown no rigid variable may stand.
fn over(
    at: &mut Parts,
    declaration: &Declaration,
    arguments: &[NodeRef],
) -> Result<NodeRef, NoMemory>
    ensures goes { Goes at.old at.new }
{
    let instance = copied(at, declaration.root, ForBound::Variable, ForUnknown::Closed)?;
    if declaration.arity == 0 {
        return Ok(instance);
    }
    filled(at, instance, arguments)
}

fn rigid_arguments(at: &mut Parts, arity: u32) -> Result<Vec<NodeRef>, NoMemory>
    ensures goes { Goes at.old at.new }
{
    let mut arguments = Vec::new(at.alloc());
    for _ in 0..arity {
        let made = at.rigid()?;
        push(&mut arguments, made)?;
    }
    Ok(arguments)
}

/// Whether an actual declaration of the same number of parameters is the wanted one, and tells the same where that tells
/// something.
pub fn declares(
    at: &mut Parts,
    actual: &Declaration,
    wanted: &Declaration,
) -> Result<bool, NoMemory>
    ensures shape { IfOk result (λ met. met ≡ true → ShapesFit actual.now.shape wanted.now.shape) }
    ensures judged { IfOk result (λ met. ComparesDeclarations at.old.store.nodes at.new.store.nodes actual.now wanted.now met) }
    ensures goes { Goes at.old at.new }
{
    if stand_for_one(at, actual, wanted)? {
        shapes_agree(at, actual, wanted)
    } else {
        Ok(false)
    }
}

/// Whether something unknown stands in one of two types.
fn is_either_unknown(at: &Parts, one: NodeRef, other: NodeRef) -> Result<bool, NoMemory>
    ensures { IfOk result (λ unknown. IsNode at.now.store.nodes one.0 → IsNode at.now.store.nodes other.0 → IsTrue unknown ↔ (HasUnknown at.now.store.nodes one.0 ⊎ HasUnknown at.now.store.nodes other.0)) }
{
    if at.has_unknown(one)? {
        Ok(true)
    } else {
        at.has_unknown(other)
    }
}

/// Whether two declarations of as many parameters stand for one type: as schemes of their parameters with the type behind them, or
/// over rigid types, where something unknown stands in one, in which no parameter may stand.
fn stand_for_one(
    at: &mut Parts,
    actual: &Declaration,
    wanted: &Declaration,
) -> Result<bool, NoMemory>
    ensures compared { IfOk result (λ met. ComparesRoots at.old.store.nodes at.new.store.nodes actual.now.root wanted.now.root met) }
    ensures goes { Goes at.old at.new }
{
    if is_either_unknown(at, actual.root, wanted.root)? {
        are_one_over(at, actual, wanted)
    } else {
        at.covers(actual.root, wanted.root)
    }
}

/// Whether two declarations give the same rigid types one type.
fn are_one_over(
    at: &mut Parts,
    actual: &Declaration,
    wanted: &Declaration,
) -> Result<bool, NoMemory>
    ensures goes { Goes at.old at.new }
{
    let arguments = rigid_arguments(at, wanted.arity)?;
    let found = over(at, actual, &arguments)?;
    let asked = over(at, wanted, &arguments)?;
    at.are_one(found, asked)
}

/// Whether two declarations tell the same of their values, where the wanted one tells something.
fn shapes_agree(
    at: &mut Parts,
    actual: &Declaration,
    wanted: &Declaration,
) -> Result<bool, NoMemory>
    ensures shape { IfOk result (λ met. met ≡ true → ShapesFit actual.now.shape wanted.now.shape) }
    ensures compared { IfOk result (λ met. ComparesShapes at.old.store.nodes at.new.store.nodes actual.now.shape wanted.now.shape met) }
    ensures goes { Goes at.old at.new }
{
    let both = Both { actual, wanted };
    match (&actual.shape, &wanted.shape) {
        (_, Shape::Opaque) => Ok(true),
        (Shape::Variant(found), Shape::Variant(asked)) => {
            both.all_constructors_agree(at, found, asked)
        }
        (Shape::Labels(found), Shape::Labels(asked)) => both.labels_agree(at, found, asked),
        (Shape::Opaque, _) => Ok(false),
        (Shape::Variant(_), Shape::Labels(_)) => Ok(false),
        (Shape::Labels(_), Shape::Variant(_)) => Ok(false),
    }
}

/// A side of an arrow.
#[derive(Clone, Copy, Drop)]
enum Side {
    From,
    To,
}

/// One side of an instance of a root, whose other side is the declaration's type over arguments.
fn side_over(
    at: &mut Parts,
    root: NodeRef,
    declaration: &Declaration,
    arguments: &[NodeRef],
    side: Side,
) -> Result<NodeRef, NoMemory>
    ensures goes { Goes at.old at.new }
{
    let instance = copied(at, root, ForBound::Variable, ForUnknown::Closed)?;
    let whole = over(at, declaration, arguments)?;
    match at.sides_of_arrow(instance) {
        None => at.var(),
        Some((from, to)) => {
            let (one, other) = match side {
                Side::From => (from, to),
                Side::To => (to, from),
            };
            at.join(other, whole)?;
            Ok(one)
        }
    }
}

/// Two declarations of as many parameters that stand for one type.
#[derive(Clone, Copy)]
struct Both<'a> {
    actual: &'a Declaration,
    wanted: &'a Declaration,
}

impl<'a> Both<'a> {
    /// Whether two roots of constructors or of labels are one: as schemes, or by one side over rigid types, where something unknown
    /// stands in one.
    fn roots_agree(
        self,
        at: &mut Parts,
        found: NodeRef,
        asked: NodeRef,
        side: Side,
    ) -> Result<bool, NoMemory>
        ensures compared { IfOk result (λ met. ComparesRoots at.old.store.nodes at.new.store.nodes found asked met) }
        ensures goes { Goes at.old at.new }
    {
        if is_either_unknown(at, found, asked)? {
            self.sides_are_one(at, found, asked, side)
        } else {
            at.covers(found, asked)
        }
    }

    /// Whether one side of both roots is one type, over the same rigid types.
    fn sides_are_one(
        self,
        at: &mut Parts,
        found: NodeRef,
        asked: NodeRef,
        side: Side,
    ) -> Result<bool, NoMemory>
        ensures goes { Goes at.old at.new }
    {
        let arguments = rigid_arguments(at, self.wanted.arity)?;
        let one = side_over(at, found, self.actual, &arguments, side)?;
        let other = side_over(at, asked, self.wanted, &arguments, side)?;
        at.are_one(one, other)
    }

    fn all_constructors_agree(
        self,
        at: &mut Parts,
        found: &[Constructor],
        asked: &[Constructor],
    ) -> Result<bool, NoMemory>
        ensures fit { IfOk result (λ met. met ≡ true → AllZip ConstructorsFit found.now asked.now) }
        ensures compared { IfOk result (λ met. ComparesConstructors at.old.store.nodes at.new.store.nodes found.now asked.now met) }
        ensures goes { Goes at.old at.new }
    {
        if found.len() != asked.len() {
            return Ok(false);
        }
        for (one, other) in found.iter().zip(asked.iter()) {
            if !self.constructors_agree(at, one, other)? {
                return Ok(false);
            }
        }
        Ok(true)
    }

    fn constructors_agree(
        self,
        at: &mut Parts,
        found: &Constructor,
        asked: &Constructor,
    ) -> Result<bool, NoMemory>
        ensures fit { IfOk result (λ met. met ≡ true → ConstructorsFit found.now asked.now) }
        ensures compared { IfOk result (λ met. ComparesConstructor at.old.store.nodes at.new.store.nodes found.now asked.now met) }
        ensures goes { Goes at.old at.new }
    {
        if !found.name.is(asked.name.as_str()) || found.has_argument != asked.has_argument {
            return Ok(false);
        }
        if !found.has_argument {
            return Ok(true);
        }
        self.roots_agree(at, found.root, asked.root, Side::From)
    }

    fn labels_agree(
        self,
        at: &mut Parts,
        found: &[Label],
        asked: &[Label],
    ) -> Result<bool, NoMemory>
        ensures fit { IfOk result (λ met. met ≡ true → AllZip LabelsFit found.now asked.now) }
        ensures compared { IfOk result (λ met. ComparesLabels at.old.store.nodes at.new.store.nodes found.now asked.now met) }
        ensures goes { Goes at.old at.new }
    {
        if found.len() != asked.len() {
            return Ok(false);
        }
        for (one, other) in found.iter().zip(asked.iter()) {
            if !self.label_agrees(at, one, other)? {
                return Ok(false);
            }
        }
        Ok(true)
    }

    fn label_agrees(self, at: &mut Parts, found: &Label, asked: &Label) -> Result<bool, NoMemory>
        ensures fit { IfOk result (λ met. met ≡ true → LabelsFit found.now asked.now) }
        ensures compared { IfOk result (λ met. ComparesLabel at.old.store.nodes at.new.store.nodes found.now asked.now met) }
        ensures goes { Goes at.old at.new }
    {
        if !found.name.is(asked.name.as_str()) || found.is_mutable != asked.is_mutable {
            return Ok(false);
        }
        self.roots_agree(at, found.root, asked.root, Side::To)
    }
}

/// Whether two exceptions have the same argument, or none.
pub fn same_exception(
    at: &mut Parts,
    actual: &Constructor,
    wanted: &Constructor,
) -> Result<bool, NoMemory>
    ensures has_argument { IfOk result (λ met. met ≡ true → actual.now.has_argument ≡ wanted.now.has_argument) }
    ensures judged { IfOk result (λ met. ComparesExceptions at.old.store.nodes at.new.store.nodes actual.now wanted.now met) }
    ensures goes { Goes at.old at.new }
{
    if actual.has_argument != wanted.has_argument {
        return Ok(false);
    }
    types_agree(at, actual.root, wanted.root)
}

/// Whether two types without parameters are one: as schemes, or with any types for what is unknown in them.
fn types_agree(at: &mut Parts, one: NodeRef, other: NodeRef) -> Result<bool, NoMemory>
    ensures compared { IfOk result (λ met. ComparesRoots at.old.store.nodes at.new.store.nodes one other met) }
    ensures goes { Goes at.old at.new }
{
    if is_either_unknown(at, one, other)? {
        known_are_one(at, one, other)
    } else {
        at.covers(one, other)
    }
}

/// Whether two types are one, with any types for what is unknown in them.
fn known_are_one(at: &mut Parts, actual: NodeRef, wanted: NodeRef) -> Result<bool, NoMemory>
    ensures goes { Goes at.old at.new }
{
    let one = copied(at, actual, ForBound::Variable, ForUnknown::Closed)?;
    let other = copied(at, wanted, ForBound::Variable, ForUnknown::Closed)?;
    at.are_one(one, other)
}
