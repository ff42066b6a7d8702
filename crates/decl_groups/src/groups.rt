//! Groups of declarations as they are written.
ghost use Rattle.std.specs.Prelude.{◌≡◌, map, option_map, IfOk};
ghost use Rattle.syntax_tree.specs.View.{node_view};
ghost use Rattle.row_parts.specs.Numbered.{operand_view, operands_in};
ghost use Rattle.decl_groups.specs.Written.{constructor_in, label_in, nodes_as, told_at, alias_in, own_by, right_of, declaration_in, declarations_in, constructor_view, label_view, told_view, right_view, declaration_view};

use owned_lists::push;
use row_parts::{Operand, first_operand, operand_in, operands, token, tokens};
use std::alloc::Global;
use syntax_tree::{Node, Part, RowName, Token};
use type_nodes::NoMemory;

/// What a declaration tells of its values.
#[derive(Drop)]
pub enum Told<'a> {
    /// A | B of t
    Constructors(Vec<ConstructorPart<'a>>),
    /// { l : t }
    Labels(Vec<LabelPart<'a>>),
}

/// A, A of t
#[derive(Clone, Copy, Drop)]
pub struct ConstructorPart<'a> {
    pub number: u32,
    pub name: Option<&'a Token>,
    pub argument: Option<Operand<'a>>,
}

/// l : t, mutable l : t
#[derive(Clone, Copy, Drop)]
pub struct LabelPart<'a> {
    pub number: u32,
    pub is_mutable: bool,
    pub name: Option<&'a Token>,
    pub body: Operand<'a>,
}

/// What stands behind the `=` of a declaration.
#[derive(Drop)]
pub enum Right<'a> {
    /// Nothing, or a part that is missing.
    Abstract,
    /// t: an abbreviation, by the number of its row
    Abbreviation(u32, Operand<'a>),
    /// t = A | B: a re-export, by the number of its row; what is told stands in a row of its own
    Reexport(u32, Operand<'a>, u32, Told<'a>),
    /// A | B, { l : t }, by the number of its row
    Own(u32, Told<'a>),
}

/// ('a, 'b) t = ..
#[derive(Drop)]
pub struct DeclarationPart<'a> {
    pub number: u32,
    /// The number of the head, in which the name stands.
    pub head: u32,
    pub parameters: Vec<&'a Token>,
    pub name: Option<&'a Token>,
    pub right: Right<'a>,
    /// The numbers of what is missing on the right side.
    pub missing: Vec<u32>,
}

fn constructor_part<'a>(node: &'a Node, number: u32) -> ConstructorPart<'a>
    ensures { constructor_view result ≡ constructor_in number (node_view node.now) }
{
    ConstructorPart {
        number,
        name: token(node, 0),
        argument: first_operand(node, number, 2),
    }
}

fn label_part<'a>(node: &'a Node, number: u32) -> LabelPart<'a>
    ensures { label_view result ≡ label_in number (node_view node.now) }
{
    LabelPart {
        number,
        is_mutable: token(node, 0).is_some(),
        name: token(node, 1),
        body: operand_in(node, number, 3),
    }
}

fn constructors<'a>(
    alloc: Global,
    node: &'a Node,
    number: u32,
) -> Result<Vec<ConstructorPart<'a>>, NoMemory>
    ensures { IfOk result (λ ps. map constructor_view ps.items ≡ nodes_as constructor_in (operands_in number (node_view node.now) 1)) }
{
    let mut found = Vec::new(alloc);
    for part in operands(alloc, node, number, 1)?.iter() {
        if let Some(inner) = part.node {
            let constructor = constructor_part(inner, part.number);
            push(&mut found, constructor)?;
        }
    }
    Ok(found)
}

fn labels<'a>(alloc: Global, node: &'a Node, number: u32) -> Result<Vec<LabelPart<'a>>, NoMemory>
    ensures { IfOk result (λ ps. map label_view ps.items ≡ nodes_as label_in (operands_in number (node_view node.now) 1)) }
{
    let mut found = Vec::new(alloc);
    for part in operands(alloc, node, number, 1)?.iter() {
        if let Some(inner) = part.node {
            push(&mut found, label_part(inner, part.number))?;
        }
    }
    Ok(found)
}

/// What a row tells of values; None of a row that tells nothing.
fn told_by<'a>(alloc: Global, node: &'a Node, number: u32) -> Result<Option<Told<'a>>, NoMemory>
    ensures { IfOk result (λ k. option_map told_view k ≡ told_at number (node_view node.now)) }
{
    match node.row {
        RowName::Variant => Ok(Some(Told::Constructors(constructors(alloc, node, number)?))),
        RowName::Record => Ok(Some(Told::Labels(labels(alloc, node, number)?))),
        _ => Ok(None),
    }
}

/// What stands behind the type of an alias.
fn alias<'a>(alloc: Global, node: &'a Node, number: u32) -> Result<Right<'a>, NoMemory>
    ensures { IfOk result (λ r. right_view r ≡ alias_in number (node_view node.now)) }
{
    let ty = operand_in(node, number, 0);
    if let Some(kind) = first_operand(node, number, 2) {
        if let Some(inner) = kind.node {
            if let Some(told) = told_by(alloc, inner, kind.number)? {
                return Ok(Right::Reexport(number, ty, kind.number, told));
            }
        }
    }
    Ok(Right::Abbreviation(number, ty))
}

fn right_side<'a>(alloc: Global, operand: Option<Operand<'a>>) -> Result<Right<'a>, NoMemory>
    ensures { IfOk result (λ r. right_view r ≡ right_of (option_map operand_view operand.entry)) }
{
    let Some(part) = operand else {
        return Ok(Right::Abstract);
    };
    let Some(node) = part.node else {
        return Ok(Right::Abstract);
    };
    match node.row {
        RowName::Alias => alias(alloc, node, part.number),
        _ => own(alloc, node, part.number),
    }
}

/// A right side that is no alias: what its row tells.
fn own<'a>(alloc: Global, node: &'a Node, number: u32) -> Result<Right<'a>, NoMemory>
    ensures { IfOk result (λ r. right_view r ≡ own_by number (told_at number (node_view node.now))) }
{
    match told_by(alloc, node, number)? {
        Some(told) => Ok(Right::Own(number, told)),
        None => Ok(Right::Abstract),
    }
}

/// The numbers of the operands that are missing in a slot.
pub fn missing_in(alloc: Global, node: &Node, number: u32, slot: u8) -> Result<Vec<u32>, NoMemory> {
    let mut missing = Vec::new(alloc);
    for part in operands(alloc, node, number, slot)? {
        if part.node.is_none() {
            push(&mut missing, part.number)?;
        }
    }
    Ok(missing)
}

/// The numbers of what is missing in a row that tells something of values.
fn missing_told(alloc: Global, part: Operand<'_>) -> Result<Vec<u32>, NoMemory> {
    match part.node {
        None => Ok(vec![in alloc; part.number]?),
        Some(node) => missing_in(alloc, node, part.number, 1),
    }
}

/// The numbers of what is missing on a right side.
fn missing_right(alloc: Global, right: Option<Operand<'_>>) -> Result<Vec<u32>, NoMemory> {
    let Some(part) = right else {
        return Ok(Vec::new(alloc));
    };
    match part.node {
        Some(node) if node.row == RowName::Alias => match first_operand(node, part.number, 2) {
            Some(kind) => missing_told(alloc, kind),
            None => Ok(Vec::new(alloc)),
        },
        _ => missing_told(alloc, part),
    }
}

fn declaration_part<'a>(
    alloc: Global,
    node: &'a Node,
    number: u32,
) -> Result<DeclarationPart<'a>, NoMemory>
    ensures { IfOk result (λ d. declaration_view d ≡ declaration_in number (node_view node.now)) }
{
    let head = operand_in(node, number, 0);
    let (parameters, name) = match head.node {
        Some(inner) => (tokens(alloc, inner, 1)?, token(inner, 4)),
        None => (Vec::new(alloc), None),
    };
    let right = first_operand(node, number, 2);
    Ok(DeclarationPart {
        number,
        head: head.number,
        parameters,
        name,
        right: right_side(alloc, right)?,
        missing: missing_right(alloc, right)?,
    })
}

/// The declarations of an item of the row `type` with this number.
pub fn declarations_of<'a>(
    alloc: Global,
    item: &'a Node,
    number: u32,
) -> Result<Vec<DeclarationPart<'a>>, NoMemory>
    ensures { IfOk result (λ ds. map declaration_view ds.items ≡ declarations_in number (node_view item.now)) }
{
    let mut found = Vec::new(alloc);
    for part in operands(alloc, item, number, 2)?.iter() {
        if let Some(node) = part.node {
            let declaration = declaration_part(alloc, node, part.number)?;
            push(&mut found, declaration)?;
        }
    }
    Ok(found)
}

/// Where a type expression stands.
#[derive(Clone, Copy, PartialEq, Eq)]
pub enum Standing {
    Alone,
    /// In front of a constructor, where several types may stand in parentheses.
    InFront,
}

/// How many types stand in front of a constructor.
pub fn arguments_in_front(node: &Node) -> usize {
    let mut count = 0;
    for child in &node.children {
        if child.slot == 0 {
            if let Part::Inner(left) = &child.part {
                count = types_in_parentheses(left);
            } else {
                count = 1;
            }
        }
    }
    count
}

/// How many types a type expression is: several only in parentheses.
fn types_in_parentheses(node: &Node) -> usize {
    if node.row != RowName::Tparen {
        return 1;
    }
    let mut count: usize = 0;
    for child in &node.children {
        if child.slot == 1 {
            count = count.saturating_add(1);
        }
    }
    count.max(1)
}

/// Whether several types stand in parentheses where one is wanted, so that the whole is an unknown type.
pub fn is_several(node: &Node, standing: Standing) -> bool {
    standing == Standing::Alone && types_in_parentheses(node) > 1
}

/// The last token of a node, as far in as it stands.
pub fn last_token(node: &Node) -> Option<&Token> {
    let mut last = None;
    for child in &node.children {
        match &child.part {
            Part::Taken(taken) => last = Some(taken),
            Part::Inner(inner) => {
                if let Some(taken) = last_token(inner) {
                    last = Some(taken);
                }
            }
            Part::Missing(_) => {}
        }
    }
    last
}
