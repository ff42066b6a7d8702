//! The tree of a plain text's tokens.
ghost use Rattle.std.specs.Prelude.{◌≡◌, ◌*◌, ◌<◌, ◌++◌, ◌∷◌, [], length, map, option_map, IfOk, IfSome, OnOk};
ghost use Rattle.plain_model.specs.Plain as plain;
ghost use Rattle.tree_model.specs.Trees.{inner, taken, AreItemsSized};
ghost use Rattle.plain_typing.specs.View.{views};
ghost use Rattle.syntax_tree.specs.Names.{row_of};
ghost use Rattle.syntax_tree.specs.View.{child_view, node_view, tok_of, trees_of};

use crate::kinds::{is_item, is_lower};
use std::alloc::{AllocError, Global};
use std::rc::Rc;
use syntax_tree::{Child, NoMemory, Node, Part, RowName, Token, Tree, leaf, node_of};

/// The tree of the tokens of a plain text. None where they are those of another text.
pub fn plain_tree(alloc: Global, tokens: &[Token]) -> Result<Option<Tree>, NoMemory>
    ensures trees { IfOk result (λ o. option_map trees_of o ≡ plain.plain_trees (map tok_of tokens.now)) }
    ensures sized { IfOk result (λ o. IfSome o (λ t. AreItemsSized (trees_of t))) }
    ensures count { IfOk result (λ o. IfSome o (λ t. length (trees_of t) * 4 ≡ length tokens.now)) }
{
    trees_over(alloc, tokens)
}

fn trees_over(alloc: Global, tokens: &[Token]) -> Result<Option<Tree>, NoMemory>
    ensures { IfOk result (λ o. option_map trees_of o ≡ plain.plain_trees (map tok_of tokens.now)) }
{
    let mut items: Vec<Rc<Node>> = Vec::new(alloc);
    let mut left = tokens;
    while let [word, name, sign, value, rest @ ..] = left {
        if !is_item(word, name, sign, value) {
            return Ok(None);
        }
        let item = item_over(alloc, word, name, sign, value)?;
        add_item(&mut items, item)?;
        left = rest;
    }
    Ok(all_taken(items, left))
}

fn add_item(items: &mut Vec<Rc<Node>>, item: Rc<Node>) -> Result<(), NoMemory>
    ensures { OnOk result (views items.new.items ≡ views items.old.items ++ node_view item.value ∷ []) }
{
    match items.push(item) {
        Ok(()) => Ok(()),
        Err(_) => Err(AllocError),
    }
}

/// The tree of these items, where no token is left.
fn all_taken(items: Vec<Rc<Node>>, left: &[Token]) -> Option<Tree>
    requires { length left.now < 4 }
    ensures { option_map trees_of result
        ≡ option_map (λ ts. views items.items ++ ts) (plain.plain_trees (map tok_of left.now)) }
{
    if left.is_empty() {
        Some(Tree { items })
    } else {
        None
    }
}

fn item_over(
    alloc: Global,
    word: &Token,
    name: &Token,
    sign: &Token,
    value: &Token,
) -> Result<Rc<Node>, NoMemory>
    ensures { IfOk result (λ r. node_view r.value
        ≡ plain.item_tree (tok_of word.now) (tok_of name.now) (tok_of sign.now) (tok_of value.now)) }
{
    let binding = binding_over(alloc, name, sign, value)?;
    let word = taken_child(0, word)?;
    let bound = inner_child(2, binding);
    match vec![in alloc; word, bound] {
        Ok(children) => node_of(alloc, RowName::Let, children),
        Err(_) => Err(AllocError),
    }
}

fn binding_over(
    alloc: Global,
    name: &Token,
    sign: &Token,
    value: &Token,
) -> Result<Rc<Node>, NoMemory>
    ensures { IfOk result (λ r. node_view r.value
        ≡ plain.binding (tok_of name.now) (tok_of sign.now) (tok_of value.now)) }
{
    let pattern = leaf_child(alloc, 0, RowName::Pname, name)?;
    let sign = taken_child(4, sign)?;
    let right = leaf_child(alloc, 5, value_row(value), value)?;
    match vec![in alloc; pattern, sign, right] {
        Ok(children) => node_of(alloc, RowName::Binding, children),
        Err(_) => Err(AllocError),
    }
}

fn leaf_child(alloc: Global, slot: u8, row: RowName, token: &Token) -> Result<Child, NoMemory>
    ensures { IfOk result (λ c. child_view c ≡ (slot, plain.leaf (row_of row) (tok_of token.now))) }
{
    let token = token.share()?;
    Ok(inner_child(slot, leaf(alloc, row, 0, token)?))
}

fn inner_child(slot: u8, node: Rc<Node>) -> Child
    ensures { child_view result ≡ (slot, inner (node_view node.value)) }
{
    Child {
        slot,
        part: Part::Inner(node),
    }
}

fn taken_child(slot: u8, token: &Token) -> Result<Child, NoMemory>
    ensures { IfOk result (λ c. child_view c ≡ (slot, taken (tok_of token.now))) }
{
    Ok(Child {
        slot,
        part: Part::Taken(token.share()?),
    })
}

fn value_row(value: &Token) -> RowName
    ensures { row_of result ≡ plain.value_row (tok_of value.now) }
{
    if is_lower(value.kind) {
        RowName::Name
    } else {
        RowName::Econst
    }
}
