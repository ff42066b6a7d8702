//! The type variables of an item: those that are written in it are among its tokens.
#![tactic(auto)]

ghost use Rattle.std.specs.Prelude.{◌≡◌, ◌↔◌, ◌||◌, [], ◌∷◌, IsTrue, IfOk, OnOk};
ghost use Rattle.tree_model.specs.Trees.{part_yield, yield_of};
ghost use Rattle.syntax_tree.specs.View.{node_view, part_view, tok_of};
ghost use Rattle.signature_model.specs.Declarations.{Name};
ghost use Rattle.typing_model.specs.Records.{is_among};
ghost use Rattle.typing_model.specs.Items.{variable_by, variables_written};
ghost use Rattle.binding_rows.specs.ItemRows.{AreWrittenIn};
ghost use Rattle.binding_steps.specs.Variables.{AreNamedIn, has};

use std::alloc::{AllocError, Global};
use std::collections::{HashMap, HashSet};
use syntax_tree::{Node, Part, Token, TokenKind};
use type_nodes::{NoMemory, NodeRef};
use typing_state::Parts;

/// The name of a token that is a type variable joins the others.
fn add_token<'a>(token: &'a Token, names: &mut HashSet<&'a str>) -> Result<(), NoMemory>
    ensures { OnOk result ((q : Name) → has names.new q ≡ (has names.old q || is_among q (variable_by (tok_of token.now).kind (tok_of token.now).name))) }
{
    match token.kind {
        TokenKind::TyVar => put(names, token.name.as_str()),
        _ => Ok(()),
    }
}

/// A name joins the others.
fn put<'a>(names: &mut HashSet<&'a str>, name: &'a str) -> Result<(), NoMemory>
    ensures { OnOk result ((q : Name) → has names.new q ≡ (has names.old q || is_among q (name.now ∷ []))) }
{
    match names.insert(name) {
        Ok(_) => Ok(()),
        Err(_) => Err(AllocError),
    }
}

/// The names of the type variables in a part join the others.
#[cycle(variables)]
fn add_part<'a>(part: &'a Part, names: &mut HashSet<&'a str>) -> Result<(), NoMemory>
    ensures { OnOk result ((q : Name) → has names.new q ≡ (has names.old q || is_among q (variables_written (part_yield (part_view part.now))))) }
{
    match part {
        Part::Taken(token) => add_token(token, names),
        Part::Inner(node) => add_node(node, names),
        Part::Missing(_) => Ok(()),
    }
}

/// The names of the type variables in a node join the others.
#[cycle(variables)]
fn add_node<'a>(node: &'a Node, names: &mut HashSet<&'a str>) -> Result<(), NoMemory>
    ensures { OnOk result ((q : Name) → has names.new q ≡ (has names.old q || is_among q (variables_written (yield_of (node_view node.now))))) }
{
    for child in &node.children {
        add_part(&child.part, names)?;
    }
    Ok(())
}

/// Whether each of these type variables is among the tokens of an item.
fn are_own(
    alloc: Global,
    variables: &HashMap<String, NodeRef>,
    item: &Node,
) -> Result<bool, NoMemory>
    ensures { IfOk result (λ own. IsTrue own ↔ AreNamedIn (yield_of (node_view item.now)) variables.now) }
{
    if variables.is_empty() {
        return Ok(true);
    }
    let mut names = HashSet::new(alloc);
    add_node(item, &mut names)?;
    for name in variables.keys() {
        if !names.contains(name.as_str()) {
            return Ok(false);
        }
    }
    Ok(true)
}

/// Gives up with `NoMemory` where a type variable that is written isn't among the tokens of an item. No text shows this: what is written is forgotten before an
/// item, and its tokens alone write.
pub fn has_own_variables(at: &Parts, item: &Node) -> Result<(), NoMemory>
    ensures { OnOk result (AreWrittenIn (yield_of (node_view item.now)) at.now.written) }
{
    let own = are_own(at.alloc(), &at.written.variables, item)?;
    if own { Ok(()) } else { Err(AllocError) }
}
