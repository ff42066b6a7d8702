//! The type variables of a specification.
#![tactic(auto)]

ghost use Rattle.std.specs.Prelude.{◌≡◌, ◌++◌, [], ◌∷◌, OnOk};
ghost use Rattle.tree_model.specs.Trees.{part_yield, yield_of};
ghost use Rattle.text_terms.specs.Bytes.{str_bytes};
ghost use Rattle.syntax_tree.specs.View.{node_view, part_view, tok_of};
ghost use Rattle.typing_model.specs.Items.{variable_by};
ghost use Rattle.typing_model.specs.Modules.{once_each};
ghost use Rattle.typing_model.specs.Records.{is_among};
ghost use Rattle.decl_typing.specs.Parameters.{token_names};
ghost use Rattle.signature_typing.specs.Values.{FindsMore};

use owned_lists::push;
use syntax_tree::{Node, Part, Token, TokenKind};
use typing_state::NoMemory;

/// Whether one of some type variables has the name of another.
fn is_found(found: &[&Token], token: &Token) -> bool
    ensures { result ≡ is_among (str_bytes token.now.name) (token_names found.now) }
{
    for other in found {
        if token.name.is(other.name.as_str()) {
            return true;
        }
    }
    false
}

/// A type variable joins those found so far, where none of them has its name.
fn push_once<'a>(found: &mut Vec<&'a Token>, token: &'a Token) -> Result<(), NoMemory>
    ensures { OnOk result (token_names found.new.items ≡ token_names found.old.items ++ once_each (token_names found.old.items) (str_bytes token.now.name ∷ [])) }
{
    if is_found(found, token) {
        return Ok(());
    }
    push(found, token)
}

/// The same of a token, which may be another one.
fn add_token<'a>(token: &'a Token, found: &mut Vec<&'a Token>) -> Result<(), NoMemory>
    ensures { OnOk result (token_names found.new.items ≡ token_names found.old.items ++ once_each (token_names found.old.items) (variable_by (tok_of token.now).kind (tok_of token.now).name)) }
{
    match token.kind {
        TokenKind::TyVar => push_once(found, token),
        _ => Ok(()),
    }
}

/// The type variables in a part, once each, join those found so far.
#[cycle(variables)]
fn add_part<'a>(part: &'a Part, found: &mut Vec<&'a Token>) -> Result<(), NoMemory>
    ensures { OnOk result (FindsMore (token_names found.old.items) (part_yield (part_view part.now)) (token_names found.new.items)) }
{
    match part {
        Part::Taken(token) => add_token(token, found),
        Part::Inner(node) => add_variables(node, found),
        Part::Missing(_) => Ok(()),
    }
}

/// The type variables in a node, once each in the order in which they are first written, join those found so far.
#[cycle(variables)]
pub fn add_variables<'a>(node: &'a Node, found: &mut Vec<&'a Token>) -> Result<(), NoMemory>
    ensures { OnOk result (FindsMore (token_names found.old.items) (yield_of (node_view node.now)) (token_names found.new.items)) }
{
    for child in &node.children {
        add_part(&child.part, found)?;
    }
    Ok(())
}
