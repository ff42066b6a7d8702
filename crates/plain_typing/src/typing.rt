//! The types of a plain text.
ghost use Rattle.std.specs.Prelude.{◌≡◌, ◌≤◌, ◌<◌, ◌+◌, ◌-◌, ◌^◌, ◌++◌, ◌∷◌, [], length, map, option_map, IfOk, OnOk};
ghost use Rattle.plain_model.specs.Plain as plain;
ghost use Rattle.syntax_tree.specs.View.{node_view, tok_of, trees_of};
ghost use Rattle.plain_typing.specs.View.{bound_of, env_of, plain_of, seen_of};

use crate::bound::{Bound, item_of};
use crate::scope::{Typed, type_of};
use crate::{Plain, PlainSeen};
use std::alloc::{AllocError, Global};
use syntax_tree::{NoMemory, NodeId, Token, Tree};

/// Each pattern and each right side in order, with its type.
/// None where an item isn't of a plain text, or its value is a name that no earlier item binds.
#[tactic(auto, unfolding(plain_model::specs::Plain::typed_trees))]
pub fn type_plain(alloc: Global, tree: &Tree) -> Result<Option<Vec<PlainSeen>>, NoMemory>
    requires { length (trees_of tree.now) < 2 ^ 32 - 1 }
    ensures { IfOk result (λ o. option_map (λ v. map seen_of v.items) o ≡ plain.typed_trees (trees_of tree.now)) }
{
    let mut env: Vec<Typed> = Vec::new(alloc);
    let mut seen: Vec<PlainSeen> = Vec::new(alloc);
    let mut number: u32 = 1;
    for item in &tree.items {
        let Some(bound) = item_of(item) else {
            return Ok(None);
        };
        let Some(ty) = type_of(&env, bound.value) else {
            return Ok(None);
        };
        note_item(&mut seen, number, bound, ty)?;
        bind(&mut env, bound.name, ty)?;
        number += 1;
    }
    Ok(Some(seen))
}

fn note_item(seen: &mut Vec<PlainSeen>, item: u32, bound: Bound, ty: Plain) -> Result<(), NoMemory>
    ensures { OnOk result (map seen_of seen.new.items ≡ map seen_of seen.old.items
        ++ plain.seen item 2 (bound_of bound.entry).0 (plain_of ty)
        ∷ plain.seen item 3 (bound_of bound.entry).1 (plain_of ty) ∷ []) }
{
    note(seen, NodeId { item, pre: 2 }, bound.name, ty)?;
    note(seen, NodeId { item, pre: 3 }, bound.value, ty)
}

fn note(seen: &mut Vec<PlainSeen>, id: NodeId, token: &Token, ty: Plain) -> Result<(), NoMemory>
    ensures { OnOk result (map seen_of seen.new.items ≡ map seen_of seen.old.items
        ++ plain.seen id.item id.pre (tok_of token.now) (plain_of ty) ∷ []) }
{
    let span = token.span;
    match seen.push(PlainSeen { id, span, ty }) {
        Ok(()) => Ok(()),
        Err(_) => Err(AllocError),
    }
}

fn bind<'a>(env: &mut Vec<Typed<'a>>, name: &'a Token, ty: Plain) -> Result<(), NoMemory>
    ensures { OnOk result (env_of env.new.items ≡ ((tok_of name.now).name, plain_of ty) ∷ env_of env.old.items) }
{
    let typed = Typed {
        name: name.name.as_str(),
        ty,
    };
    match env.push(typed) {
        Ok(()) => Ok(()),
        Err(_) => Err(AllocError),
    }
}
