//! A plain text as its tree and its typed nodes.
ghost use Rattle.std.specs.Prelude.{◌≡◌, ◌≤◌, ◌<◌, ◌-◌, ◌^◌, length, map, find, option_map, IfOk, IfSome};
ghost use Rattle.tree_model.specs.Trees.{AreItemsSized};
ghost use Rattle.plain_model.specs.Plain.{plain_text, type_text, AllSeenWithin};
ghost use Rattle.syntax_tree.specs.View.{id_of, tok_of, trees_of};
ghost use Rattle.service_model.specs.Answers.{typed_among as typed_among_spec, plain_typed, is_id};
ghost use Rattle.json_lines.specs.Means.{typed_of};
ghost use Rattle.plain_typing.specs.View.{plain_of as plain_type_of, seen_of};
ghost use Rattle.text_reading.specs.PlainTexts.{plain_of};

use json_lines::Typed;
use plain_typing::{Plain, PlainSeen, plain_tree, type_plain};
use std::alloc::{AllocError, Global};
use syntax_tree::{NoMemory, NodeId, RcStr, Token, Tree};
use text_store::TextStore;

/// What a plain text is read as: its tree, and its typed nodes in preorder.
#[derive(Drop)]
pub struct PlainText {
    pub tree: Tree,
    pub seen: Vec<PlainSeen>,
}

/// Reads tokens as those of a plain text. None exactly where they aren't.
pub fn read_plain(alloc: Global, tokens: &[Token]) -> Result<Option<PlainText>, NoMemory>
    requires few { length tokens.now < 2 ^ 32 - 1 }
    ensures read { IfOk result (λ o. option_map plain_of o ≡ plain_text (map tok_of tokens.now)) }
    ensures sized { IfOk result (λ o. IfSome o (λ p. AreItemsSized (trees_of p.tree) × (length (trees_of p.tree) < 2 ^ 32 - 1))) }
{
    let Some(tree) = plain_tree(alloc, tokens)? else {
        return Ok(None);
    };
    let Some(seen) = type_plain(alloc, &tree)? else {
        return Ok(None);
    };
    Ok(Some(PlainText { tree, seen }))
}

/// What is shown of a type.
fn name_of_type(ty: Plain) -> &'static str
    ensures { result.now ≡ type_text (plain_type_of ty) }
{
    match ty {
        Plain::Int => "int",
        Plain::Str => "string",
        Plain::Bool => "bool",
    }
}

/// A typed node of the store's text as it is shown.
fn shown(alloc: Global, store: &TextStore, seen: &PlainSeen) -> Result<Typed, NoMemory>
    requires start { seen.now.span.start ≤ length store.now }
    requires end { seen.now.span.end ≤ length store.now }
    ensures { IfOk result (λ t. typed_of t ≡ plain_typed store.now (seen_of seen.now)) }
{
    let ty = RcStr::from_str(alloc, name_of_type(seen.ty))?;
    Ok(Typed {
        start: store.pos_of(seen.span.start),
        end: store.pos_of(seen.span.end),
        ty,
    })
}

/// The typed node of this number, if there is one.
fn find_seen(seen: &[PlainSeen], id: NodeId) -> Option<PlainSeen>
    ensures { option_map seen_of result ≡ find (is_id (id_of id)) (map seen_of seen.now) }
{
    for node in seen {
        if node.id == id {
            return Some(*node);
        }
    }
    None
}

/// The typed ones among nodes of the store's text, in their order, as they are shown.
pub fn typed_among(
    alloc: Global,
    store: &TextStore,
    seen: &[PlainSeen],
    ids: &[NodeId],
) -> Result<Vec<Typed>, NoMemory>
    requires { AllSeenWithin (length store.now) (map seen_of seen.now) }
    ensures { IfOk result (λ v. map typed_of v.items ≡ typed_among_spec store.now (map seen_of seen.now) (map id_of ids.now)) }
{
    let mut types = Vec::new(alloc);
    for id in ids {
        if let Some(found) = find_seen(seen, *id) {
            let typed = shown(alloc, store, &found)?;
            if types.push(typed).is_err() {
                return Err(AllocError);
            }
        }
    }
    Ok(types)
}
