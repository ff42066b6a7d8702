//! Texts that look as if they had two trees, and the one that each has.
use crate::parser::parsed;
use crate::verdict::none_wrong;
use std::alloc::{AllocError, Global};
use std::rc::Rc;
use std::test::Fail;
use syntax_tree::{NoMemory, Node, Part};

/// Texts with the trees of their items, of which each node is its parts in parentheses.
const TREES: [(&str, &str, &str); 18] = [
    (
        "an else belongs to the inner if",
        "let x = if a then if b then c else d",
        "(let ((x) = (if (a) then (if (b) then (c) else (d)))))",
    ),
    (
        "a bar belongs to the inner match",
        "let x = match a with A -> match b with B -> 1 | C -> 2",
        "(let ((x) = (match (a) with ((A) -> (match (b) with ((B) -> (1)) | ((C) -> (2)))))))",
    ),
    (
        "a semicolon ends a branch",
        "let x = if a then b; c",
        "(let ((x) = ((if (a) then (b)) ; (c))))",
    ),
    (
        "a comma goes on in a branch",
        "let x = if a then b, c",
        "(let ((x) = (if (a) then ((b) , (c)))))",
    ),
    (
        "a minus in front of an operand comes before a sum",
        "let x = - a + b",
        "(let ((x) = ((- (a)) + (b))))",
    ),
    (
        "a minus between two operands is no argument",
        "let x = f - a",
        "(let ((x) = ((f) - (a))))",
    ),
    (
        "differences go on to the left",
        "let x = a - b - c",
        "(let ((x) = (((a) - (b)) - (c))))",
    ),
    (
        "powers go on to the right",
        "let x = a ** b ** c",
        "(let ((x) = ((a) ** ((b) ** (c)))))",
    ),
    (
        "a cons comes before a comma",
        "let x = a :: b, c :: d",
        "(let ((x) = (((a) :: (b)) , ((c) :: (d)))))",
    ),
    (
        "an argument of a type comes before a tuple, and that before an arrow",
        "type t = a * b list -> c",
        "(type ((t) = ((((a) * ((b) list)) -> (c)))))",
    ),
    (
        "an or-pattern is under as",
        "let f (A | B as x) = x",
        "(let ((f) (( (((A) | (B)) as x) )) = (x)))",
    ),
    (
        "a functor's arrow goes on to the right",
        "module type S = functor (X : A) -> functor (Y : B) -> C",
        "(module type S = (functor ( X : (A) ) -> (functor ( Y : (B) ) -> (C))))",
    ),
    (
        "a body of let takes a sequence",
        "let x = let y = 1 in y; z",
        "(let ((x) = (let ((y) = (1)) in ((y) ; (z)))))",
    ),
    (
        "a body of fun takes a tuple",
        "let x = fun a -> a, b",
        "(let ((x) = (fun (a) -> ((a) , (b)))))",
    ),
    (
        "a bar after fun belongs to the function round it",
        "let x = function A -> fun b -> c | D -> e",
        "(let ((x) = (function ((A) -> (fun (b) -> (c))) | ((D) -> (e)))))",
    ),
    (
        "an application comes before a product",
        "let x = f a b + g c * d",
        "(let ((x) = (((f) (a) (b)) + (((g) (c)) * (d)))))",
    ),
    (
        "a prefix comes before fields",
        "let x = f !a.b.c",
        "(let ((x) = ((f) (((! (a)) . b) . c))))",
    ),
    (
        "an assignment of a field is in a sequence",
        "let x = a b; c.d <- e",
        "(let ((x) = (((a) (b)) ; (((c) . d) <- (e)))))",
    ),
];

fn add(out: &mut String, text: &str) -> Result<(), NoMemory> {
    match out.push_str(text) {
        Ok(()) => Ok(()),
        Err(_) => Err(AllocError),
    }
}

/// The parts of a node, in parentheses.
fn draw(node: &Node, out: &mut String) -> Result<(), NoMemory> {
    add(out, "(")?;
    for (index, child) in node.children.iter().enumerate() {
        if index > 0 {
            add(out, " ")?;
        }
        match &child.part {
            Part::Taken(token) => add(out, token.name.as_str())?,
            Part::Inner(inner) => draw(inner, out)?,
            Part::Missing(_) => add(out, "?")?,
        }
    }
    add(out, ")")
}

fn drawing(alloc: Global, items: &[Rc<Node>]) -> Result<String, NoMemory> {
    let mut out = String::new(alloc);
    for item in items {
        draw(item, &mut out)?;
    }
    Ok(out)
}

/// Whether trees are drawn so.
fn are_drawn(alloc: Global, items: &[Rc<Node>], tree: &str) -> bool {
    match drawing(alloc, items) {
        Ok(drawing) => drawing.as_str() == tree,
        Err(_) => false,
    }
}

/// Whether a text has no fault and its items are drawn so.
fn is_drawn(alloc: Global, text: &str, tree: &str) -> bool {
    match parsed(alloc, text) {
        Ok(parsed) => parsed.faults.is_empty() && are_drawn(alloc, &parsed.tree.items, tree),
        Err(_) => false,
    }
}

fn wrong_tree(alloc: Global) -> Option<&'static str> {
    for row in &TREES {
        if !is_drawn(alloc, row.1, row.2) {
            return Some(row.0);
        }
    }
    None
}

#[test]
fn ambiguous_looking_texts_have_one_tree(rt: HostRuntime) -> Result<(), Fail> {
    none_wrong(wrong_tree(rt.alloc()))
}
