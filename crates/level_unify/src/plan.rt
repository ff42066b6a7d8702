//! What makes two roots one, as far as they alone tell.
ghost use Rattle.std.specs.Prelude.{◌≡◌, ◌↔◌, true, IsTrue, slice_index_or};
ghost use Rattle.type_nodes.specs.Nodes.{Node};
ghost use Rattle.level_unify.specs.Plans.{IsFreeVar, IsOrdinary, SameHead, Plans, Views};

use crate::levels::BOUND;
use type_nodes::{Origin, View};

/// Below the roots the parts are left: they are made one in pairs.
#[derive(Clone, Copy, Drop)]
pub enum Plan {
    BindLeft,
    BindRight,
    LinkParts,
    Clash,
}

pub fn is_free(view: &View<'_>) -> bool
    ensures { (c : Node) → Views view.now c → IsTrue result ↔ IsFreeVar c }
{
    match view {
        View::Var { level, .. } => *level != BOUND,
        _ => false,
    }
}

fn is_path_of(origin: &Origin, other: &Origin) -> bool
    ensures { IsTrue result ↔ (origin.now.path.items ≡ other.now.path.items) }
{
    origin.path == other.path
}

// Whether two composites have one head and as many parts.
fn same_head(left: &View<'_>, right: &View<'_>) -> bool
    ensures { (c d : Node) → Views left.now c → Views right.now d → IsTrue result ↔ SameHead c d }
{
    match left {
        View::Arrow(_, _) => match right {
            View::Arrow(_, _) => true,
            _ => false,
        },
        View::Tuple(parts) => match right {
            View::Tuple(others) => parts.len() == others.len(),
            _ => false,
        },
        View::Con(origin, args) => match right {
            View::Con(other, others) => is_path_of(origin, other) && args.len() == others.len(),
            _ => false,
        },
        _ => false,
    }
}

fn first_number(origin: &Origin) -> u64
    ensures { result ≡ slice_index_or origin.now.path.items 0 0 }
{
    if origin.path.len() == 0 {
        0
    } else {
        origin.path[0]
    }
}

// An origin's numbers are below those that tell rigid variables in the model: so no rigid variable is a constructor.
fn is_ordinary(view: &View<'_>) -> bool
    ensures yes { result ≡ true }
    ensures ordinary { (c : Node) → Views view.now c → IsOrdinary c }
{
    match view {
        View::Con(origin, _) => first_number(origin) <= u64::MAX,
        _ => true,
    }
}

/// For two different roots.
pub fn plan_for(left: &View<'_>, right: &View<'_>) -> Plan
    ensures { (c d : Node) → Views left.now c → Views right.now d → Plans c d result }
{
    if is_free(left) {
        Plan::BindLeft
    } else if is_free(right) {
        Plan::BindRight
    } else if same_head(left, right) {
        Plan::LinkParts
    } else {
        prove!(is_ordinary(left));
        prove!(is_ordinary(right));
        Plan::Clash
    }
}
