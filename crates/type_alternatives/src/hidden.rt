//! The names that no path in scope reaches.
ghost use Rattle.std.specs.Prelude.{◌≡◌, ◌∷◌, [], map, option_map};
ghost use Rattle.text_terms.specs.Bytes.{str_bytes};
ghost use Rattle.type_alternatives.specs.Alternatives.{named_of, outermost_of};
ghost use Rattle.type_alternatives.specs.Templates.{named_in, first_hidden, hidden_among};

use crate::values::{Alternative, PathTo};
use text_terms::RcStr;

/// The name, if no path reaches it.
fn hidden_name(path: &PathTo) -> Option<&RcStr>
    ensures { option_map (λ n. str_bytes n.now) result ≡ first_hidden (named_of path.now ∷ []) }
{
    match path.path {
        None => Some(&path.name),
        Some(_) => None,
    }
}

fn hidden_label(labels: &[PathTo]) -> Option<&RcStr>
    ensures { option_map (λ n. str_bytes n.now) result ≡ first_hidden (map named_of labels.now) }
{
    for label in labels {
        if let Some(name) = hidden_name(label) {
            return Some(name);
        }
    }
    None
}

/// The first name in an alternative that no path reaches.
pub fn hidden_in(alternative: &Alternative) -> Option<&RcStr>
    ensures { option_map (λ n. str_bytes n.now) result ≡ first_hidden (named_in (outermost_of alternative.now)) }
{
    match alternative {
        Alternative::Constructor(path, _) => hidden_name(path),
        Alternative::Record(labels) => hidden_label(labels),
        Alternative::Constant(_) => None,
        Alternative::Cons => None,
        Alternative::Tuple(_) => None,
    }
}

/// The first name in alternatives that no path reaches.
#[tactic(auto, using(crate::proofs::FirstHidden::hidden_here, crate::proofs::FirstHidden::hidden_later))]
pub fn first_hidden(list: &[Alternative]) -> Option<&RcStr>
    ensures { option_map (λ n. str_bytes n.now) result ≡ hidden_among (map outermost_of list.now) }
{
    for alternative in list {
        if let Some(name) = hidden_in(alternative) {
            return Some(name);
        }
    }
    None
}
