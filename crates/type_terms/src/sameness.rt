//! Equal types.
ghost use Rattle.std.specs.Prelude.{◌≡◌, ◌↔◌, IsTrue, map};
ghost use Rattle.type_model.specs.Types.{types_of};
ghost use Rattle.type_terms.specs.Same.{same, same_all};
ghost use Rattle.type_terms.specs.Views.{type_of};

use crate::types::Ty;

/// Whether two types are equal. Origins are compared by their paths, never by their names.
pub fn same_type(a: &Ty, b: &Ty) -> bool
    ensures equal { IsTrue result ↔ (type_of a.now ≡ type_of b.now) }
    ensures decided { result ≡ same (type_of a.now) (type_of b.now) }
{
    is_same(a, b)
}

#[cycle(same)]
fn is_same(a: &Ty, b: &Ty) -> bool
    ensures { result ≡ same (type_of a.now) (type_of b.now) }
{
    match a {
        Ty::Var(v) => match b {
            Ty::Var(w) => v == w,
            _ => false,
        },
        Ty::Arrow(from, to) => match b {
            Ty::Arrow(other_from, other_to) => is_same(from, other_from) && is_same(to, other_to),
            _ => false,
        },
        Ty::Tuple(parts) => match b {
            Ty::Tuple(others) => are_same(parts, others),
            _ => false,
        },
        Ty::Con(origin, args) => match b {
            Ty::Con(other, others) => origin.path == other.path && are_same(args, others),
            _ => false,
        },
    }
}

#[cycle(same)]
fn are_same(types: &[Ty], others: &[Ty]) -> bool
    ensures { result ≡ same_all (types_of (map type_of types.now)) (types_of (map type_of others.now)) }
{
    if types.len() != others.len() {
        return false;
    }
    for (i, ty) in types.iter().enumerate() {
        if !is_same(ty, &others[i]) {
            return false;
        }
    }
    true
}
