//! Why two nodes were not unified.
use type_nodes::{NoMemory, NodeRef};

/// `Cycle`: one of the nodes reads as a free variable that stands inside the other. `Scope`: only the scopes of
/// free variables keep the two apart. `Shape`: every other clash.
#[derive(Clone, Copy, Debug, PartialEq, Eq, Drop)]
pub enum ClashKind {
    Shape,
    Cycle,
    Scope,
}

/// The two nodes that were to have one type, and what keeps them apart.
#[derive(Clone, Copy, Debug, PartialEq, Eq, Drop)]
pub struct Clash {
    pub left: NodeRef,
    pub right: NodeRef,
    pub kind: ClashKind,
}

#[derive(Clone, Copy, Debug, PartialEq, Eq, Drop)]
pub enum UnifyFault {
    Clash(Clash),
    NoMemory,
}

impl From<NoMemory> for UnifyFault {
    ghost use Rattle.std.specs.Prelude.{◌≡◌};
    ghost use Rattle.level_unify.specs.declared.fault.UnifyFault.{UnifyFault};

    ghost from_gives = { λ e r. r ≡ UnifyFault.NoMemory };

    fn from(_: NoMemory) -> UnifyFault
        ensures { result ≡ UnifyFault.NoMemory }
    {
        UnifyFault::NoMemory
    }
}
