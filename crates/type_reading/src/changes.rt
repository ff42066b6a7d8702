//! What stands in the place of origins.
ghost use Rattle.std.specs.Prelude.{◌≡◌};
ghost use Rattle.signature_model.specs.Changes.{among};
ghost use Rattle.type_reading.specs.Copying.{paths_of, put_of};

use std::alloc::Global;
use type_nodes::{NodeRef, Origin};

/// A type that stands in the place of an origin: over so many arguments the last part of a tuple behind its parameters; over
/// none the type itself, whatever the arguments are.
#[derive(Drop)]
pub struct Real {
    pub origin: Origin,
    pub root: NodeRef,
    pub arity: u32,
}

/// Other paths and types in the place of origins. Where an origin stands among both, the type counts.
#[derive(Drop)]
pub struct Changes {
    /// The origins that get the number in front of their paths.
    pub made: Vec<Origin>,
    pub number: u64,
    /// The first type of an origin counts.
    pub real: Vec<Real>,
}

/// What stands in the place of an origin.
#[derive(Clone, Copy, Drop)]
pub enum Put {
    Itself,
    /// The same with a number in front of its path.
    Path(u64),
    Type { root: NodeRef, arity: u32 },
}

impl Changes {
    /// Nothing changes.
    pub fn none(alloc: Global) -> Changes {
        Changes {
            made: Vec::new(alloc),
            number: 0,
            real: Vec::new(alloc),
        }
    }

    pub fn put(&self, origin: &Origin) -> Put
        ensures { result ≡ put_of self.now origin.now.path.items }
    {
        for real in &self.real {
            if origin.path == real.origin.path {
                return Put::Type {
                    root: real.root,
                    arity: real.arity,
                };
            }
        }
        if is_among(&self.made, origin) {
            Put::Path(self.number)
        } else {
            Put::Itself
        }
    }
}

/// Whether an origin is one of a list.
pub fn is_among(origins: &[Origin], origin: &Origin) -> bool
    ensures { result ≡ among origin.now.path.items (paths_of origins.now) }
{
    for other in origins {
        if origin.path == other.path {
            return true;
        }
    }
    false
}
