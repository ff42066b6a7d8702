//! Lists that grow and values with many owners, where want of memory is `NoMemory`.
//! It stands on `text_terms` alone, whose `NoMemory` it passes on.
//! Above, a contract sees a list as its items: `push` puts a value behind the others, and nothing else changes it; a value that
//! is shared is the same value.
#![tactic(auto)]

ghost use Rattle.std.specs.Prelude.{◌≡◌, ◌++◌, ◌∷◌, [], IfOk, OnOk, OnErr};

use std::alloc::{AllocError, Global};
use std::rc::Rc;
pub use text_terms::NoMemory;

/// Puts a value behind the others. After `NoMemory` the list is as before.
pub fn push<T: Drop>(list: &mut Vec<T>, value: T) -> Result<(), NoMemory>
    ensures pushed { OnOk result (list.new.items ≡ list.old.items ++ value ∷ []) }
    ensures failed { OnErr result (list.new.items ≡ list.old.items) }
{
    match list.push(value) {
        Ok(()) => Ok(()),
        Err(_) => Err(AllocError),
    }
}

/// The first owner of a value.
pub fn owned<T: Drop>(alloc: Global, value: T) -> Result<Rc<T>, NoMemory>
    ensures { IfOk result (λ r. r.value ≡ value) }
{
    match Rc::new(alloc, value) {
        Ok(owner) => Ok(owner),
        Err(_) => Err(AllocError),
    }
}

/// One owner more of a value.
pub fn shared<T: Drop>(owner: &Rc<T>) -> Result<Rc<T>, NoMemory>
    ensures { IfOk result (λ r. r.value ≡ owner.now.value) }
{
    match Rc::clone(owner) {
        Ok(owner) => Ok(owner),
        Err(_) => Err(AllocError),
    }
}
