//! Entries of the names in scope.
ghost use Rattle.std.specs.Prelude.{◌≡◌, IfOk};

use env_table::{Declaration, Entry, What};
use owned_lists::shared;
use std::rc::Rc;
use type_nodes::NoMemory;

/// One owner more of an entry.
pub fn share_entry(entry: &Rc<Entry>) -> Result<Rc<Entry>, NoMemory>
    ensures { IfOk result (λ e. e.value ≡ entry.now.value) }
{
    shared(entry)
}

/// The declaration behind a type's entry.
pub fn declaration_of(entry: &Entry) -> Option<&Rc<Declaration>> {
    match &entry.what {
        What::Type(declaration) => Some(declaration),
        _ => None,
    }
}
