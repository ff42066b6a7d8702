//! Entries and origins behind others.
ghost use Rattle.std.specs.Prelude.{◌≡◌, ◌++◌, IfOk, OnOk};
ghost use Rattle.type_terms.specs.Views.{path_of};
ghost use Rattle.sig_template.specs.Structures.{entries_of};
ghost use Rattle.type_reading.specs.Copying.{paths_of};

use env_table::{Entry, Origin};
use owned_lists::{push, shared};
use std::rc::Rc;
use typing_state::{NoMemory, Parts};

/// Adds owners of entries, in order.
pub fn add_entries(list: &mut Vec<Rc<Entry>>, entries: &[Rc<Entry>]) -> Result<(), NoMemory>
    ensures { OnOk result (entries_of list.new.items ≡ entries_of list.old.items ++ entries_of entries.now) }
{
    for entry in entries {
        let entry = shared(entry)?;
        push(list, entry)?;
    }
    Ok(())
}

/// A copy of an origin.
fn copied(at: &Parts, origin: &Origin) -> Result<Origin, NoMemory>
    ensures { IfOk result (λ o. path_of o ≡ path_of origin.now) }
{
    Ok(Origin {
        path: origin.path.to_vec(at.alloc())?,
        name: origin.name.share()?,
    })
}

/// Adds copies of origins, in order.
pub fn add_origins(at: &Parts, makes: &mut Vec<Origin>, more: &[Origin]) -> Result<(), NoMemory>
    ensures { OnOk result (paths_of makes.new.items ≡ paths_of makes.old.items ++ paths_of more.now) }
{
    for origin in more {
        let origin = copied(at, origin)?;
        push(makes, origin)?;
    }
    Ok(())
}
