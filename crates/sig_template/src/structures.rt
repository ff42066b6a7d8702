//! Structures: of the values of one name, and of the exceptions of one name, the newest alone.
ghost use Rattle.std.specs.Prelude.{◌≡◌, ◌∷◌, ◌||◌, IfOk, OnOk, List, ℕ, reverse};
ghost use Rattle.std.specs.Str.{bytes_eq};
ghost use Rattle.std.specs.HashSet.{contains_text};
ghost use Rattle.text_terms.specs.Bytes.{str_bytes};
ghost use Rattle.env_table.specs.declared.entries.Entry.{Entry};
ghost use Rattle.env_table.specs.Views.{inside_sig, names_in};
ghost use Rattle.sig_template.specs.Structures.{is_replaced, newest_alone, AreMet, entries_of, IsStructureOf};

use env_table::{Components, Entry, Sig, What};
use owned_lists::{owned, push, shared};
use std::alloc::{AllocError, Global};
use std::collections::HashSet;
use std::rc::Rc;
use text_terms::RcStr;
use typing_state::NoMemory;

/// The names that were met, by the kind of what they stand for.
#[derive(Drop)]
struct Met {
    values: HashSet<String>,
    exceptions: HashSet<String>,
}

/// Whether a name was met before. It is met then.
fn is_met(alloc: Global, names: &mut HashSet<String>, name: &RcStr) -> Result<bool, NoMemory>
    ensures before { IfOk result (λ before. before ≡ contains_text names.old (str_bytes name.now)) }
    ensures after { OnOk result ((n : List ℕ) → contains_text names.new n ≡ (bytes_eq (str_bytes name.now) n || contains_text names.old n)) }
{
    let Ok(key) = String::from_str(alloc, name.as_str()) else {
        return Err(AllocError);
    };
    let Ok(added) = names.insert(key) else {
        return Err(AllocError);
    };
    Ok(!added)
}

impl Met {
    /// Whether an entry is a value or an exception, and one of its name was met before. It is met then.
    fn is_older(&mut self, alloc: Global, entry: &Entry) -> Result<bool, NoMemory>
        ensures older { IfOk result (λ older. (newer : List Entry) → AreMet self.old newer → older ≡ is_replaced entry.now newer) }
        ensures met { OnOk result ((newer : List Entry) → AreMet self.old newer → AreMet self.new (entry.now ∷ newer)) }
    {
        match &entry.what {
            What::Scheme(_) => is_met(alloc, &mut self.values, &entry.name),
            What::Exception(_) => is_met(alloc, &mut self.exceptions, &entry.name),
            What::Constructor(_, _) => Ok(false),
            What::Label(_, _) => Ok(false),
            What::Type(_) => Ok(false),
            What::Module(_) => Ok(false),
            What::ModuleType(_) => Ok(false),
        }
    }
}

/// The components of a structure: of the values and of the exceptions of one name the newest alone.
pub fn newest_alone(alloc: Global, entries: &[Rc<Entry>]) -> Result<Vec<Rc<Entry>>, NoMemory>
    ensures { IfOk result (λ kept. entries_of kept.items ≡ newest_alone (entries_of entries.now)) }
{
    let mut met = Met {
        values: HashSet::new(alloc),
        exceptions: HashSet::new(alloc),
    };
    let mut kept = Vec::new(alloc);
    let mut rest = entries;
    while let Some((entry, older)) = rest.split_last() {
        if !met.is_older(alloc, entry)? {
            push(&mut kept, shared(entry)?)?;
        }
        rest = older;
    }
    kept.reverse();
    Ok(kept)
}

/// The signature of a structure with these components, in order.
pub fn structure(alloc: Global, entries: &[Rc<Entry>]) -> Result<Rc<Sig>, NoMemory>
    ensures names { IfOk result (λ s. names_in (inside_sig s.value) ≡ reverse (newest_alone (entries_of entries.now))) }
    ensures is { IfOk result (λ s. IsStructureOf s.value (newest_alone (entries_of entries.now))) }
{
    let entries = newest_alone(alloc, entries)?;
    owned(alloc, Sig::Structure(Components { entries }))
}
