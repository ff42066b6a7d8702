//! Entries on those before them.
ghost use Rattle.std.specs.Prelude.{◌≡◌, ◌∷◌, IfOk};
ghost use Rattle.env_table.specs.Views.{links_view};

use crate::entries::Entry;
use std::alloc::{AllocError, Global};
use std::rc::Rc;
use text_terms::NoMemory;

/// Entries, the newest first.
pub(crate) type Links = Option<Rc<Link>>;

/// An entry on those before it.
pub(crate) struct Link {
    pub(crate) entry: Rc<Entry>,
    pub(crate) before: Links,
}

// A text may have as many names as tokens, so no call is made for each.
impl Drop for Link {
    fn drop(mut self) {
        loop {
            match self {
                Link { entry: _, before } => match before {
                    None => return,
                    Some(link) => match Rc::into_inner(link) {
                        None => return,
                        Some(rest) => self = rest,
                    },
                },
            }
        }
    }
}

pub(crate) fn linked_before(
    alloc: Global,
    entry: Rc<Entry>,
    before: &Links,
) -> Result<Links, NoMemory>
    ensures { IfOk result (λ r. links_view r ≡ entry.value ∷ links_view before.now) }
{
    let link = Link {
        entry,
        before: share_links(before)?,
    };
    match Rc::new(alloc, link) {
        Ok(link) => Ok(Some(link)),
        Err(_) => Err(AllocError),
    }
}

pub(crate) fn share_links(links: &Links) -> Result<Links, NoMemory>
    ensures { IfOk result (λ r. links_view r ≡ links_view links.now) }
{
    match links {
        None => Ok(None),
        Some(link) => match Rc::clone(link) {
            Ok(link) => Ok(Some(link)),
            Err(_) => Err(AllocError),
        },
    }
}

pub(crate) fn share_entry(entry: &Rc<Entry>) -> Result<Rc<Entry>, NoMemory>
    ensures { IfOk result (λ r. r.value ≡ entry.now.value) }
{
    match Rc::clone(entry) {
        Ok(entry) => Ok(entry),
        Err(_) => Err(AllocError),
    }
}
