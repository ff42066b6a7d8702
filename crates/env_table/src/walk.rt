//! Entries one after another, without a copy.
ghost use Rattle.std.specs.Prelude.{◌≡◌, ◌∷◌, [], option_map, IfSome, IfNone};
ghost use Rattle.signature_model.specs.Lookups.{newest_by, same_kind};
ghost use Rattle.env_table.specs.Views.{links_view, newest_first, names_of, names_in, inside_sig, is_named, kind_of};

use crate::entries::{Entry, Kind, Sig};
use crate::links::{Link, Links};
use std::rc::Rc;

/// Entries that are still to be seen, the newest first.
#[derive(Clone, Copy)]
pub struct Entries<'a> {
    pub(crate) rest: Rest<'a>,
}

#[derive(Clone, Copy)]
pub(crate) enum Rest<'a> {
    Nothing,
    Link(&'a Link),
    /// Components, the oldest first.
    Components(&'a [Rc<Entry>]),
}

impl<'a> Entries<'a> {
    /// No entry.
    pub fn none() -> Entries<'a>
        ensures { names_of result ≡ [] }
    {
        nothing()
    }

    /// The newest of these entries, and the others; None where there is none.
    pub fn split_first(self) -> Option<(&'a Rc<Entry>, Entries<'a>)>
        ensures some { IfSome result (λ p. names_of self.entry ≡ p.0.now.value ∷ names_of p.1) }
        ensures none { IfNone result (names_of self.entry ≡ []) }
    {
        match self.rest {
            Rest::Nothing => None,
            Rest::Link(link) => Some((&link.entry, linked(&link.before))),
            Rest::Components(entries) => match entries.split_last() {
                None => None,
                Some((entry, older)) => Some((entry, of_components(older))),
            },
        }
    }

    /// The newest of these entries that has a kind and a name.
    pub fn newest(self, kind: Kind, name: &str) -> Option<&'a Rc<Entry>>
        ensures { option_map (λ e. e.now.value) result ≡ newest_by (is_named (kind_of kind) name.now) (names_of self.entry) }
    {
        let mut rest = self;
        while let Some((entry, older)) = rest.split_first() {
            if is_named(entry, kind, name) {
                return Some(entry);
            }
            rest = older;
        }
        None
    }
}

impl Sig {
    /// What stands inside a module: the components of a structure. In a functor and in a module that isn't known nothing does.
    pub fn entries(&self) -> Entries<'_>
        ensures { names_of result ≡ names_in (inside_sig self.now) }
    {
        match self {
            Sig::Structure(components) => of_components(&components.entries),
            Sig::Functor(_, _) => nothing(),
            Sig::Hole => nothing(),
        }
    }
}

pub(crate) fn linked(links: &Links) -> Entries<'_>
    ensures { names_of result ≡ links_view links.now }
{
    match links {
        None => nothing(),
        Some(link) => Entries {
            rest: Rest::Link(link),
        },
    }
}

pub(crate) fn nothing<'a>() -> Entries<'a>
    ensures { names_of result ≡ [] }
{
    Entries {
        rest: Rest::Nothing,
    }
}

pub(crate) fn of_components(entries: &[Rc<Entry>]) -> Entries<'_>
    ensures { names_of result ≡ newest_first entries.now }
{
    Entries {
        rest: Rest::Components(entries),
    }
}

pub(crate) fn is_named(entry: &Entry, kind: Kind, name: &str) -> bool
    ensures { result ≡ is_named (kind_of kind) name.now entry.now }
{
    same_kind(kind, entry.kind) && entry.name.is(name)
}

fn same_kind(a: Kind, b: Kind) -> bool
    ensures { result ≡ same_kind (kind_of a) (kind_of b) }
{
    a == b
}
