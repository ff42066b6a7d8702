//! Environments: immutable lists of entries that share their ends.
ghost use Rattle.std.specs.Prelude.{◌≡◌, ◌∷◌, ◌++◌, [], List, option_map, IfOk};
ghost use Rattle.type_terms.specs.Views.{path_of};
ghost use Rattle.std.specs.List.{filter};
ghost use Rattle.signature_model.specs.Lookups.{newest_by};
ghost use Rattle.std.specs.Coded.{codes};
ghost use Rattle.env_table.specs.contracts.entries.What as what;
ghost use Rattle.env_table.specs.declared.entries.Entry.{Entry};
ghost use Rattle.env_table.specs.Views.{links_view, newest_first, names_of, names_in, inside_sig, is_named, kind_of};
ghost use Rattle.env_table.specs.Index.{bits_of, hash_of, stands_at, named_key, origin_key, IsIndex, makers};

use crate::entries::{Entry, Kind, Sig};
use crate::index::{self, BITS, Index, bucket, hash, with_maker, with_named};
use crate::links::{Links, linked_before, share_entry, share_links};
use crate::origins::origin_hash;
use crate::walk::{Entries, linked};
use std::alloc::Global;
use std::marker::Model;
use std::rc::Rc;
use text_terms::NoMemory;
use type_nodes::Origin;

/// The names in scope. It is never written: a call that adds a name makes a new one, which shares its entries.
#[derive(Drop)]
pub struct Env {
    links: Links,
    /// The same entries by their kinds and names.
    index: Index,
    /// Those of them that make an origin, by its path.
    origins: Index,
}

impl Model for Env {
    /// The entries, the newest first.
    ghost Value = { List Entry };

    ghost coded = { Prim.hlevel (codes, what.the_row.coded) };

    ghost view = { λ e. links_view e.links };

    ghost invariant = { λ e. IsIndex named_key e.index e.links × IsIndex origin_key e.origins e.links };
}

impl Env {
    /// No name.
    pub fn empty() -> Env
        ensures { result ≡ [] }
    {
        Env {
            links: None,
            index: None,
            origins: None,
        }
    }

    /// One owner more of the same entries.
    pub fn share(&self) -> Result<Env, NoMemory>
        ensures { IfOk result (λ r. r ≡ self.now) }
    {
        Ok(Env {
            links: share_links(&self.links)?,
            index: index::share(&self.index)?,
            origins: index::share(&self.origins)?,
        })
    }

    /// The same names and a newer one.
    pub fn add(&self, alloc: Global, entry: Rc<Entry>) -> Result<Env, NoMemory>
        ensures { IfOk result (λ r. r ≡ entry.value ∷ self.now) }
    {
        let index = with_named(alloc, &self.index, &entry)?;
        let origins = with_maker(alloc, &self.origins, &entry)?;
        Ok(Env {
            links: linked_before(alloc, entry, &self.links)?,
            index,
            origins,
        })
    }

    /// The same names and those inside a module, of which the newest component is the newest. A functor and a module that isn't
    /// known add nothing.
    pub fn open_module(&self, alloc: Global, sig: &Sig) -> Result<Env, NoMemory>
        ensures { IfOk result (λ r. r ≡ names_in (inside_sig sig.now) ++ self.now) }
    {
        match sig {
            Sig::Structure(components) => self.add_all(alloc, &components.entries),
            Sig::Functor(_, _) => self.share(),
            Sig::Hole => self.share(),
        }
    }

    /// The same names and newer ones, the newest of which is the last.
    fn add_all(&self, alloc: Global, entries: &[Rc<Entry>]) -> Result<Env, NoMemory>
        ensures { IfOk result (λ r. r ≡ newest_first entries.now ++ self.now) }
    {
        let mut env = self.share()?;
        for entry in entries {
            env = env.add(alloc, share_entry(entry)?)?;
        }
        Ok(env)
    }

    /// The newest entry of a kind and a name.
    #[tactic(auto, using(crate::proofs::Newest::newest_named))]
    pub fn newest(&self, kind: Kind, name: &str) -> Option<&Rc<Entry>>
        ensures { option_map (λ e. e.now.value) result ≡ newest_by (is_named (kind_of kind) name.now) self.now }
    {
        self.with_hash(kind, name).newest(kind, name)
    }

    /// All entries, the newest first.
    pub fn entries(&self) -> Entries<'_>
        ensures { names_of result ≡ self.now }
    {
        linked(&self.links)
    }

    /// The entries that may make an origin, the newest first: all that make it are among them.
    pub fn makers(&self, origin: &Origin) -> Entries<'_>
        ensures { names_of result ≡ makers (path_of origin.now) self.now }
    {
        bucket(&self.origins, BITS, origin_hash(origin))
    }

    /// The entries with the hash of a kind and a name, the newest first: all of this kind and name are among them.
    pub fn with_hash(&self, kind: Kind, name: &str) -> Entries<'_>
        ensures { names_of result ≡ filter (stands_at (bits_of 16 (hash_of (kind_of kind) name.now))) self.now }
    {
        bucket(&self.index, BITS, hash(kind, name))
    }
}
