//! The indexes of an environment: its entries by their kinds and names, and by the origins that they make.
ghost use Rattle.std.specs.Prelude.{◌≡◌, ◌<◌, IfOk, List, Bool};
ghost use Rattle.env_table.specs.Views.{names_of, kind_of};
ghost use Rattle.env_table.specs.Index.{code_of, hash_from, hash_of, bits_of, index_at, fork_at, Adds, AddsBy, named_key, origin_key};

use crate::entries::{Entry, Kind};
use crate::links::{Links, linked_before, share_entry, share_links};
use crate::origins::origin_hash;
use crate::walk::{Entries, linked, nothing};
use std::alloc::{AllocError, Global};
use std::rc::Rc;
use text_terms::NoMemory;

/// How many bits a hash has.
pub(crate) const BITS: u32 = 16;

/// A tree over the bits of hashes, the lowest first.
pub(crate) type Index = Option<Rc<Fork>>;

/// The entries whose hash ends here, the newest first, and those that go on with an even or an odd bit.
#[derive(Drop)]
pub(crate) struct Fork {
    bucket: Links,
    even: Index,
    odd: Index,
}

/// A number below 2^16 for a kind and a name.
pub(crate) fn hash(kind: Kind, name: &str) -> u32
    ensures { result ≡ hash_of (kind_of kind) name.now }
{
    let mut hash = code(kind);
    for byte in name.as_bytes() {
        hash = (hash * 403 + *byte as u32) % 65536;
    }
    hash
}

fn code(kind: Kind) -> u32
    ensures { result ≡ code_of (kind_of kind) }
{
    match kind {
        Kind::Value => 0,
        Kind::Constructor => 1,
        Kind::Label => 2,
        Kind::TypeName => 3,
        Kind::Module => 4,
        Kind::ModuleType => 5,
    }
}

/// An index by kinds and names with one entry more, the newest.
pub(crate) fn with_named(alloc: Global, index: &Index, entry: &Rc<Entry>) -> Result<Index, NoMemory>
    ensures { IfOk result (λ after. AddsBy named_key (index_at index.now) entry.now.value (index_at after)) }
{
    let hash = hash(entry.kind, entry.name.as_str());
    with(alloc, index, BITS, hash, share_entry(entry)?)
}

/// An index by origins with one entry more, the newest; as it is where the entry makes none.
pub(crate) fn with_maker(alloc: Global, index: &Index, entry: &Rc<Entry>) -> Result<Index, NoMemory>
    ensures { IfOk result (λ after. AddsBy origin_key (index_at index.now) entry.now.value (index_at after)) }
{
    match entry.makes() {
        None => share(index),
        Some(origin) => with(alloc, index, BITS, origin_hash(origin), share_entry(entry)?),
    }
}

/// The entries behind so many bits of a hash.
#[cycle(bucket)]
pub(crate) fn bucket(index: &Index, bits: u32, hash: u32) -> Entries<'_>
    ensures { names_of result ≡ index_at index.now (bits_of bits hash) }
{
    match index {
        None => nothing(),
        Some(fork) => bucket_of(fork, bits, hash),
    }
}

#[cycle(bucket)]
fn bucket_of(fork: &Fork, bits: u32, hash: u32) -> Entries<'_>
    ensures { names_of result ≡ fork_at fork.now (bits_of bits hash) }
{
    if bits == 0 {
        linked(&fork.bucket)
    } else if hash % 2 == 1 {
        bucket(&fork.odd, bits - 1, hash / 2)
    } else {
        bucket(&fork.even, bits - 1, hash / 2)
    }
}

/// An index with one entry more behind these bits, the newest there.
#[cycle(with)]
pub(crate) fn with(
    alloc: Global,
    index: &Index,
    bits: u32,
    hash: u32,
    entry: Rc<Entry>,
) -> Result<Index, NoMemory>
    ensures { IfOk result (λ after. Adds (index_at index.now) (bits_of bits hash) entry.value (index_at after)) }
{
    let fork = added(alloc, copied(index)?, bits, hash, entry)?;
    match Rc::new(alloc, fork) {
        Ok(fork) => Ok(Some(fork)),
        Err(_) => Err(AllocError),
    }
}

#[cycle(with)]
fn added(
    alloc: Global,
    fork: Fork,
    bits: u32,
    hash: u32,
    entry: Rc<Entry>,
) -> Result<Fork, NoMemory>
    ensures { IfOk result (λ after. Adds (fork_at fork) (bits_of bits hash) entry.value (fork_at after)) }
{
    let Fork { bucket, even, odd } = fork;
    if bits == 0 {
        let bucket = linked_before(alloc, entry, &bucket)?;
        Ok(Fork { bucket, even, odd })
    } else if hash % 2 == 1 {
        let odd = with(alloc, &odd, bits - 1, hash / 2, entry)?;
        Ok(Fork { bucket, even, odd })
    } else {
        let even = with(alloc, &even, bits - 1, hash / 2, entry)?;
        Ok(Fork { bucket, even, odd })
    }
}

fn copied(index: &Index) -> Result<Fork, NoMemory>
    ensures { IfOk result (λ f. (ks : List Bool) → fork_at f ks ≡ index_at index.now ks) }
{
    match index {
        None => Ok(Fork {
            bucket: None,
            even: None,
            odd: None,
        }),
        Some(fork) => copied_fork(fork),
    }
}

fn copied_fork(fork: &Fork) -> Result<Fork, NoMemory>
    ensures { IfOk result (λ f. (ks : List Bool) → fork_at f ks ≡ fork_at fork.now ks) }
{
    Ok(Fork {
        bucket: share_links(&fork.bucket)?,
        even: share(&fork.even)?,
        odd: share(&fork.odd)?,
    })
}

pub(crate) fn share(index: &Index) -> Result<Index, NoMemory>
    ensures { IfOk result (λ i. (ks : List Bool) → index_at i ks ≡ index_at index.now ks) }
{
    match index {
        None => Ok(None),
        Some(fork) => match Rc::clone(fork) {
            Ok(fork) => Ok(Some(fork)),
            Err(_) => Err(AllocError),
        },
    }
}
