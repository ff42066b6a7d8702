//! Pieces that are to be put one after another.
ghost use Rattle.std.specs.Prelude.{◌≡◌, ◌++◌, ◌∷◌, [], IfOk, OnOk, map};

use std::alloc::Global;
use std::marker::Model;
use syntax_tree::NoMemory;

/// A copy of bytes.
pub fn copied(alloc: Global, bytes: &[u8]) -> Result<Vec<u8>, NoMemory>
    ensures { IfOk result (λ v. v.items ≡ bytes.now) }
{
    let mut copy = Vec::new(alloc);
    copy.extend_from_slice(bytes)?;
    Ok(copy)
}

/// Pieces, each of which is put by one `put`, in this order.
#[derive(Drop)]
pub struct Pieces {
    list: Vec<Vec<u8>>,
}

/// Pieces are seen as the bytes of each.
impl Model for Pieces {
    ghost use Rattle.std.specs.Prelude.{List, ℕ, map};

    ghost Value = { List (List ℕ) };

    ghost view = { λ p. map (λ v. v.items) p.list.items };
}

impl Pieces {
    pub fn new(alloc: Global) -> Pieces
        ensures { result ≡ [] }
    {
        Pieces {
            list: Vec::new(alloc),
        }
    }

    pub fn push(&mut self, piece: Vec<u8>) -> Result<(), NoMemory>
        ensures { OnOk result (self.new ≡ self.old ++ piece.items ∷ []) }
    {
        self.list.push(piece)?;
        Ok(())
    }

    /// Adds a copy of a piece.
    pub fn push_copy(&mut self, alloc: Global, piece: &[u8]) -> Result<(), NoMemory>
        ensures { OnOk result (self.new ≡ self.old ++ piece.now ∷ []) }
    {
        self.push(copied(alloc, piece)?)
    }

    /// The pieces, each as a list of bytes.
    pub fn list(&self) -> &[Vec<u8>]
        ensures { map (λ v. v.items) result.now ≡ self.now }
    {
        &self.list
    }
}
