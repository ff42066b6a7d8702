//! Lists of open documents.
ghost use Rattle.std.specs.Prelude.{◌≡◌, ◌++◌, ◌<◌, List, length, map, IfSome, OnOk};
ghost use Rattle.syntax_tree.specs.Tallies.{Grows};
ghost use Rattle.lsp_model.specs.Answers.{Piece};
ghost use Rattle.lsp_positions.specs.Texts.{columns_in};
ghost use Rattle.lsp_documents.specs.States.{place_in, read_count};
ghost use Rattle.lsp_documents.specs.Reports.{RefreshesAll};
ghost use Rattle.lsp_documents.specs.Puts.{document_lost};
ghost use Rattle.lsp_documents.specs.Steps.{bytes_of};

use crate::document::Document;
use crate::pieces::Pieces;
use analysis_api::Analyser;
use lsp_positions::Columns;
use std::alloc::Global;
use syntax_tree::{Counts, NoMemory};

/// Where a document is among the open ones.
pub fn place_of<A: Analyser>(documents: &[Document<A>], uri: &str) -> Option<usize>
    ensures value { result ≡ place_in documents.now uri.now }
    ensures within { IfSome result (λ n. n < length documents.now) }
{
    for at in 0..documents.len() {
        if documents[at].uri().is(uri) {
            return Some(at);
        }
    }
    None
}

/// How many documents are read.
pub fn count_read<A: Analyser>(documents: &[Document<A>]) -> usize
    ensures { result ≡ read_count documents.now }
{
    let mut count = 0;
    for document in documents {
        if document.text().is_some() {
            count += 1;
        }
    }
    count
}

/// Puts the diagnostics of each document that differ from those put last.
pub fn refresh_each<A: Analyser, C: Counts>(
    documents: &mut [Document<A>],
    alloc: Global,
    by: Columns,
    pieces: &mut Pieces,
    counts: &mut C,
) -> Result<(), NoMemory>
    ensures puts { OnOk result ((ps : List Piece) × RefreshesAll (columns_in by) documents.old ps documents.new × (pieces.new ≡ pieces.old ++ bytes_of ps)) }
    ensures counted { Grows (C.tallies counts.old) (C.tallies counts.new) }
{
    for at in 0..documents.len() {
        documents[at].refresh(alloc, by, pieces, counts)?;
    }
    Ok(())
}

/// Lets the text of each document go.
pub fn lose_each<A: Analyser>(documents: &mut [Document<A>], alloc: Global)
    ensures { documents.new ≡ map document_lost documents.old }
{
    for at in 0..documents.len() {
        documents[at].lose(alloc);
    }
}
