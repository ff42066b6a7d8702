//! What is put of the open documents without a request: their diagnostics.
ghost use Rattle.std.specs.Prelude.{◌≡◌, ◌∷◌, List, IfOk};
ghost use Rattle.text_terms.specs.Bytes.{str_bytes};
ghost use Rattle.syntax_tree.specs.Tallies.{Grows};
ghost use Rattle.lsp_model.specs.Answers.{Piece};
ghost use Rattle.lsp_positions.specs.Texts.{columns_in};
ghost use Rattle.lsp_front.specs.Sayings.{delivery_in};
ghost use Rattle.lsp_documents.specs.Reports.{RefreshesBy};
ghost use Rattle.lsp_documents.specs.Puts.{Clears, Sends};
ghost use Rattle.lsp_documents.specs.Steps.{bytes_of};

use crate::document::Document;
use crate::lists::refresh_each;
use crate::pieces::Pieces;
use crate::replies::cleared;
use analysis_api::Analyser;
use lsp_front::{Choices, Delivery};
use std::alloc::Global;
use syntax_tree::{Counts, NoMemory, RcStr};

/// A piece, and then the diagnostics of the documents that differ from those put last; those not where an editor asks for
/// them.
pub fn refreshed<A: Analyser, C: Counts>(
    documents: &mut [Document<A>],
    alloc: Global,
    choices: Choices,
    first: Vec<u8>,
    counts: &mut C,
) -> Result<Pieces, NoMemory>
    ensures puts { IfOk result (λ v. (ps : List Piece) × RefreshesBy (delivery_in choices.delivery) (columns_in choices.columns) documents.old ps documents.new × (v ≡ first.items ∷ bytes_of ps)) }
    ensures counted { Grows (C.tallies counts.old) (C.tallies counts.new) }
{
    let mut pieces = Pieces::new(alloc);
    pieces.push(first)?;
    match choices.delivery {
        Delivery::AskedFor => Ok(pieces),
        Delivery::Sent => {
            refresh_each(documents, alloc, choices.columns, &mut pieces, counts)?;
            Ok(pieces)
        }
    }
}

/// The diagnostics of a document, and then those of the others that differ from those put last; nothing where an editor asks
/// for them.
pub fn sends<A: Analyser, C: Counts>(
    documents: &mut [Document<A>],
    document: &mut Document<A>,
    alloc: Global,
    choices: Choices,
    counts: &mut C,
) -> Result<Pieces, NoMemory>
    ensures sends { IfOk result (λ v. (ps : List Piece) × Sends (delivery_in choices.delivery) (columns_in choices.columns) document.old documents.old ps document.new documents.new × (v ≡ bytes_of ps)) }
    ensures counted { Grows (C.tallies counts.old) (C.tallies counts.new) }
{
    match choices.delivery {
        Delivery::AskedFor => Ok(Pieces::new(alloc)),
        Delivery::Sent => {
            let first = document.send(alloc, choices.columns, counts)?;
            refreshed(documents, alloc, choices, first, counts)
        }
    }
}

/// That a closed document has no diagnostics, and then those of the others that differ from those put last; nothing where an
/// editor asks for them.
pub fn clears<A: Analyser, C: Counts>(
    documents: &mut [Document<A>],
    uri: RcStr,
    alloc: Global,
    choices: Choices,
    counts: &mut C,
) -> Result<Pieces, NoMemory>
    ensures clears { IfOk result (λ v. (ps : List Piece) × Clears (delivery_in choices.delivery) (columns_in choices.columns) (str_bytes uri) documents.old ps documents.new × (v ≡ bytes_of ps)) }
    ensures counted { Grows (C.tallies counts.old) (C.tallies counts.new) }
{
    match choices.delivery {
        Delivery::AskedFor => Ok(Pieces::new(alloc)),
        Delivery::Sent => refreshed(documents, alloc, choices, cleared(alloc, uri)?, counts),
    }
}
