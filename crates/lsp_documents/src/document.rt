//! An open document: its text, its changes and its diagnostics.
ghost use Rattle.std.specs.Prelude.{◌≡◌, ◌++◌, ◌∷◌, [], ℕ, List, map, option_map, true, IfOk, OnOk, None};
ghost use Rattle.text_terms.specs.Bytes.{str_bytes};
ghost use Rattle.json_lines.specs.Meets.{range_of as range_told};
ghost use Rattle.service_model.specs.Answers.{tell_outcome};
ghost use Rattle.syntax_tree.specs.Tallies.{Grows};
ghost use Rattle.lsp_model.specs.Answers.{Piece, bytes_put};
ghost use Rattle.lsp_positions.specs.Texts.{columns_in};
ghost use Rattle.lsp_front.specs.Sayings as says;
ghost use Rattle.lsp_answers.specs.Puts as puts;
ghost use Rattle.lsp_documents.specs.States as state;
ghost use Rattle.lsp_documents.specs.States.{text_of, with_content, with_shown};
ghost use Rattle.lsp_documents.specs.Puts.{document_lost};
ghost use Rattle.lsp_documents.specs.Changes.{content_behind, content_behind_all, edited, ends_of as ends_of_spec, opened_content, with_room as with_room_spec};
ghost use Rattle.lsp_documents.specs.Reports.{unread_diagnostic, unread_text, ContentDiagnostics, IsReport, Refreshes};
ghost use Rattle.lsp_documents.specs.Freshness.{IsShown};
ghost use Rattle.lsp_documents.specs.Steps.{bytes_of};
ghost use Rattle.lsp_documents.specs.Views.{content_of, is_free, unread_of};

use crate::pieces::{Pieces, copied};
use analysis_api::Analyser;
use lsp_answers::{Answer, Diagnostic, Severity, write_answer};
use lsp_front::{Change, Position, Range};
use lsp_positions::Columns;
use lsp_queries::{diagnostics_in, span_asked};
use session::Session;
use std::alloc::{AllocError, Global};
use std::marker::Model;
use syntax_tree::{Counts, NoMemory, Pos, RcStr};
use text_store::TextRefusal;

/// Why a document has no text.
#[derive(Clone, Copy)]
pub enum Unread {
    /// The text has more than 1,048,576 bytes.
    TooLarge,
    /// Too many others are read.
    TooMany,
    /// A message was passed over, which may have been a change of it.
    PassedOver,
}

impl Unread {
    /// The message that an editor shows of it.
    fn message(self) -> &'static str
        ensures { result.now ≡ unread_text (unread_of self) }
    {
        match self {
            Unread::TooLarge => "This document has more than 1048576 bytes and is not read",
            Unread::TooMany => "Too many documents are open; this one is not read",
            Unread::PassedOver => "A message was too long; open this document anew",
        }
    }
}

/// Whether one more document may be read.
#[derive(Clone, Copy)]
pub enum Room {
    Free,
    Full,
}

/// The one diagnostic of a document that isn't read.
fn unread_list(alloc: Global, why: Unread) -> Result<Vec<Diagnostic>, NoMemory>
    ensures { IfOk result (λ v. map puts.diagnostic_of v.items ≡ unread_diagnostic (unread_of why) ∷ []) }
{
    let start = Position {
        line: 0,
        character: 0,
    };
    let end = Position {
        line: 0,
        character: 1,
    };
    let mut list = Vec::new(alloc);
    list.push(Diagnostic {
        kind: None,
        message: RcStr::from_str(alloc, why.message())?,
        range: Range { start, end },
        severity: Severity::Error,
    })?;
    Ok(list)
}

/// The positions of the session for the ends of an editor's range.
fn ends_of<A: Analyser>(session: &Session<A>, range: Range, by: Columns) -> (Pos, Pos)
    ensures { range_told result ≡ ends_of_spec (columns_in by) session.now.text (says.range_of range) }
{
    let span = span_asked(session, range, by);
    (session.pos_of(span.start), session.pos_of(span.end))
}

/// The positions of the session for the ends of a range that may be none.
fn ends_in<A: Analyser>(
    session: &Session<A>,
    range: Option<Range>,
    by: Columns,
) -> Option<(Pos, Pos)>
    ensures { option_map range_told result ≡ option_map (ends_of_spec (columns_in by) session.now.text) (option_map says.range_of range) }
{
    match range {
        Some(range) => Some(ends_of(session, range, by)),
        None => None,
    }
}

/// Makes an edit of the text of a document that is read, and gives why it isn't read from then on. One that is refused for
/// another cause than its length changes nothing; no position of an editor is.
fn edit<A: Analyser>(
    session: &mut Session<A>,
    range: Option<(Pos, Pos)>,
    text: RcStr,
) -> Result<Option<Unread>, NoMemory>
    ensures { IfOk result (λ why. content_of why session.new.text ≡ edited (state.read session.old.text) (tell_outcome session.old.text (option_map range_told range) (str_bytes text))) }
{
    match session.change(range, text) {
        Ok(()) => Ok(None),
        Err(TextRefusal::TextTooLong { .. }) => Ok(Some(Unread::TooLarge)),
        Err(TextRefusal::NoMemory) => Err(AllocError),
        Err(_) => Ok(None),
    }
}

/// Lets the text of a session go, with all that is kept of it.
fn let_go<A: Analyser>(session: &mut Session<A>, alloc: Global)
    ensures { session.new.text ≡ [] }
{
    *session = Session::<A>::new(alloc);
}

/// Why a document isn't read, where there may be no room for one more.
fn with_room(why: Option<Unread>, room: Room) -> Option<Unread>
    ensures { (text : List ℕ) → content_of result text ≡ with_room_spec (is_free room) (content_of why text) }
{
    match (why, room) {
        (None, Room::Full) => Some(Unread::TooMany),
        _ => why,
    }
}

/// An open document. Each is by itself: no name of one is seen in another.
#[derive(Drop)]
pub struct Document<A: Analyser> {
    uri: RcStr,
    version: Option<i32>,
    // why it isn't read; then its session isn't looked at
    why: Option<Unread>,
    session: Session<A>,
    // the bytes of the diagnostics that were put last; none where nothing was put
    sent: Vec<u8>,
    // the columns by which these are its diagnostics still; none where they may be others by now
    fresh: Option<Columns>,
}

/// A document is seen as its name, its version, its content, and what was put last of its diagnostics.
impl<A: Analyser> Model for Document<A> {
    ghost use Rattle.text_terms.specs.Bytes.{str_bytes};
    ghost use Rattle.lsp_documents.specs.States as state;
    ghost use Rattle.lsp_documents.specs.Freshness.{IsFresh};
    ghost use Rattle.lsp_documents.specs.Views.{content_of};

    ghost Value = { state.Document };

    ghost view = { λ d. record { uri = str_bytes d.uri; version = d.version; content = content_of d.why d.session.text; shown = d.sent.items } };

    ghost invariant = { λ d. IsFresh d.fresh (record { uri = str_bytes d.uri; version = d.version; content = content_of d.why d.session.text; shown = d.sent.items }) };
}

impl<A: Analyser> Document<A> {
    /// A document with this text, where there is room for one more that is read.
    pub fn opened(
        alloc: Global,
        uri: RcStr,
        version: Option<i32>,
        text: RcStr,
        room: Room,
    ) -> Result<Document<A>, NoMemory>
        ensures { IfOk result (λ d. d ≡ record { uri = str_bytes uri; version = version; content = opened_content (is_free room) (str_bytes text); shown = [] }) }
    {
        let mut session = Session::<A>::new(alloc);
        let why = edit(&mut session, None, text)?;
        Ok(Document {
            uri,
            version,
            why: with_room(why, room),
            session,
            sent: Vec::new(alloc),
            fresh: None,
        })
    }

    /// Its name.
    pub fn uri(&self) -> &RcStr
        ensures { str_bytes result.now ≡ self.now.uri }
    {
        &self.uri
    }

    /// Its text, where it is read.
    pub fn text(&self) -> Option<&Session<A>>
        ensures { option_map (λ s. s.now.text) result ≡ text_of self.now.content }
    {
        match self.why {
            Some(_) => None,
            None => Some(&self.session),
        }
    }

    /// Reads it again by a whole text.
    fn read_again(&mut self, alloc: Global, text: RcStr, room: Room) -> Result<(), NoMemory>
        ensures { OnOk result (self.new ≡ with_content self.old (opened_content (is_free room) (str_bytes text))) }
    {
        self.fresh = None;
        let mut session = Session::<A>::new(alloc);
        let why = edit(&mut session, None, text)?;
        self.why = with_room(why, room);
        self.session = session;
        Ok(())
    }

    /// Makes a change.
    fn change(
        &mut self,
        alloc: Global,
        range: Option<Range>,
        text: RcStr,
        by: Columns,
        room: Room,
    ) -> Result<(), NoMemory>
        ensures { OnOk result (self.new ≡ with_content self.old (content_behind (columns_in by) (is_free room) self.old.content (record { range = option_map says.range_of range; text = str_bytes text }))) }
    {
        self.fresh = None;
        match (self.why, range) {
            (None, range) => {
                let ends = ends_in(&self.session, range, by);
                self.why = edit(&mut self.session, ends, text)?;
                Ok(())
            }
            (Some(_), Some(_)) => Ok(()),
            (Some(Unread::TooMany), None) => Ok(()),
            (Some(_), None) => self.read_again(alloc, text, room),
        }
    }

    /// Makes the changes of a message, one after another, and takes the version that they come with.
    pub fn change_all(
        &mut self,
        alloc: Global,
        changes: &[Change],
        version: Option<i32>,
        by: Columns,
        room: Room,
    ) -> Result<(), NoMemory>
        ensures { OnOk result (self.new ≡ record { uri = self.old.uri; version = version; content = content_behind_all (columns_in by) (is_free room) self.old.content (map says.change_of changes.now); shown = self.old.shown }) }
    {
        self.fresh = None;
        self.version = version;
        for change in changes {
            self.change(alloc, change.range, change.text.share()?, by, room)?;
        }
        Ok(())
    }

    /// Lets the text go, since a change of it may be lost. One of too many documents stays that.
    pub fn lose(&mut self, alloc: Global)
        ensures { self.new ≡ document_lost self.old }
    {
        match self.why {
            Some(Unread::TooMany) => {}
            _ => {
                self.fresh = None;
                self.why = Some(Unread::PassedOver);
                let_go(&mut self.session, alloc);
            }
        }
    }

    /// Brings what is kept of its text up to it, so that the queries behind need not read it again. Where memory is short, they do.
    pub fn bring_up<C: Counts>(&mut self, counts: &mut C)
        ensures same { self.new ≡ self.old }
        ensures counted { Grows (C.tallies counts.old) (C.tallies counts.new) }
    {
        if self.why.is_none() {
            let _ = self.session.refresh(counts);
        }
    }

    /// Its diagnostics.
    pub fn diagnostics<C: Counts>(
        &self,
        alloc: Global,
        by: Columns,
        counts: &mut C,
    ) -> Result<Vec<Diagnostic>, NoMemory>
        ensures are { IfOk result (λ v. ContentDiagnostics (columns_in by) self.now.content (map puts.diagnostic_of v.items)) }
        ensures counted { Grows (C.tallies counts.old) (C.tallies counts.new) }
    {
        match self.why {
            Some(why) => unread_list(alloc, why),
            None => diagnostics_in(alloc, &self.session, by, counts),
        }
    }

    /// The bytes of its diagnostics as they are put.
    fn report<C: Counts>(
        &self,
        alloc: Global,
        by: Columns,
        counts: &mut C,
    ) -> Result<Vec<u8>, NoMemory>
        ensures is { IfOk result (λ v. (p : Piece) × IsReport (columns_in by) self.now p × (v.items ≡ bytes_put p)) }
        ensures counted { Grows (C.tallies counts.old) (C.tallies counts.new) }
    {
        let answer = Answer::Published {
            uri: self.uri.share()?,
            version: self.version,
            list: self.diagnostics(alloc, by, counts)?,
        };
        write_answer(alloc, &answer)
    }

    /// Notes the bytes of its diagnostics, by these columns, as put last.
    fn note(&mut self, sent: Vec<u8>, by: Columns)
        requires { (p : Piece) × IsReport (columns_in by) self.old p × (sent.items ≡ bytes_put p) }
        ensures { self.new ≡ with_shown self.old sent.items }
    {
        self.sent = sent;
        self.fresh = Some(by);
    }

    /// Whether the bytes put last are known to be those of its diagnostics by these columns.
    fn is_shown(&self, by: Columns) -> bool
        ensures { result ≡ true → IsShown by self.now }
    {
        match (self.fresh, by) {
            (Some(Columns::Utf16), Columns::Utf16) => true,
            (Some(Columns::Bytes), Columns::Bytes) => true,
            _ => false,
        }
    }

    /// The bytes of its diagnostics, which are put.
    pub fn send<C: Counts>(
        &mut self,
        alloc: Global,
        by: Columns,
        counts: &mut C,
    ) -> Result<Vec<u8>, NoMemory>
        ensures is { IfOk result (λ v. (p : Piece) × IsReport (columns_in by) self.old p × (v.items ≡ bytes_put p) × (self.new ≡ with_shown self.old (bytes_put p))) }
        ensures counted { Grows (C.tallies counts.old) (C.tallies counts.new) }
    {
        let bytes = self.report(alloc, by, counts)?;
        let copy = copied(alloc, &bytes)?;
        self.note(copy, by);
        Ok(bytes)
    }

    /// Puts its diagnostics, where they differ from those put last.
    pub fn refresh<C: Counts>(
        &mut self,
        alloc: Global,
        by: Columns,
        pieces: &mut Pieces,
        counts: &mut C,
    ) -> Result<(), NoMemory>
        ensures puts { OnOk result ((ps : List Piece) × Refreshes (columns_in by) self.old ps self.new × (pieces.new ≡ pieces.old ++ bytes_of ps)) }
        ensures counted { Grows (C.tallies counts.old) (C.tallies counts.new) }
    {
        if self.is_shown(by) {
            return Ok(());
        }
        let bytes = self.report(alloc, by, counts)?;
        if bytes.as_slice() == self.sent.as_slice() {
            self.note(bytes, by);
            return Ok(());
        }
        pieces.push_copy(alloc, &bytes)?;
        self.note(bytes, by);
        Ok(())
    }
}
