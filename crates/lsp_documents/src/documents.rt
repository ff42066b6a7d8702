//! All open documents, and what a message puts.
ghost use Rattle.std.specs.Prelude.{◌≡◌, ◌<◌, ◌≤◌, ◌∷◌, [], List, length, map, nat_lt, option_map, IfOk, OnOk, Some};
ghost use Rattle.std.specs.List.{remove, slice_get};
ghost use Rattle.text_terms.specs.Bytes.{str_bytes};
ghost use Rattle.syntax_tree.specs.Tallies.{Grows};
ghost use Rattle.lsp_model.specs.Messages.{actions, changed, closed, diagnostics, message as message_spec, notice, opened, request, symbols};
ghost use Rattle.lsp_model.specs.Answers as model;
ghost use Rattle.lsp_model.specs.Answers.{Piece, bytes_put};
ghost use Rattle.lsp_front.specs.Sayings as says;
ghost use Rattle.lsp_answers.specs.Puts as puts;
ghost use Rattle.lsp_documents.specs.States as state;
ghost use Rattle.lsp_documents.specs.States.{first_state, place_in, taken_off, text_in};
ghost use Rattle.lsp_documents.specs.Puts.{document_lost, settled, with_documents, Answers};
ghost use Rattle.lsp_documents.specs.Placing.{Placed};
ghost use Rattle.lsp_documents.specs.Steps.{bytes_of, PassedBy, StepBy};
ghost use Rattle.lsp_documents.specs.Views.{is_free};
ghost use Rattle.lsp_documents.specs.Settling.{behind};

use crate::document::{Document, Room};
use crate::lists::{count_read, lose_each, place_of};
use crate::pieces::Pieces;
use crate::replies::{refusal, response, shared, short_of_memory, too_long};
use crate::sending::{clears, refreshed, sends};
use analysis_api::Analyser;
use lsp_answers::{Answered, Diagnostic};
use lsp_front::{
    Call, Change, Choices, Delivery, DocumentCall, HoverForm, Id, Kinds, Message, Notice, Place,
    PlaceCall, Range, read_message,
};
use lsp_positions::Columns;
use lsp_queries::{answer_at, offset_in, outlined, proposed};
use session::{Session, TriedText};
use std::alloc::Global;
use std::marker::Model;
use std::mem;
use syntax_tree::{Counts, NoMemory, RcStr};

/// How many documents are read at once.
const READ_LIMIT: usize = 32;

/// How an editor ends a run.
#[derive(Clone, Copy, Debug, PartialEq, Eq)]
pub enum Ending {
    /// It asked to shut down before.
    Shut,
    /// It didn't.
    NotShut,
}

/// What comes of a message.
#[derive(Drop)]
pub enum Step {
    /// These are put, one after another.
    Puts(Pieces),
    /// The run ends.
    Exit(Ending),
}

/// What holds once a request is answered.
#[derive(Clone, Copy)]
enum Settled {
    Nothing,
    Choices(Choices),
    Shut,
}

fn settled_by(call: &Call) -> Settled
    ensures { (s : state.State) → behind s result ≡ settled s (says.call_of call.now) }
{
    match call {
        Call::Initialize(choices) => Settled::Choices(*choices),
        Call::Shutdown => Settled::Shut,
        _ => Settled::Nothing,
    }
}

/// Whether one more document may be read beside so many.
fn room_beside(read: usize) -> Room
    ensures { is_free result ≡ nat_lt read 32 }
{
    if read < READ_LIMIT {
        Room::Free
    } else {
        Room::Full
    }
}

/// All open documents, in the order in which they were opened, and what the editor chose.
#[derive(Drop)]
pub struct Documents<A: Analyser> {
    alloc: Global,
    choices: Choices,
    ending: Ending,
    documents: Vec<Document<A>>,
    /// What is kept of the texts that were tried, for the next request that tries some. No answer depends on it.
    tried: TriedText<A>,
}

/// They are seen as what is kept of an editor.
impl<A: Analyser> Model for Documents<A> {
    ghost use Rattle.lsp_front.specs.Sayings as says;
    ghost use Rattle.lsp_documents.specs.States as state;
    ghost use Rattle.lsp_documents.specs.Endings.{is_shut};

    ghost Value = { state.State };

    ghost view = { λ s. record { choices = says.choices_of s.choices; shut = is_shut s.ending; documents = s.documents.items } };
}

impl<A: Analyser> Documents<A> {
    /// No document, and the choices that hold before an editor says anything.
    pub fn new(alloc: Global) -> Documents<A>
        ensures { result ≡ first_state }
    {
        Documents {
            alloc,
            choices: Choices {
                columns: Columns::Utf16,
                hover: HoverForm::Plaintext,
                delivery: Delivery::Sent,
            },
            ending: Ending::NotShut,
            documents: Vec::new(alloc),
            tried: TriedText::new(alloc),
        }
    }

    /// What comes of a body.
    #[tactic(auto, using(crate::proofs::Stepping::refused_step, crate::proofs::Stepping::ignored_step))]
    pub fn take_body<C: Counts>(&mut self, body: &[u8], counts: &mut C) -> Result<Step, NoMemory>
        ensures step { IfOk result (λ step. StepBy self.old (message_spec body.now) step self.new) }
        ensures counted { Grows (C.tallies counts.old) (C.tallies counts.new) }
    {
        match read_message(self.alloc, body)? {
            Message::Request { id, call } => self.request(id, call, counts),
            Message::Notice(notice) => self.notice(notice, counts),
            Message::Refused(why) => self.one(refusal(self.alloc, why)?),
            Message::Ignored => Ok(Step::Puts(Pieces::new(self.alloc))),
        }
    }

    /// What comes of a body that was too long: no document is read from then on, since one of its changes may be lost.
    pub fn pass_over<C: Counts>(&mut self, counts: &mut C) -> Result<Step, NoMemory>
        ensures step { IfOk result (λ step. PassedBy self.old step self.new) }
        ensures counted { Grows (C.tallies counts.old) (C.tallies counts.new) }
    {
        let first = too_long(self.alloc)?;
        self.lose_all();
        let (alloc, choices) = (self.alloc, self.choices);
        Ok(Step::Puts(refreshed(&mut self.documents, alloc, choices, first, counts)?))
    }

    /// Lets the text of each document go.
    fn lose_all(&mut self)
        ensures { self.new ≡ with_documents self.old (map document_lost self.old.documents) }
    {
        lose_each(&mut self.documents, self.alloc);
    }

    /// One piece.
    fn one(&self, bytes: Vec<u8>) -> Result<Step, NoMemory>
        ensures { IfOk result (λ step. step ≡ Step.Puts (bytes.items ∷ [])) }
    {
        let mut pieces = Pieces::new(self.alloc);
        pieces.push(bytes)?;
        Ok(Step::Puts(pieces))
    }

    /// What comes of a request. Want of memory is answered, and then nothing else changes.
    #[tactic(auto, using(crate::proofs::Stepping::answered_step, crate::proofs::Stepping::short_step))]
    fn request<C: Counts>(&mut self, id: Id, call: Call, counts: &mut C) -> Result<Step, NoMemory>
        ensures step { IfOk result (λ step. StepBy self.old (request (says.id_of id) (says.call_of call)) step self.new) }
        ensures counted { Grows (C.tallies counts.old) (C.tallies counts.new) }
    {
        let spare = shared(&id)?;
        let settled = settled_by(&call);
        match self.asked(id, call, counts) {
            Ok(bytes) => {
                self.settle(settled);
                self.one(bytes)
            }
            Err(_) => self.one(short_of_memory(self.alloc, spare)?),
        }
    }

    /// The bytes of the answer to a request.
    fn asked<C: Counts>(&mut self, id: Id, call: Call, counts: &mut C) -> Result<Vec<u8>, NoMemory>
        ensures is { IfOk result (λ v. (a : model.Answered) × Answers self.old (says.call_of call) a × (v.items ≡ bytes_put (model.result (says.id_of id) a))) }
        ensures stays { self.new ≡ self.old }
        ensures counted { Grows (C.tallies counts.old) (C.tallies counts.new) }
    {
        let mut tried = mem::replace(&mut self.tried, TriedText::new(self.alloc));
        let bytes = self.reply(id, call, &mut tried, counts);
        self.tried = tried;
        bytes
    }

    /// The same. What is kept of the texts that are tried stays in `tried`.
    fn reply<C: Counts>(
        &self,
        id: Id,
        call: Call,
        tried: &mut TriedText<A>,
        counts: &mut C,
    ) -> Result<Vec<u8>, NoMemory>
        ensures is { IfOk result (λ v. (a : model.Answered) × Answers self.now (says.call_of call) a × (v.items ≡ bytes_put (model.result (says.id_of id) a))) }
        ensures counted { Grows (C.tallies counts.old) (C.tallies counts.new) }
    {
        let answered = self.answer(call, tried, counts)?;
        response(self.alloc, id, answered)
    }

    fn settle(&mut self, settled: Settled)
        ensures { self.new ≡ behind self.old settled }
    {
        match settled {
            Settled::Nothing => {}
            Settled::Choices(choices) => {
                self.choices = choices;
            }
            Settled::Shut => self.ending = Ending::Shut,
        }
    }

    /// The result of a request.
    fn answer<C: Counts>(
        &self,
        call: Call,
        tried: &mut TriedText<A>,
        counts: &mut C,
    ) -> Result<Answered, NoMemory>
        ensures is { IfOk result (λ a. Answers self.now (says.call_of call) (puts.answered_of a)) }
        ensures counted { Grows (C.tallies counts.old) (C.tallies counts.new) }
    {
        match call {
            Call::Initialize(choices) => Ok(Answered::Chosen(choices)),
            Call::Shutdown => Ok(Answered::Null),
            Call::At { what, place } => self.at_place(what, &place, counts),
            Call::Of { what, uri } => match what {
                DocumentCall::Symbols => self.symbols(&uri, counts),
                DocumentCall::Diagnostics => self.reported(&uri, counts),
            },
            Call::Actions { uri, range, kinds } => self.actions(uri, range, kinds, tried, counts),
        }
    }

    /// The text of the open document of a name, where that is read.
    fn text_of(&self, uri: &RcStr) -> Option<&Session<A>>
        ensures { option_map (λ s. s.now.text) result ≡ text_in self.now.documents (str_bytes uri.now) }
    {
        let at = place_of(&self.documents, uri.as_str())?;
        self.documents[at].text()
    }

    fn at_place<C: Counts>(
        &self,
        what: PlaceCall,
        place: &Place,
        counts: &mut C,
    ) -> Result<Answered, NoMemory>
        ensures is { IfOk result (λ a. Answers self.now (says.place_call what (says.place_of place.now)) (puts.answered_of a)) }
        ensures counted { Grows (C.tallies counts.old) (C.tallies counts.new) }
    {
        match self.text_of(&place.uri) {
            Some(text) => {
                let choices = self.choices;
                let offset = offset_in(text, place.at, choices.columns);
                answer_at(self.alloc, text, &place.uri, what, offset, choices, counts)
            }
            None => Ok(Answered::Null),
        }
    }

    fn symbols<C: Counts>(&self, uri: &RcStr, counts: &mut C) -> Result<Answered, NoMemory>
        ensures is { IfOk result (λ a. Answers self.now (symbols (str_bytes uri.now)) (puts.answered_of a)) }
        ensures counted { Grows (C.tallies counts.old) (C.tallies counts.new) }
    {
        match self.text_of(uri) {
            Some(text) => Ok(Answered::Outlined(outlined(
                self.alloc,
                text,
                self.choices.columns,
                counts,
            )?)),
            None => Ok(Answered::Null),
        }
    }

    /// The diagnostics of a document; none where it isn't open.
    fn reported<C: Counts>(&self, uri: &RcStr, counts: &mut C) -> Result<Answered, NoMemory>
        ensures is { IfOk result (λ a. Answers self.now (diagnostics (str_bytes uri.now)) (puts.answered_of a)) }
        ensures counted { Grows (C.tallies counts.old) (C.tallies counts.new) }
    {
        match place_of(&self.documents, uri.as_str()) {
            Some(at) => {
                let by = self.choices.columns;
                Ok(Answered::Reported(self.documents[at].diagnostics(self.alloc, by, counts)?))
            }
            None => Ok(Answered::Reported(Vec::new(self.alloc))),
        }
    }

    fn actions<C: Counts>(
        &self,
        uri: RcStr,
        range: Range,
        kinds: Kinds,
        tried: &mut TriedText<A>,
        counts: &mut C,
    ) -> Result<Answered, NoMemory>
        ensures is { IfOk result (λ a. Answers self.now (actions (str_bytes uri) (says.range_of range) (says.kinds_of kinds)) (puts.answered_of a)) }
        ensures counted { Grows (C.tallies counts.old) (C.tallies counts.new) }
    {
        match self.text_of(&uri) {
            Some(text) => {
                let by = self.choices.columns;
                let actions = proposed(self.alloc, text, range, kinds, by, tried, counts)?;
                Ok(Answered::Proposed { uri, actions })
            }
            None => Ok(Answered::Null),
        }
    }

    /// What comes of a notification.
    fn notice<C: Counts>(&mut self, said: Notice, counts: &mut C) -> Result<Step, NoMemory>
        ensures step { IfOk result (λ step. StepBy self.old (notice (says.notice_of said)) step self.new) }
        ensures counted { Grows (C.tallies counts.old) (C.tallies counts.new) }
    {
        match said {
            Notice::Opened { uri, text, version } => self.open(uri, text, version, counts),
            Notice::Changed {
                uri,
                changes,
                version,
            } => self.change(&uri, changes, version, counts),
            Notice::Closed { uri } => self.close(uri, counts),
            Notice::Exit => Ok(Step::Exit(self.ending)),
        }
    }

    /// Takes a document off the open ones, if it is one of them.
    fn take_off(&mut self, uri: &RcStr)
        ensures { self.new ≡ with_documents self.old (taken_off self.old.documents (place_in self.old.documents (str_bytes uri.now))) }
    {
        if let Some(at) = place_of(&self.documents, uri.as_str()) {
            self.documents.remove(at);
        }
    }

    fn open<C: Counts>(
        &mut self,
        uri: RcStr,
        text: RcStr,
        version: Option<i32>,
        counts: &mut C,
    ) -> Result<Step, NoMemory>
        ensures step { IfOk result (λ step. StepBy self.old (notice (opened (str_bytes uri) (str_bytes text) version)) step self.new) }
        ensures counted { Grows (C.tallies counts.old) (C.tallies counts.new) }
    {
        self.take_off(&uri);
        let at = self.documents.len();
        let room = room_beside(count_read(&self.documents));
        let document = Document::opened(self.alloc, uri, version, text, room)?;
        Ok(Step::Puts(self.put_in(at, document, counts)?))
    }

    /// Puts a document in at a place among the others, and gives what is sent.
    fn put_in<C: Counts>(
        &mut self,
        at: usize,
        mut document: Document<A>,
        counts: &mut C,
    ) -> Result<Pieces, NoMemory>
        requires { at ≤ length self.old.documents }
        ensures puts { IfOk result (λ v. (ps : List Piece) × Placed self.old document at ps self.new × (v ≡ bytes_of ps)) }
        ensures counted { Grows (C.tallies counts.old) (C.tallies counts.new) }
    {
        let (alloc, choices) = (self.alloc, self.choices);
        document.bring_up(counts);
        let pieces = sends(&mut self.documents, &mut document, alloc, choices, counts)?;
        self.documents.insert(at, document)?;
        Ok(pieces)
    }

    /// Takes the document at a place off the open ones.
    fn take_at(&mut self, at: usize) -> Document<A>
        requires { at < length self.old.documents }
        ensures value { slice_get self.old.documents at ≡ Some result }
        ensures left { self.new ≡ with_documents self.old (remove self.old.documents at) }
    {
        self.documents.remove(at)
    }

    fn change<C: Counts>(
        &mut self,
        uri: &RcStr,
        changes: Vec<Change>,
        version: Option<i32>,
        counts: &mut C,
    ) -> Result<Step, NoMemory>
        ensures step { IfOk result (λ step. StepBy self.old (notice (changed (str_bytes uri.now) (map says.change_of changes.items) version)) step self.new) }
        ensures counted { Grows (C.tallies counts.old) (C.tallies counts.new) }
    {
        let Some(at) = place_of(&self.documents, uri.as_str()) else {
            return Ok(Step::Puts(Pieces::new(self.alloc)));
        };
        let mut document = self.take_at(at);
        let room = room_beside(count_read(&self.documents));
        document.change_all(self.alloc, &changes, version, self.choices.columns, room)?;
        Ok(Step::Puts(self.put_in(at, document, counts)?))
    }

    fn close<C: Counts>(&mut self, uri: RcStr, counts: &mut C) -> Result<Step, NoMemory>
        ensures step { IfOk result (λ step. StepBy self.old (notice (closed (str_bytes uri))) step self.new) }
        ensures counted { Grows (C.tallies counts.old) (C.tallies counts.new) }
    {
        if place_of(&self.documents, uri.as_str()).is_none() {
            return Ok(Step::Puts(Pieces::new(self.alloc)));
        }
        self.take_off(&uri);
        let (alloc, choices) = (self.alloc, self.choices);
        Ok(Step::Puts(clears(&mut self.documents, uri, alloc, choices, counts)?))
    }
}
