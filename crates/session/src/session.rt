//! One text, and the answers to request lines on it.
ghost use Rattle.std.specs.Prelude.{◌≡◌, ◌≤◌, ◌<◌, ◌+◌, ◌-◌, ◌^◌, ◌++◌, [], List, ℕ, false, true, is_some, length, map, option_map, reverse, IfErr, IfNone, IfOk, IfSome, None, OnErr, OnOk, Some};
ghost use Rattle.text_terms.specs.Bytes.{str_bytes};
ghost use Rattle.text_model.specs.Edits.{changed, outcome_of, text_limit};
ghost use Rattle.std.specs.Str.{IsUtf8};
ghost use Rattle.text_model.specs.Positions.{offset, position_of};
ghost use Rattle.token_model.specs.Kinds.{Tok};
ghost use Rattle.token_model.specs.Tokens.{Lex};
ghost use Rattle.tree_model.specs.Nodes.{nodes_at};
ghost use Rattle.tree_model.specs.Trees.{AreItemsSized};
ghost use Rattle.plain_model.specs.Plain.{AllSeenWithin};
ghost use Rattle.query_model.specs.Faults.{TyperFault, by_typer};
ghost use Rattle.service_model.specs.Requests.{asks, reading, tell as tell_spec};
ghost use Rattle.service_model.specs.Answers.{Answers, PlacedIs, EnclosingIs, TypesAre, tell_outcome, end_key, typed_among as typed_among_spec, types_or_none};
ghost use Rattle.work_model.specs.Work.{Amount, Owed, WorksAt};
ghost use Rattle.syntax_tree.specs.Tallies.{Grows, Tallies};
ghost use Rattle.syntax_tree.specs.View.{trees_of};
ghost use Rattle.plain_typing.specs.View.{seen_of};
ghost use Rattle.text_queries.specs.Faults.{fault_of, typer_fault_of};
ghost use Rattle.text_store.specs.Edits.{edit_of, IsRefusal};
ghost use Rattle.json_lines.specs.Meets.{asked_of, key_text, range_of, refusal_of};
ghost use Rattle.service_model.specs.Replies as said;
ghost use Rattle.service_model.specs.Replies.{outline};
ghost use Rattle.service_model.specs.Made.{SizesAre};
ghost use Rattle.service_model.specs.Structure.{ErrorsAre, OutlineIs, faults_said};
ghost use Rattle.json_lines.specs.Means.{outline_of, outlined_of, said_of, typed_of};
ghost use Rattle.kept_text.specs.Keeping.{sooner};
ghost use Rattle.text_reading.specs.Structures.{AreItemsOf};
ghost use Rattle.asked_node.specs.Trials.{AreReplaced};
ghost use Rattle.text_reading.specs.Types.{holds_in, items_in};
ghost use Rattle.text_changes.specs.Changes.{candidates_in, changes_in, is_said, ArePlaced, AreSaidOf, FitsText, IsSaidOf};
ghost use Rattle.session.specs.Queries.{AreFaultsOf, AreTypesBy, AreTypesRound, IsAnswered, IsNotPlain, MayBeIllTyped};
ghost use Rattle.session.specs.Lines.{line_bytes, refusal_in, IsWritten, RefusesBy, RefusesEditBy, RepliesBy, Says};
ghost use Rattle.session.specs.Working.{alike, tries_texts, Carries, Owes, QuerySpends, QueryWorks, Reads, RequestWorks, Settles, Takes, TriesBy, TriesNone, TriesTexts, Types, TypesSome};

use crate::queries::{Query, failure_of, propose};
use analysis_api::Analyser;
use env_table::Fault;
use frame_parser::{Parsed, SyntaxFault};
use json_lines::{
    Failure, Key, Malformed, Outlined, Reply, Request, RequestError, Typed, memory_line,
    read_request, write_reply,
};
use kept_text::KeptText;
use query_engine::{Asked, enclosing_types};
use std::alloc::{AllocError, Global};
use std::marker::Model;
use syntax_tree::{Counts, NoMemory, Pos, RcStr, Tree, enclosing};
use text_changes::{Candidates, MarkedText, Proposal, asked, try_all};
use text_reading::{
    Found, KeptTypes, PlainText, TriedText, find_types, read_text, shown_faults, shown_outline,
    shown_types, tree_of, typed_among,
};
use text_store::{Edit, TextRefusal, TextStore};

/// The line that answers a request line.
#[derive(Drop)]
pub enum Line {
    /// The bytes of a reply line, its line feed included.
    Written(Vec<u8>),
    /// Want of memory. The text is as it was.
    Memory,
}

impl Line {
    /// The bytes of the line, its line feed included.
    pub fn bytes(&self) -> &[u8]
        ensures { result.now ≡ line_bytes self.now }
    {
        match self {
            Line::Written(bytes) => bytes,
            Line::Memory => memory_line(),
        }
    }
}

/// The line of a reply, or want of memory.
fn written(alloc: Global, reply: &Reply) -> Line
    ensures { IsWritten (said_of reply.now) result }
{
    match write_reply(alloc, reply) {
        Ok(bytes) => Line::Written(bytes),
        Err(_) => Line::Memory,
    }
}

/// The line of a reply, or want of memory, which may have come before.
fn line_of(alloc: Global, reply: Result<Reply, NoMemory>) -> Line
    ensures written { IfOk reply (λ r. IsWritten (said_of r) result) }
    ensures memory { OnErr reply (result ≡ Line.Memory) }
{
    match reply {
        Ok(reply) => written(alloc, &reply),
        Err(_) => Line::Memory,
    }
}

/// The line of an error, or want of memory.
fn error_line(alloc: Global, error: RequestError) -> Line
    ensures { IsWritten (said_of (Reply.Error error)) result }
{
    written(alloc, &Reply::Error(error))
}

/// The line of a line that is no request.
fn malformed_line(alloc: Global, malformed: Malformed) -> Line
    ensures { RefusesBy (refusal_of malformed) result }
{
    match malformed.error() {
        Some(error) => error_line(alloc, error),
        None => Line::Memory,
    }
}

/// The key of an edit's end, or of its start.
fn key_of(end: bool) -> Key
    ensures { key_text result ≡ end_key end }
{
    if end { Key::End } else { Key::Start }
}

/// The line of an edit that the store refuses.
fn refused_edit_line(alloc: Global, refusal: TextRefusal) -> Line
    ensures { RefusesEditBy (refusal_in refusal) result }
{
    match refusal {
        TextRefusal::BadPosition { end } => error_line(
            alloc,
            RequestError::BadPosition { key: key_of(end) },
        ),
        TextRefusal::BadRange => error_line(alloc, RequestError::BadRange),
        TextRefusal::SplitsChar { end } => error_line(
            alloc,
            RequestError::SplitsChar { key: key_of(end) },
        ),
        TextRefusal::TextTooLong { bytes } => error_line(
            alloc,
            RequestError::TextTooLong { bytes },
        ),
        TextRefusal::NoMemory => Line::Memory,
    }
}

/// The reply of these types, or of none.
fn types_reply(types: Vec<Typed>) -> Reply
    ensures { said_of result ≡ types_or_none (map typed_of types.items) }
{
    if types.is_empty() {
        Reply::Failure(Failure::NoNode)
    } else {
        Reply::Types(types)
    }
}

/// How many items and faults a text has.
#[derive(Clone, Copy, Debug, PartialEq, Eq)]
pub struct Sizes {
    pub items: u64,
    /// Those of the parser and of the typer with its warnings, all of them.
    pub faults: u64,
}

/// The sizes of a parsed text with so many faults of the typer.
fn sizes_of(parsed: &Parsed, typed: usize) -> Sizes
    requires { typed < 2 ^ 63 }
    ensures items { result.items ≡ length (trees_of parsed.now.tree) }
    ensures faults { result.faults ≡ length (map fault_of parsed.now.faults.items) + typed }
{
    Sizes {
        items: parsed.tree.items.len() as u64,
        faults: parsed.faults.len() as u64 + typed as u64,
    }
}

/// A session: one text, empty at first, whose types and names an `A` finds.
#[derive(Drop)]
pub struct Session<A: Analyser> {
    alloc: Global,
    kept: KeptText,
    types: KeptTypes<A>,
    /// The tokens and the tree of the changed text that was tried last, for the next query that tries some. It has no typer but while
    /// texts are tried, when it borrows that of the session. No reply depends on it.
    tried: TriedText<A>,
}

/// A session is seen as its text, how far it is read, and the items that are typed. Where the typer's items are known as those of the text, they are;
/// so many of the first ones are those of the tree that is kept as are said to be.
impl<A: Analyser> Model for Session<A> {
    ghost use Rattle.std.specs.Prelude.{is_some};
    ghost use Rattle.kept_text.specs.Keeping.{trees_in};
    ghost use Rattle.text_reading.specs.Types.{has_begun, held, known, known_front};
    ghost use Rattle.text_reading.specs.TreeCodes.{tree_code};
    ghost use Rattle.session.specs.Working.{held_code, Held, IsTied};
    ghost use Rattle.std.specs.Coded.{codes};

    ghost Value = { Held };

    ghost coded = { held_code (tree_code (Prim.hlevel codes) (Prim.hlevel codes) (Prim.hlevel codes)) };

    ghost view = { λ s. record { text = s.kept.text; changed = s.kept.changed; begun = has_begun s.types; known = is_some (known A.items s.types); holds = held A.items s.types } };

    ghost invariant = { λ s. IsTied s.kept.text (trees_in s.kept.tokens) (known A.items s.types) (held A.items s.types) (known_front s.types) };
}

impl<A: Analyser> Session<A> {
    /// A session with the empty text.
    pub fn new(alloc: Global) -> Session<A>
        ensures text { result.text ≡ [] }
        ensures begun { result.begun ≡ false }
    {
        Session {
            alloc,
            kept: KeptText::new(alloc),
            types: KeptTypes::new(),
            tried: TriedText::new(alloc),
        }
    }

    /// The present text.
    fn text(&self) -> &TextStore
        ensures { result.now ≡ self.now.text }
    {
        self.kept.text()
    }

    /// Answers one line that isn't blank. Only a `tell` that is accepted changes the text.
    pub fn answer<C: Counts>(&mut self, line: &[u8], counts: &mut C) -> Line
        ensures answers { Answers self.old.text line.now (line_bytes result) self.new.text }
        ensures works { (w : Owed) (ps : List Tok) → Owes w self.old → Lex A.opens ps → (v : Owed) × (n : Amount) × WorksAt (length ps) w (reading line.now) (line_bytes result) v n × Owes v self.new × Takes (length ps) n self.old self.new (C.tallies counts.old) (C.tallies counts.new) × Carries w v self.old self.new (C.tallies counts.old) (C.tallies counts.new) }
        ensures counted { Grows (C.tallies counts.old) (C.tallies counts.new) }
    {
        match read_request(self.alloc, line) {
            Ok(request) => self.reply_to(request, counts),
            Err(malformed) => malformed_line(self.alloc, malformed),
        }
    }

    /// Answers a request.
    fn reply_to<C: Counts>(&mut self, request: Request, counts: &mut C) -> Line
        ensures replies { RepliesBy self.old.text (asked_of request) result self.new.text }
        ensures works { RequestWorks A.opens (asked_of request) result self.old self.new (C.tallies counts.old) (C.tallies counts.new) }
        ensures counted { Grows (C.tallies counts.old) (C.tallies counts.new) }
    {
        match request {
            Request::Tell { range, text } => self.tell(range, text),
            Request::TypeEnclosing { at } => self.type_enclosing(at, counts),
            Request::CompletePrefix { at, prefix } => self.query_at(
                &Query::Complete(prefix),
                at,
                counts,
            ),
            Request::Locate { at } => self.query_at(&Query::Locate, at, counts),
            Request::Occurrences { at } => self.query_at(&Query::Occurrences, at, counts),
            Request::Outline => self.outline_line(counts),
            Request::Errors => self.errors_line(counts),
            Request::CaseAnalysis { at } => self.query_at(&Query::Cases, at, counts),
            Request::Construct { at } => self.query_at(&Query::Terms, at, counts),
        }
    }

    /// Makes an edit, or replaces the whole text. The reply is made before the text is changed.
    fn tell(&mut self, range: Option<(Pos, Pos)>, text: RcStr) -> Line
        ensures replies { RepliesBy self.old.text (tell_spec (option_map range_of range) (str_bytes text)) result self.new.text }
        ensures owed { (w : Owed) (p : ℕ) → Owes w self.old → (v : Owed) × WorksAt p w (asks (tell_spec (option_map range_of range) (str_bytes text))) (line_bytes result) v (alike 0) × Owes v self.new × ((c : Tallies) → Carries w v self.old self.new c c) }
        ensures begun { self.new.begun ≡ self.old.begun }
    {
        let edit = self.edit_for(range, text);
        match written(self.alloc, &Reply::Size(self.len_after(&edit))) {
            Line::Memory => Line::Memory,
            Line::Written(bytes) => match self.apply(&edit) {
                Ok(_) => Line::Written(bytes),
                Err(refusal) => refused_edit_line(self.alloc, refusal),
            },
        }
    }

    /// Makes an edit, and answers the first changed byte: what is found of types is then that of an earlier text. A refused edit changes
    /// nothing.
    fn apply(&mut self, edit: &Edit) -> Result<u32, TextRefusal>
        ensures done { IfOk result (λ first. outcome_of self.old.text (edit_of edit.now) ≡ changed first self.new.text) }
        ensures noted { IfOk result (λ first. self.new.changed ≡ Some (sooner first self.old.changed)) }
        ensures begun { self.new.begun ≡ self.old.begun }
        ensures holds { self.new.holds ≡ self.old.holds }
        ensures refused { IfErr result (λ refusal. (self.new ≡ self.old) × IsRefusal (outcome_of self.old.text (edit_of edit.now)) refusal) }
    {
        match self.kept.apply(edit) {
            Ok(first) => {
                self.types.outdate();
                Ok(first)
            }
            Err(refusal) => Err(refusal),
        }
    }

    /// The edit that a `tell` makes: without a range, one from the first place to the last.
    fn edit_for(&self, range: Option<(Pos, Pos)>, text: RcStr) -> Edit
        ensures { outcome_of self.now.text (edit_of result) ≡ tell_outcome self.now.text (option_map range_of range) (str_bytes text) }
    {
        match range {
            Some((start, end)) => Edit { start, end, text },
            None => Edit {
                start: Pos { line: 1, col: 0 },
                end: self.last_place(),
                text,
            },
        }
    }

    /// The position behind the last byte.
    fn last_place(&self) -> Pos
        ensures place { (result.line, result.col) ≡ position_of self.now.text (length self.now.text) }
        ensures utf8 { IsUtf8 self.now.text }
    {
        let (left, right) = self.text().slices();
        self.text().pos_of((left.len() + right.len()) as u32)
    }

    /// How many bytes the text has once the edit is made; of an edit that is refused it tells nothing.
    fn len_after(&self, edit: &Edit) -> u64
        ensures { (first : ℕ) (new : List ℕ) → outcome_of self.now.text (edit_of edit.now) ≡ changed first new → result ≡ length new }
    {
        let Ok(start) = self.text().offset_of(edit.start) else {
            return 0;
        };
        let Ok(end) = self.text().offset_of(edit.end) else {
            return 0;
        };
        let cut = end.saturating_sub(start);
        let kept = self.text().len().saturating_sub(cut);
        (kept as u64).saturating_add(edit.text.as_str().len() as u64)
    }

    /// How many bytes the text has.
    pub fn len(&self) -> u64
        ensures { result ≡ length self.now.text }
    {
        self.text().len() as u64
    }

    /// Puts bytes behind the text, by the edit of a `tell`. Where the text would be too long, memory counts as short.
    pub fn append(&mut self, text: RcStr) -> Result<(), NoMemory>
        ensures { OnOk result (self.new.text ≡ self.old.text ++ str_bytes text) }
    {
        let end = self.last_place();
        let edit = Edit {
            start: end,
            end,
            text,
        };
        match self.apply(&edit) {
            Ok(_) => Ok(()),
            Err(_) => Err(AllocError),
        }
    }

    /// The text in two parts, the second of which may be empty.
    pub fn slices(&self) -> (&[u8], &[u8])
        ensures text { result.0.now ++ result.1.now ≡ self.now.text }
        ensures short { length self.now.text ≤ text_limit }
    {
        self.text().slices()
    }

    /// The offset of a position, or None where the text has no such position.
    pub fn offset_of(&self, at: Pos) -> Option<u32>
        ensures value { result ≡ offset self.now.text at.line at.col }
        ensures within { IfSome result (λ n. n ≤ length self.now.text) }
    {
        self.text().offset_of(at).ok()
    }

    /// The position of an offset in bytes.
    pub fn pos_of(&self, place: u32) -> Pos
        requires { place ≤ length self.now.text }
        ensures { (result.line, result.col) ≡ position_of self.now.text place }
    {
        self.text().pos_of(place)
    }

    /// Makes the edit of a `tell`. The text stays where it is refused.
    pub fn change(&mut self, range: Option<(Pos, Pos)>, text: RcStr) -> Result<(), TextRefusal>
        ensures done { OnOk result ((first : ℕ) × (tell_outcome self.old.text (option_map range_of range) (str_bytes text) ≡ changed first self.new.text)) }
        ensures refused { IfErr result (λ refusal. (self.new ≡ self.old) × IsRefusal (tell_outcome self.old.text (option_map range_of range) (str_bytes text)) refusal) }
    {
        let edit = self.edit_for(range, text);
        match self.apply(&edit) {
            Ok(_) => Ok(()),
            Err(refusal) => Err(refusal),
        }
    }

    /// Answers a query of an offset.
    pub fn ask_at<C: Counts>(
        &self,
        query: &Query,
        offset: u32,
        counts: &mut C,
    ) -> Result<Reply, NoMemory>
        ensures said { IfOk result (λ r. IsAnswered query.now self.now.text offset (said_of r)) }
        ensures idle { self.now.changed ≡ None → self.now.known ≡ true → tries_texts query.now ≡ false → C.tallies counts.new ≡ C.tallies counts.old }
        ensures counted { Grows (C.tallies counts.old) (C.tallies counts.new) }
    {
        let mut tried = TriedText::new(self.alloc);
        self.ask_trying(query, offset, &mut tried, counts)
    }

    /// The same. What is kept of the changed texts that it tries stays in `tried`, so that the next such query reads and types them
    /// from where they differ; no reply depends on it.
    pub fn ask_trying<C: Counts>(
        &self,
        query: &Query,
        offset: u32,
        tried: &mut TriedText<A>,
        counts: &mut C,
    ) -> Result<Reply, NoMemory>
        ensures said { IfOk result (λ r. IsAnswered query.now self.now.text offset (said_of r)) }
        ensures idle { self.now.changed ≡ None → self.now.known ≡ true → tries_texts query.now ≡ false → C.tallies counts.new ≡ C.tallies counts.old }
        ensures counted { Grows (C.tallies counts.old) (C.tallies counts.new) }
    {
        match self.propose(query, offset, counts)? {
            Proposal::Said(reply) => Ok(reply),
            Proposal::Tried { text, candidates } => {
                try_all(self.alloc, self.text(), &text, candidates, tried, counts)
            }
        }
    }

    /// What a query of an offset gives before any text is tried. What was found of the present text isn't lent any more afterwards, so
    /// that the typer may go on to another one.
    fn propose<C: Counts>(
        &self,
        query: &Query,
        offset: u32,
        counts: &mut C,
    ) -> Result<Proposal, NoMemory>
        ensures answers { IfOk result (λ p. (s : said.Said) → IsSaidOf self.now.text p s → IsAnswered query.now self.now.text offset s) }
        ensures fits { IfOk result (FitsText self.now.text) }
        ensures alone { tries_texts query.now ≡ false → IfOk result (λ p. is_said p ≡ true) }
        ensures tries { IfOk result (λ p. (texts : List (List ℕ)) → AreReplaced self.now.text (changes_in p) texts → TriesBy query.now self.now.text (Some offset) texts) }
        ensures idle { self.now.changed ≡ None → self.now.known ≡ true → C.tallies counts.new ≡ C.tallies counts.old }
        ensures counted { Grows (C.tallies counts.old) (C.tallies counts.new) }
    {
        let read = tree_of(self.alloc, &self.kept, counts)?;
        let parsed = read.get();
        let found = self.typed(&parsed.tree, counts)?;
        let analysis = found.analysis();
        propose::<A>(self.alloc, self.text(), query, parsed, &analysis, offset)
    }

    /// What is said of changes of the text, all of them tried. The session's own typer types them, and holds the items of the last one
    /// then, or some of its first ones after `NoMemory`: so the next query goes on from the first item that differs from these. The
    /// tokens and the tree stay.
    fn try_changes<C: Counts>(
        &mut self,
        text: &MarkedText,
        candidates: Candidates,
        counts: &mut C,
    ) -> Result<Reply, NoMemory>
        requires text { text.now.text.items ≡ self.old.text }
        requires placed { ArePlaced candidates }
        ensures said { IfOk result (λ r. AreSaidOf self.old.text candidates (said_of r)) }
        ensures text { self.new.text ≡ self.old.text }
        ensures changed { self.new.changed ≡ self.old.changed }
        ensures tries { (texts : List (List ℕ)) × AreReplaced self.old.text (candidates_in candidates) texts × (self.old.begun ≡ true → TriesTexts A.opens texts self.old self.new (C.tallies counts.old) (C.tallies counts.new)) }
        ensures counted { Grows (C.tallies counts.old) (C.tallies counts.new) }
    {
        self.tried.borrow_typer(&mut self.types);
        let store = self.kept.text();
        let reply = try_all(self.alloc, store, text, candidates, &mut self.tried, counts);
        self.types = self.tried.return_typer();
        reply
    }

    /// Answers a query of an offset, what changes it has being tried by the session's own typer.
    fn ask_again<C: Counts>(
        &mut self,
        query: &Query,
        offset: u32,
        counts: &mut C,
    ) -> Result<Reply, NoMemory>
        ensures said { IfOk result (λ r. IsAnswered query.now self.old.text offset (said_of r)) }
        ensures text { self.new.text ≡ self.old.text }
        ensures changed { self.new.changed ≡ self.old.changed }
        ensures tries { self.old.changed ≡ None → self.old.known ≡ true → self.old.begun ≡ true → (texts : List (List ℕ)) × TriesBy query.now self.old.text (Some offset) texts × TriesTexts A.opens texts self.old self.new (C.tallies counts.old) (C.tallies counts.new) }
        ensures counted { Grows (C.tallies counts.old) (C.tallies counts.new) }
    {
        match self.propose(query, offset, counts)? {
            Proposal::Said(reply) => Ok(reply),
            Proposal::Tried { text, candidates } => self.try_changes(&text, candidates, counts),
        }
    }

    /// A typer that holds the items of the present text, whose tree this is: the one that is kept, where it knows them, and else a
    /// new one.
    fn typed<C: Counts>(&self, tree: &Tree, counts: &mut C) -> Result<Found<'_, A>, NoMemory>
        requires of_text { AreItemsOf self.now.text (trees_of tree.now) }
        ensures items { IfOk result (λ f. items_in A.items f ≡ trees_of tree.now) }
        ensures settled { IfOk result (λ f. ∥ holds_in A.is_settled f ∥₁) }
        ensures idle { self.now.known ≡ true → C.tallies counts.new ≡ C.tallies counts.old }
        ensures counted { Grows (C.tallies counts.old) (C.tallies counts.new) }
    {
        find_types(self.alloc, self.types.known(), tree, counts)
    }

    /// Brings the kept tokens and the kept tree up to the text. The text stays.
    fn read_again<C: Counts>(&mut self, counts: &mut C) -> Result<(), NoMemory>
        ensures rest { (self.new.text ≡ self.old.text) × (self.new.begun ≡ self.old.begun) × (self.new.known ≡ self.old.known) × (self.new.holds ≡ self.old.holds) }
        ensures current { OnOk result (self.new.changed ≡ None) }
        ensures refused { OnErr result (self.new.changed ≡ self.old.changed) }
        ensures reads { Reads A.opens false self.old self.new (C.tallies counts.old) (C.tallies counts.new) }
        ensures untyped { (C.tallies counts.new).typed ≡ (C.tallies counts.old).typed }
        ensures counted { Grows (C.tallies counts.old) (C.tallies counts.new) }
    {
        self.types.follow(&mut self.kept, counts)
    }

    /// Finds the types and names of the text, whose tokens and tree were brought up to it, unless they are known.
    fn type_again<C: Counts>(&mut self, counts: &mut C) -> Result<(), NoMemory>
        requires current { self.old.changed ≡ None }
        ensures rest { (self.new.text ≡ self.old.text) × (self.new.changed ≡ None) }
        ensures known { OnOk result (self.new.known ≡ true) }
        ensures begun { OnOk result (self.new.begun ≡ true) }
        ensures takes { (ps : List Tok) → Lex A.opens ps → OnOk result (Takes (length ps) (alike 0) self.old self.new (C.tallies counts.old) (C.tallies counts.new)) }
        ensures fails { (ps : List Tok) → Lex A.opens ps → Takes (length ps) (alike (length ps)) self.old self.new (C.tallies counts.old) (C.tallies counts.new) }
        ensures types { OnOk result (Types self.old self.new (C.tallies counts.old) (C.tallies counts.new)) }
        ensures goes { TypesSome self.old self.new (C.tallies counts.old) (C.tallies counts.new) }
        ensures counted { Grows (C.tallies counts.old) (C.tallies counts.new) }
    {
        if self.types.known().is_some() {
            return Ok(());
        }
        match self.kept.parsed() {
            Some(parsed) => self.types.refresh(self.alloc, &parsed.tree, counts),
            None => unreachable!(),
        }
    }

    /// Brings what is kept of the text up to it, its types and names among that, so that the queries after it find nothing anew.
    /// The text stays; after `NoMemory` the next call does what is left.
    pub fn refresh<C: Counts>(&mut self, counts: &mut C) -> Result<(), NoMemory>
        ensures text { self.new.text ≡ self.old.text }
        ensures current { OnOk result (self.new.changed ≡ None) }
        ensures settles { Settles self.old self.new }
        ensures reads { OnOk result (Reads A.opens false self.old self.new (C.tallies counts.old) (C.tallies counts.new)) }
        ensures fails { Reads A.opens true self.old self.new (C.tallies counts.old) (C.tallies counts.new) }
        ensures types { OnOk result (Types self.old self.new (C.tallies counts.old) (C.tallies counts.new)) }
        ensures goes { TypesSome self.old self.new (C.tallies counts.old) (C.tallies counts.new) }
        ensures known { OnOk result (self.new.known ≡ true) }
        ensures begun { OnOk result (self.new.begun ≡ true) }
        ensures counted { Grows (C.tallies counts.old) (C.tallies counts.new) }
    {
        self.read_again(counts)?;
        self.type_again(counts)
    }

    /// A query of a position.
    fn query_at<C: Counts>(&mut self, query: &Query, at: Pos, counts: &mut C) -> Line
        ensures says { Says (PlacedIs (offset self.old.text at.line at.col) (IsAnswered query.now self.old.text)) result }
        ensures text { self.new.text ≡ self.old.text }
        ensures works { QueryWorks A.opens (is_some (offset self.old.text at.line at.col)) (TriesBy query.now self.old.text (offset self.old.text at.line at.col)) result self.old self.new (C.tallies counts.old) (C.tallies counts.new) }
        ensures counted { Grows (C.tallies counts.old) (C.tallies counts.new) }
    {
        match self.text().offset_of(at) {
            Ok(offset) => {
                let reply = self.ask_now(query, offset, counts);
                line_of(self.alloc, reply)
            }
            Err(_) => error_line(self.alloc, RequestError::BadPosition { key: Key::At }),
        }
    }

    /// Answers a query of an offset, what is kept of the text brought up to it.
    fn ask_now<C: Counts>(
        &mut self,
        query: &Query,
        offset: u32,
        counts: &mut C,
    ) -> Result<Reply, NoMemory>
        ensures said { IfOk result (λ r. IsAnswered query.now self.old.text offset (said_of r)) }
        ensures text { self.new.text ≡ self.old.text }
        ensures current { OnOk result (self.new.changed ≡ None) }
        ensures settles { Settles self.old self.new }
        ensures spends { OnOk result ((texts : List (List ℕ)) × TriesBy query.now self.old.text (Some offset) texts × QuerySpends A.opens false texts self.old self.new (C.tallies counts.old) (C.tallies counts.new)) }
        ensures fails { (texts : List (List ℕ)) × TriesBy query.now self.old.text (Some offset) texts × QuerySpends A.opens true texts self.old self.new (C.tallies counts.old) (C.tallies counts.new) }
        ensures counted { Grows (C.tallies counts.old) (C.tallies counts.new) }
    {
        self.refresh(counts)?;
        self.ask_again(query, offset, counts)
    }

    /// The outline of the text.
    fn outline_line<C: Counts>(&mut self, counts: &mut C) -> Line
        ensures says { Says (OutlineIs self.old.text) result }
        ensures text { self.new.text ≡ self.old.text }
        ensures works { QueryWorks A.opens true TriesNone result self.old self.new (C.tallies counts.old) (C.tallies counts.new) }
        ensures counted { Grows (C.tallies counts.old) (C.tallies counts.new) }
    {
        let reply = self.outline_now(counts);
        line_of(self.alloc, reply)
    }

    /// The outline, the tree brought up to the text.
    fn outline_now<C: Counts>(&mut self, counts: &mut C) -> Result<Reply, NoMemory>
        ensures said { IfOk result (λ r. OutlineIs self.old.text (said_of r)) }
        ensures text { self.new.text ≡ self.old.text }
        ensures current { OnOk result (self.new.changed ≡ None) }
        ensures settles { Settles self.old self.new }
        ensures reads { OnOk result (Reads A.opens false self.old self.new (C.tallies counts.old) (C.tallies counts.new)) }
        ensures fails { Reads A.opens true self.old self.new (C.tallies counts.old) (C.tallies counts.new) }
        ensures goes { TypesSome self.old self.new (C.tallies counts.old) (C.tallies counts.new) }
        ensures counted { Grows (C.tallies counts.old) (C.tallies counts.new) }
    {
        self.read_again(counts)?;
        Ok(Reply::Outline(self.outline(counts)?))
    }

    /// What the text binds.
    pub fn outline<C: Counts>(&self, counts: &mut C) -> Result<Vec<Outlined>, NoMemory>
        ensures said { IfOk result (λ v. OutlineIs self.now.text (outline (outline_of (map outlined_of v.items)))) }
        ensures idle { self.now.changed ≡ None → C.tallies counts.new ≡ C.tallies counts.old }
        ensures counted { Grows (C.tallies counts.old) (C.tallies counts.new) }
    {
        let read = tree_of(self.alloc, &self.kept, counts)?;
        let members = text_queries::outline(self.alloc, &read.get().tree)?;
        shown_outline(self.alloc, self.text(), &members)
    }

    /// The faults of the text.
    fn errors_line<C: Counts>(&mut self, counts: &mut C) -> Line
        ensures says { Says (ErrorsAre self.old.text) result }
        ensures text { self.new.text ≡ self.old.text }
        ensures works { QueryWorks A.opens true TriesNone result self.old self.new (C.tallies counts.old) (C.tallies counts.new) }
        ensures counted { Grows (C.tallies counts.old) (C.tallies counts.new) }
    {
        let reply = self.errors_now(counts);
        line_of(self.alloc, reply)
    }

    /// The faults of the text, what is kept of it brought up to it; the types of a text that is well typed as a plain one aren't found.
    fn errors_now<C: Counts>(&mut self, counts: &mut C) -> Result<Reply, NoMemory>
        ensures said { IfOk result (λ r. ErrorsAre self.old.text (said_of r)) }
        ensures text { self.new.text ≡ self.old.text }
        ensures current { OnOk result (self.new.changed ≡ None) }
        ensures settles { Settles self.old self.new }
        ensures reads { OnOk result (Reads A.opens false self.old self.new (C.tallies counts.old) (C.tallies counts.new)) }
        ensures fails { Reads A.opens true self.old self.new (C.tallies counts.old) (C.tallies counts.new) }
        ensures goes { TypesSome self.old self.new (C.tallies counts.old) (C.tallies counts.new) }
        ensures counted { Grows (C.tallies counts.old) (C.tallies counts.new) }
    {
        self.read_again(counts)?;
        if let Some(reply) = self.plain_errors(counts)? {
            return Ok(reply);
        }
        self.type_again(counts)?;
        self.typed_errors(counts)
    }

    /// The faults of the text, as the page of them that `errors` tells.
    pub fn errors<C: Counts>(&self, counts: &mut C) -> Result<Reply, NoMemory>
        ensures said { IfOk result (λ r. ErrorsAre self.now.text (said_of r)) }
        ensures counted { Grows (C.tallies counts.old) (C.tallies counts.new) }
    {
        match self.plain_errors(counts)? {
            Some(reply) => Ok(reply),
            None => self.typed_errors(counts),
        }
    }

    /// The faults of a text that is well typed as a plain one. None where it isn't.
    fn plain_errors<C: Counts>(&self, counts: &mut C) -> Result<Option<Reply>, NoMemory>
        ensures said { IfOk result (λ o. IfSome o (λ r. ErrorsAre self.now.text (said_of r))) }
        ensures other { IfOk result (λ o. IfNone o (MayBeIllTyped self.now.text)) }
        ensures idle { self.now.changed ≡ None → C.tallies counts.new ≡ C.tallies counts.old }
        ensures counted { Grows (C.tallies counts.old) (C.tallies counts.new) }
    {
        let read = read_text(self.alloc, &self.kept, counts)?;
        if read.is_well_typed {
            Ok(Some(self.page_of(&read.parsed.get().faults, &[])?))
        } else {
            Ok(None)
        }
    }

    /// The faults of a text whose types may be wrong.
    fn typed_errors<C: Counts>(&self, counts: &mut C) -> Result<Reply, NoMemory>
        ensures said { IfOk result (λ r. AreFaultsOf self.now.text (said_of r)) }
        ensures idle { self.now.changed ≡ None → self.now.known ≡ true → C.tallies counts.new ≡ C.tallies counts.old }
        ensures counted { Grows (C.tallies counts.old) (C.tallies counts.new) }
    {
        let read = tree_of(self.alloc, &self.kept, counts)?;
        let parsed = read.get();
        let found = self.typed(&parsed.tree, counts)?;
        self.page_of(&parsed.faults, &found.analysis().faults.list)
    }

    /// The page of the parser's faults and of the typer's.
    fn page_of(&self, parsed: &[SyntaxFault], typed: &[Fault]) -> Result<Reply, NoMemory>
        ensures { IfOk result (λ r. said_of r ≡ faults_said self.now.text (map fault_of parsed.now ++ map by_typer (map typer_fault_of typed.now))) }
    {
        let page = text_queries::errors(self.alloc, parsed, typed)?;
        Ok(Reply::Faults {
            list: shown_faults(self.alloc, self.text(), &page.list)?,
            more: page.more,
        })
    }

    /// How many items and faults the text has, by the query that `errors` makes.
    pub fn sizes<C: Counts>(&self, counts: &mut C) -> Result<Sizes, NoMemory>
        ensures sizes { IfOk result (λ s. SizesAre self.now.text s.items s.faults) }
        ensures counted { Grows (C.tallies counts.old) (C.tallies counts.new) }
    {
        let read = read_text(self.alloc, &self.kept, counts)?;
        let parsed = read.parsed.get();
        if read.is_well_typed {
            return Ok(sizes_of(parsed, 0));
        }
        let typed = self.count_typed(parsed, counts)?;
        Ok(sizes_of(parsed, typed))
    }

    /// How many faults of the typer a parsed text has, its warnings among them.
    fn count_typed<C: Counts>(&self, parsed: &Parsed, counts: &mut C) -> Result<usize, NoMemory>
        requires of_text { AreItemsOf self.now.text (trees_of parsed.now.tree) }
        ensures faults { IfOk result (λ n. (typed : List TyperFault) × (n ≡ length typed)) }
        ensures fits { IfOk result (λ n. n < 2 ^ 63) }
        ensures counted { Grows (C.tallies counts.old) (C.tallies counts.new) }
    {
        let found = self.typed(&parsed.tree, counts)?;
        Ok(found.analysis().faults.list.len())
    }

    /// The types round a position, innermost first.
    fn type_enclosing<C: Counts>(&mut self, at: Pos, counts: &mut C) -> Line
        ensures says { Says (PlacedIs (offset self.old.text at.line at.col) (EnclosingIs self.old.text)) result }
        ensures text { self.new.text ≡ self.old.text }
        ensures works { QueryWorks A.opens (is_some (offset self.old.text at.line at.col)) TriesNone result self.old self.new (C.tallies counts.old) (C.tallies counts.new) }
        ensures counted { Grows (C.tallies counts.old) (C.tallies counts.new) }
    {
        match self.text().offset_of(at) {
            Ok(offset) => {
                let reply = self.enclosing_now(offset, counts);
                line_of(self.alloc, reply)
            }
            Err(_) => error_line(self.alloc, RequestError::BadPosition { key: Key::At }),
        }
    }

    /// The types round an offset, innermost first, what is kept of the text brought up to it; those of a plain text aren't found anew.
    fn enclosing_now<C: Counts>(&mut self, offset: u32, counts: &mut C) -> Result<Reply, NoMemory>
        ensures said { IfOk result (λ r. EnclosingIs self.old.text offset (said_of r)) }
        ensures text { self.new.text ≡ self.old.text }
        ensures current { OnOk result (self.new.changed ≡ None) }
        ensures settles { Settles self.old self.new }
        ensures reads { OnOk result (Reads A.opens false self.old self.new (C.tallies counts.old) (C.tallies counts.new)) }
        ensures fails { Reads A.opens true self.old self.new (C.tallies counts.old) (C.tallies counts.new) }
        ensures goes { TypesSome self.old self.new (C.tallies counts.old) (C.tallies counts.new) }
        ensures counted { Grows (C.tallies counts.old) (C.tallies counts.new) }
    {
        self.read_again(counts)?;
        if let Some(reply) = self.plain_enclosing(offset, counts)? {
            return Ok(reply);
        }
        self.type_again(counts)?;
        self.typed_enclosing(offset, counts)
    }

    /// The types round an offset, innermost first.
    pub fn enclosing<C: Counts>(&self, offset: u32, counts: &mut C) -> Result<Reply, NoMemory>
        ensures said { IfOk result (λ r. EnclosingIs self.now.text offset (said_of r)) }
        ensures counted { Grows (C.tallies counts.old) (C.tallies counts.new) }
    {
        match self.plain_enclosing(offset, counts)? {
            Some(reply) => Ok(reply),
            None => self.typed_enclosing(offset, counts),
        }
    }

    /// The types round an offset of a plain text, innermost first. None where the text isn't plain.
    fn plain_enclosing<C: Counts>(
        &self,
        offset: u32,
        counts: &mut C,
    ) -> Result<Option<Reply>, NoMemory>
        ensures said { IfOk result (λ o. IfSome o (λ r. EnclosingIs self.now.text offset (said_of r))) }
        ensures other { IfOk result (λ o. IfNone o (IsNotPlain self.now.text)) }
        ensures idle { self.now.changed ≡ None → C.tallies counts.new ≡ C.tallies counts.old }
        ensures counted { Grows (C.tallies counts.old) (C.tallies counts.new) }
    {
        let read = read_text(self.alloc, &self.kept, counts)?;
        match &read.plain {
            Some(plain) => Ok(Some(self.plain_types(plain, offset)?)),
            None => Ok(None),
        }
    }

    /// The types round an offset of a text that isn't plain, innermost first.
    fn typed_enclosing<C: Counts>(&self, offset: u32, counts: &mut C) -> Result<Reply, NoMemory>
        ensures said { IfOk result (λ r. AreTypesRound self.now.text offset (said_of r)) }
        ensures idle { self.now.changed ≡ None → self.now.known ≡ true → C.tallies counts.new ≡ C.tallies counts.old }
        ensures counted { Grows (C.tallies counts.old) (C.tallies counts.new) }
    {
        let read = tree_of(self.alloc, &self.kept, counts)?;
        self.types_in(&read.get().tree, offset, counts)
    }

    /// The types round an offset of a plain text, innermost first.
    fn plain_types(&self, plain: &PlainText, offset: u32) -> Result<Reply, NoMemory>
        requires sized { AreItemsSized (trees_of plain.now.tree) }
        requires items { length (trees_of plain.now.tree) < 2 ^ 32 - 1 }
        requires within { AllSeenWithin (length self.now.text) (map seen_of plain.now.seen.items) }
        ensures { IfOk result (λ r. said_of r ≡ types_or_none (typed_among_spec self.now.text (map seen_of plain.now.seen.items) (reverse (nodes_at offset (trees_of plain.now.tree))))) }
    {
        let ids = enclosing(self.alloc, &plain.tree, offset)?;
        Ok(types_reply(typed_among(self.alloc, self.text(), &plain.seen, &ids)?))
    }

    /// The types round an offset of a text with this tree, innermost first.
    fn types_in<C: Counts>(
        &self,
        tree: &Tree,
        offset: u32,
        counts: &mut C,
    ) -> Result<Reply, NoMemory>
        requires of_text { AreItemsOf self.now.text (trees_of tree.now) }
        ensures said { IfOk result (λ r. TypesAre self.now.text offset (trees_of tree.now) (said_of r)) }
        ensures idle { self.now.known ≡ true → C.tallies counts.new ≡ C.tallies counts.old }
        ensures counted { Grows (C.tallies counts.old) (C.tallies counts.new) }
    {
        let found = self.typed(tree, counts)?;
        self.types_of(&asked(tree, &found.analysis()), offset)
    }

    /// The types round an offset by what is asked, innermost first.
    fn types_of(&self, asked: &Asked<'_>, offset: u32) -> Result<Reply, NoMemory>
        ensures { IfOk result (λ r. AreTypesBy self.now.text offset asked.now (said_of r)) }
    {
        match enclosing_types(self.alloc, asked, offset) {
            Ok(types) => Ok(types_reply(shown_types(self.alloc, self.text(), &types)?)),
            Err(fault) => Ok(Reply::Failure(failure_of(fault)?)),
        }
    }
}
