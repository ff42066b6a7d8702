//! Demands: each is kept, or reported with its one fault.
ghost use Rattle.std.specs.Prelude.{◌≡◌, IfOk, OnOk, OnErr};
ghost use Rattle.text_terms.specs.Bytes.{str_bytes};
ghost use Rattle.type_nodes.specs.Nodes.{IsNode};
ghost use Rattle.type_nodes.specs.States.{Keeps};
ghost use Rattle.level_unify.specs.Messages.{ending_text, equal_text};
ghost use Rattle.type_print.specs.Texts.{ShowTwo};
ghost use Rattle.env_table.specs.declared.faults.FaultKind.{FaultKind};
ghost use Rattle.typing_state.specs.Goes.{Goes, faults_of, OnlyFaults, OnlyStoreAndFaults, Told};
ghost use Rattle.typing_state.specs.Messages.{unbound_text, twice_text, one_side_text, incomplete_text, not_mutable_text, cyclic_text, differs_text, no_label_text, too_large_text};
ghost use Rattle.typing_state.specs.Demands.{DiffersBy, EqualIs, ArityIs};

use crate::messages::{Word, message};
use crate::nodes::is_node;
use crate::parts::Parts;
use env_table::{Env, FaultKind};
use level_unify::{ClashKind, UnifyFault};
use std::alloc::AllocError;
use syntax_tree::Span;
use text_terms::RcStr;
use type_nodes::{NoMemory, NodeRef};
use type_print::print_two;

/// What comes of a demand.
#[derive(Clone, Copy, PartialEq, Eq)]
pub enum Verdict {
    Kept,
    /// It isn't kept: its fault is among the faults, and the store is as before.
    Reported,
}

/// What stands behind the message of two types that differ.
fn ending(kind: ClashKind) -> &'static str
    ensures { result.now ≡ ending_text kind }
{
    match kind {
        ClashKind::Shape => "",
        ClashKind::Cycle => ", which would contain itself",
        ClashKind::Scope => ", in which a later type may not stand",
    }
}

impl Parts {
    /// The demand that a found type is the wanted one.
    pub fn equal(
        &mut self,
        at: Span,
        found: NodeRef,
        wanted: NodeRef,
        env: &Env,
    ) -> Result<Verdict, NoMemory>
        ensures verdict { IfOk result (λ v. EqualIs v self.old self.new at found wanted env.now) }
        ensures store { OnErr result (self.new.store ≡ self.old.store) }
        ensures faults { OnErr result (faults_of self.new ≡ faults_of self.old) }
        ensures keeps { Keeps self.old.store self.new.store }
        ensures rest { OnlyStoreAndFaults self.old self.new }
        ensures goes { Goes self.old self.new }
    {
        match self.unify(found, wanted) {
            Ok(()) => {
                // the store is sound, as its length makes known
                let _nodes = self.store.len();
                Ok(Verdict::Kept)
            }
            Err(UnifyFault::NoMemory) => Err(AllocError),
            Err(UnifyFault::Clash(clash)) => {
                self.differ(at, found, wanted, clash.kind, env)?;
                Ok(Verdict::Reported)
            }
        }
    }

    /// The texts of two types.
    fn shown_two(
        &self,
        first: NodeRef,
        second: NodeRef,
        env: &Env,
    ) -> Result<(RcStr, RcStr), NoMemory>
        ensures { IfOk result (λ r. IsNode self.now.store.nodes first.0 → IsNode self.now.store.nodes second.0 → ShowTwo self.now.store.nodes env.now first.0 second.0 (str_bytes r.0) (str_bytes r.1)) }
    {
        if is_node(&self.store, first) && is_node(&self.store, second) {
            return print_two(self.alloc, &self.store, first, second, env);
        }
        Ok((
            RcStr::from_str(self.alloc, "'a")?,
            RcStr::from_str(self.alloc, "'b")?,
        ))
    }

    fn differ(
        &mut self,
        at: Span,
        found: NodeRef,
        wanted: NodeRef,
        kind: ClashKind,
        env: &Env,
    ) -> Result<(), NoMemory>
        ensures told { OnOk result (IsNode self.old.store.nodes found.0 → IsNode self.old.store.nodes wanted.0 → DiffersBy self.old self.new at found wanted kind env.now) }
        ensures failed { OnErr result (faults_of self.new ≡ faults_of self.old) }
        ensures rest { OnlyFaults self.old self.new }
        ensures goes { Goes self.old self.new }
    {
        let (found, wanted) = self.shown_two(found, wanted, env)?;
        let found = found.as_str();
        let wanted = wanted.as_str();
        self.tell_two(at, found, wanted, kind)
    }

    fn tell_two(
        &mut self,
        at: Span,
        found: &str,
        wanted: &str,
        kind: ClashKind,
    ) -> Result<(), NoMemory>
        ensures told { OnOk result (Told self.old.telling (faults_of self.old) (faults_of self.new) at FaultKind.Equal (equal_text found.now wanted.now kind)) }
        ensures failed { OnErr result (faults_of self.new ≡ faults_of self.old) }
        ensures rest { OnlyFaults self.old self.new }
        ensures goes { Goes self.old self.new }
    {
        let end = ending(kind);
        let text = format!(in self.alloc; "This has type {found} but type {wanted} is wanted{end}");
        let text = message(text, self.alloc)?;
        self.report(at, FaultKind::Equal, text)
    }

    /// A name isn't bound.
    pub fn unbound(&mut self, at: Span, word: Word, name: &str) -> Result<(), NoMemory>
        ensures told { OnOk result (Told self.old.telling (faults_of self.old) (faults_of self.new) at FaultKind.Bound (unbound_text word name.now)) }
        ensures failed { OnErr result (faults_of self.new ≡ faults_of self.old) }
        ensures rest { OnlyFaults self.old self.new }
        ensures goes { Goes self.old self.new }
    {
        let word = word.text();
        let text = message(format!(in self.alloc; "Unbound {word} {name}"), self.alloc)?;
        self.report(at, FaultKind::Bound, text)
    }

    /// The demand that as many arguments are given as a name takes.
    pub fn arity(
        &mut self,
        at: Span,
        name: &str,
        taken: usize,
        given: usize,
    ) -> Result<Verdict, NoMemory>
        ensures verdict { IfOk result (λ v. ArityIs v self.old self.new at name.now taken given) }
        ensures failed { OnErr result (faults_of self.new ≡ faults_of self.old) }
        ensures rest { OnlyFaults self.old self.new }
        ensures goes { Goes self.old self.new }
    {
        if taken == given {
            return Ok(Verdict::Kept);
        }
        let text = format!(in self.alloc; "{name} takes {taken} arguments but {given} are given");
        let text = message(text, self.alloc)?;
        self.report(at, FaultKind::Arity, text)?;
        Ok(Verdict::Reported)
    }

    /// A name is defined twice.
    pub fn twice(&mut self, at: Span, name: &str) -> Result<(), NoMemory>
        ensures told { OnOk result (Told self.old.telling (faults_of self.old) (faults_of self.new) at FaultKind.Unique (twice_text name.now)) }
        ensures failed { OnErr result (faults_of self.new ≡ faults_of self.old) }
        ensures rest { OnlyFaults self.old self.new }
        ensures goes { Goes self.old self.new }
    {
        let text = message(
            format!(in self.alloc; "{name} is defined twice"),
            self.alloc,
        )?;
        self.report(at, FaultKind::Unique, text)
    }

    /// A name of an or-pattern is bound on one side only.
    pub fn one_side(&mut self, at: Span, name: &str) -> Result<(), NoMemory>
        ensures told { OnOk result (Told self.old.telling (faults_of self.old) (faults_of self.new) at FaultKind.Sides (one_side_text name.now)) }
        ensures failed { OnErr result (faults_of self.new ≡ faults_of self.old) }
        ensures rest { OnlyFaults self.old self.new }
        ensures goes { Goes self.old self.new }
    {
        let text = message(
            format!(in self.alloc; "{name} is bound on one side only"),
            self.alloc,
        )?;
        self.report(at, FaultKind::Sides, text)
    }

    /// The field of a record isn't written.
    pub fn incomplete(&mut self, at: Span, name: &str) -> Result<(), NoMemory>
        ensures told { OnOk result (Told self.old.telling (faults_of self.old) (faults_of self.new) at FaultKind.Complete (incomplete_text name.now)) }
        ensures failed { OnErr result (faults_of self.new ≡ faults_of self.old) }
        ensures rest { OnlyFaults self.old self.new }
        ensures goes { Goes self.old self.new }
    {
        let text = message(
            format!(in self.alloc; "The field {name} is absent"),
            self.alloc,
        )?;
        self.report(at, FaultKind::Complete, text)
    }

    /// A field that is set isn't mutable.
    pub fn not_mutable(&mut self, at: Span, name: &str) -> Result<(), NoMemory>
        ensures told { OnOk result (Told self.old.telling (faults_of self.old) (faults_of self.new) at FaultKind.Mutable (not_mutable_text name.now)) }
        ensures failed { OnErr result (faults_of self.new ≡ faults_of self.old) }
        ensures rest { OnlyFaults self.old self.new }
        ensures goes { Goes self.old self.new }
    {
        let text = message(
            format!(in self.alloc; "The field {name} is not mutable"),
            self.alloc,
        )?;
        self.report(at, FaultKind::Mutable, text)
    }

    /// An abbreviation contains itself.
    pub fn cyclic(&mut self, at: Span, name: &str) -> Result<(), NoMemory>
        ensures told { OnOk result (Told self.old.telling (faults_of self.old) (faults_of self.new) at FaultKind.Cycle (cyclic_text name.now)) }
        ensures failed { OnErr result (faults_of self.new ≡ faults_of self.old) }
        ensures rest { OnlyFaults self.old self.new }
        ensures goes { Goes self.old self.new }
    {
        let text = message(
            format!(in self.alloc; "The definition of {name} contains itself"),
            self.alloc,
        )?;
        self.report(at, FaultKind::Cycle, text)
    }

    /// A re-export doesn't tell the same as the type that it names.
    pub fn differs_from(&mut self, at: Span, name: &str) -> Result<(), NoMemory>
        ensures told { OnOk result (Told self.old.telling (faults_of self.old) (faults_of self.new) at FaultKind.Reexport (differs_text name.now)) }
        ensures failed { OnErr result (faults_of self.new ≡ faults_of self.old) }
        ensures rest { OnlyFaults self.old self.new }
        ensures goes { Goes self.old self.new }
    {
        let text = message(
            format!(in self.alloc; "This definition differs from that of {name}"),
            self.alloc,
        )?;
        self.report(at, FaultKind::Reexport, text)
    }

    /// The first part of a record is no label.
    pub fn no_label(&mut self, at: Span) -> Result<(), NoMemory>
        ensures told { OnOk result (Told self.old.telling (faults_of self.old) (faults_of self.new) at FaultKind.Label (no_label_text)) }
        ensures failed { OnErr result (faults_of self.new ≡ faults_of self.old) }
        ensures rest { OnlyFaults self.old self.new }
        ensures goes { Goes self.old self.new }
    {
        let text = message(format!(in self.alloc; "A label is wanted here"), self.alloc)?;
        self.report(at, FaultKind::Label, text)
    }

    /// An integer is out of range.
    pub fn too_large(&mut self, at: Span) -> Result<(), NoMemory>
        ensures told { OnOk result (Told self.old.telling (faults_of self.old) (faults_of self.new) at FaultKind.Range (too_large_text)) }
        ensures failed { OnErr result (faults_of self.new ≡ faults_of self.old) }
        ensures rest { OnlyFaults self.old self.new }
        ensures goes { Goes self.old self.new }
    {
        let text = message(
            format!(in self.alloc; "This integer is too large"),
            self.alloc,
        )?;
        self.report(at, FaultKind::Range, text)
    }
}
