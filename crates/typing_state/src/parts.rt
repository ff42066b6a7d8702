//! What the typing of a text works on.
ghost use Rattle.std.specs.Prelude.{◌≡◌, ℕ, ◌+◌, ◌*◌, ◌^◌, None, Some, IfOk, OnOk, OnErr};
ghost use Rattle.text_terms.specs.Bytes.{str_bytes};
ghost use Rattle.typed_index.specs.Seen.{seen_at};
ghost use Rattle.typing_state.specs.Fresh.{IsNew};
ghost use Rattle.typing_state.specs.Goes.{Goes, faults_of, OnlyFaults, OnlyIndex, Told};
ghost use Rattle.typing_state.specs.Notes.{Noted, NotedNameless, IsRecorded};

use crate::built_ins::Constants;
use env_table::{Entry, Env, Fault, FaultKind, Faults, Seen};
use owned_lists::push;
use std::alloc::{AllocError, Global};
use std::collections::HashMap;
use std::rc::Rc;
use syntax_tree::{NodeId, Span};
use text_terms::RcStr;
use type_nodes::{NoMemory, NodeRef, Store};
use typed_index::TypedIndex;

/// Whether what is found out is told.
#[derive(Clone, Copy, PartialEq, Eq)]
pub enum Telling {
    /// Faults are reported, and nodes are recorded.
    Aloud,
    /// Only types are made: what is read will be read again.
    Quiet,
}

/// The type variables that are written in an item, by their names. Nothing depends on their order.
#[derive(Drop)]
pub struct Written {
    pub variables: HashMap<String, NodeRef>,
}

/// What typing works on: the store of types, what is recorded for each node, the faults so far, and where it stands.
#[derive(Drop)]
pub struct Parts {
    pub(crate) alloc: Global,
    pub store: Store,
    pub index: TypedIndex<Seen>,
    pub faults: Faults,
    pub written: Written,
    /// The number of the item; 0 is the prelude.
    pub item: u32,
    /// How many `let`s stand round what is typed: new variables have this level.
    pub level: u32,
    pub telling: Telling,
    pub constants: Constants,
}

impl Parts {
    /// A store with the built-in types, and nothing recorded or reported.
    pub fn new(alloc: Global) -> Result<Parts, NoMemory>
        ensures fresh { IfOk result IsNew }
    {
        let mut store = Store::new(alloc);
        let constants = Constants::new(alloc, &mut store)?;
        Ok(Parts {
            alloc,
            store,
            index: TypedIndex::new(alloc),
            faults: Faults {
                list: Vec::new(alloc),
            },
            written: Written {
                variables: HashMap::new(alloc),
            },
            item: 0,
            level: 0,
            telling: Telling::Aloud,
            constants,
        })
    }

    pub fn alloc(&self) -> Global {
        self.alloc
    }

    /// The number of a node of the present item, among those of all items.
    pub fn node_number(&self, number: u32) -> u64
        ensures { result ≡ self.now.item * 2 ^ 32 + number }
    {
        u64::from(self.item) * 4_294_967_296 + u64::from(number)
    }

    /// Records what is seen at a node of the present item. A node is recorded once: where something is recorded for it
    /// already, the call gives up with `NoMemory`, and changes nothing.
    pub fn note(
        &mut self,
        number: u32,
        env: &Env,
        ty: Option<NodeRef>,
        names: Vec<Option<Rc<Entry>>>,
    ) -> Result<(), NoMemory>
        ensures noted { OnOk result (Noted self.old.telling self.old self.new number (record { env = env.now; ty = ty; names = names })) }
        ensures recorded { OnOk result (IsRecorded self.new number) }
        ensures failed { OnErr result ((i p : ℕ) → seen_at self.new.index i p ≡ seen_at self.old.index i p) }
        ensures rest { OnlyIndex self.old self.new }
        ensures goes { Goes self.old self.new }
    {
        if self.telling == Telling::Quiet {
            return Ok(());
        }
        let id = NodeId {
            item: self.item,
            pre: number,
        };
        if self.index.get(id).is_some() {
            return Err(AllocError);
        }
        let env = env.share()?;
        self.index.note(id, Seen { env, ty, names })
    }

    /// Records that a node without names of its own is treated in an environment.
    pub fn note_plain(&mut self, number: u32, env: &Env) -> Result<(), NoMemory>
        ensures noted { OnOk result (NotedNameless self.old self.new number env.now None) }
        ensures recorded { OnOk result (IsRecorded self.new number) }
        ensures failed { OnErr result ((i p : ℕ) → seen_at self.new.index i p ≡ seen_at self.old.index i p) }
        ensures rest { OnlyIndex self.old self.new }
        ensures goes { Goes self.old self.new }
    {
        self.note(number, env, None, Vec::new(self.alloc))
    }

    /// Records the type of a node without names of its own.
    pub fn note_type(&mut self, number: u32, env: &Env, ty: NodeRef) -> Result<(), NoMemory>
        ensures noted { OnOk result (NotedNameless self.old self.new number env.now (Some ty)) }
        ensures recorded { OnOk result (IsRecorded self.new number) }
        ensures failed { OnErr result ((i p : ℕ) → seen_at self.new.index i p ≡ seen_at self.old.index i p) }
        ensures rest { OnlyIndex self.old self.new }
        ensures goes { Goes self.old self.new }
    {
        self.note(number, env, Some(ty), Vec::new(self.alloc))
    }

    /// Reports a fault.
    pub fn report(&mut self, span: Span, kind: FaultKind, message: RcStr) -> Result<(), NoMemory>
        ensures told { OnOk result (Told self.old.telling (faults_of self.old) (faults_of self.new) span kind (str_bytes message)) }
        ensures failed { OnErr result (faults_of self.new ≡ faults_of self.old) }
        ensures rest { OnlyFaults self.old self.new }
        ensures goes { Goes self.old self.new }
    {
        let fault = Fault {
            span,
            kind,
            message,
        };
        match self.telling {
            Telling::Quiet => Ok(()),
            Telling::Aloud => push(&mut self.faults.list, fault),
        }
    }
}
