//! The built-in types.
ghost use Rattle.std.specs.Prelude.{◌≡◌, [], ◌∷◌, IfOk};
ghost use Rattle.text_terms.specs.Bytes.{str_bytes};
ghost use Rattle.typing_state.specs.BuiltIns.{number_of, name_of, first_of};
ghost use Rattle.typing_state.specs.Fresh.{MakesConstant, MakesConstants};

use std::alloc::Global;
use text_terms::RcStr;
use type_nodes::{NoMemory, NodeRef, Origin, Store};

/// The built-in types, in the order of their numbers.
#[derive(Clone, Copy)]
pub enum BuiltIn {
    Int,
    Char,
    Str,
    Float,
    Unit,
    Bool,
    Exn,
    List,
}

impl BuiltIn {
    /// All of them.
    pub const ALL: [BuiltIn; 8] = [
        BuiltIn::Int,
        BuiltIn::Char,
        BuiltIn::Str,
        BuiltIn::Float,
        BuiltIn::Unit,
        BuiltIn::Bool,
        BuiltIn::Exn,
        BuiltIn::List,
    ];

    /// Its number, from 0.
    pub fn number(self) -> u32
        ensures { result ≡ number_of self }
    {
        match self {
            BuiltIn::Int => 0,
            BuiltIn::Char => 1,
            BuiltIn::Str => 2,
            BuiltIn::Float => 3,
            BuiltIn::Unit => 4,
            BuiltIn::Bool => 5,
            BuiltIn::Exn => 6,
            BuiltIn::List => 7,
        }
    }

    pub fn name(self) -> &'static str
        ensures { result.now ≡ name_of self }
    {
        match self {
            BuiltIn::Int => "int",
            BuiltIn::Char => "char",
            BuiltIn::Str => "string",
            BuiltIn::Float => "float",
            BuiltIn::Unit => "unit",
            BuiltIn::Bool => "bool",
            BuiltIn::Exn => "exn",
            BuiltIn::List => "list",
        }
    }

    /// How many parameters it has.
    pub fn arity(self) -> u32 {
        match self {
            BuiltIn::List => 1,
            _ => 0,
        }
    }

    /// The path of its origin: the number 2^64 - 1 - k.
    pub fn path(self) -> u64
        ensures { result ≡ first_of self }
    {
        18_446_744_073_709_551_615 - u64::from(self.number())
    }

    /// Its origin. Built-in types were made before everything.
    pub fn origin(self, alloc: Global) -> Result<Origin, NoMemory>
        ensures path { IfOk result (λ o. o.path.items ≡ first_of self ∷ []) }
        ensures name { IfOk result (λ o. str_bytes o.name ≡ name_of self) }
    {
        Ok(Origin {
            path: vec![in alloc; self.path()]?,
            name: RcStr::from_str(alloc, self.name())?,
        })
    }
}

/// The nodes of the built-in types without parameters, which all uses share.
#[derive(Clone, Copy, Drop)]
pub struct Constants {
    pub int: NodeRef,
    pub char: NodeRef,
    pub string: NodeRef,
    pub float: NodeRef,
    pub unit: NodeRef,
    pub bool: NodeRef,
    pub exn: NodeRef,
}

fn constant(alloc: Global, store: &mut Store, which: BuiltIn) -> Result<NodeRef, NoMemory>
    ensures { IfOk result (λ n. MakesConstant which store.old store.new n.0) }
{
    store.con(&which.origin(alloc)?, &[])
}

impl Constants {
    /// New nodes in a store.
    pub fn new(alloc: Global, store: &mut Store) -> Result<Constants, NoMemory>
        ensures made { IfOk result (λ k. MakesConstants store.old store.new k) }
    {
        Ok(Constants {
            int: constant(alloc, store, BuiltIn::Int)?,
            char: constant(alloc, store, BuiltIn::Char)?,
            string: constant(alloc, store, BuiltIn::Str)?,
            float: constant(alloc, store, BuiltIn::Float)?,
            unit: constant(alloc, store, BuiltIn::Unit)?,
            bool: constant(alloc, store, BuiltIn::Bool)?,
            exn: constant(alloc, store, BuiltIn::Exn)?,
        })
    }
}
