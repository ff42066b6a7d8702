//! Entries: what a name stands for, and where it is defined.
use std::rc::Rc;
use text_terms::{RcStr, Span};
use type_nodes::{NodeRef, Origin};

/// The kinds of names. The kind of a type is printed as `Type`.
#[derive(Clone, Copy, Debug, PartialEq, Eq)]
pub enum Kind {
    Value,
    Constructor,
    Label,
    TypeName,
    Module,
    ModuleType,
}

/// Where a name is defined: at a span of the text, at one of the prelude, or as the built-in type of a number.
#[derive(Clone, Copy, Debug, PartialEq, Eq)]
pub enum Place {
    Buffer(Span),
    Prelude(Span),
    BuiltIn(u32),
}

/// `M.N.x`: the names of modules, and the last name.
#[derive(Drop)]
pub struct Path {
    pub modules: Vec<RcStr>,
    pub last: RcStr,
}

/// `A`, `A of t`
#[derive(Drop)]
pub struct Constructor {
    pub name: RcStr,
    /// The node of the type from the argument to the result, or of the result alone.
    pub root: NodeRef,
    pub has_argument: bool,
}

/// `l : t`, `mutable l : t`
#[derive(Drop)]
pub struct Label {
    pub name: RcStr,
    /// The node of the type from the record to the field.
    pub root: NodeRef,
    pub is_mutable: bool,
}

/// What a declaration tells of its values.
#[derive(Drop)]
pub enum Shape {
    Opaque,
    Variant(Vec<Constructor>),
    Labels(Vec<Label>),
}

/// `('a, 'b) t = ..`
#[derive(Drop)]
pub struct Declaration {
    /// How many parameters it has.
    pub arity: u32,
    /// The origin that it makes; None where it is another type.
    pub origin: Option<Origin>,
    /// The origin of the type that it defines, where that is a constructor.
    pub defines: Option<Origin>,
    /// The node of the tuple of its parameters and its type; without parameters the type alone.
    pub root: NodeRef,
    pub shape: Shape,
}

/// What a name stands for.
#[cycle(entries)]
#[derive(Drop)]
pub enum What {
    /// x: the root of its scheme, whose bound variables are the scheme's own
    Scheme(NodeRef),
    /// A: the declaration that has it, and its place there
    Constructor(Rc<Declaration>, u32),
    /// A, an exception
    Exception(Rc<Constructor>),
    /// l: the declaration that has it, and its place there
    Label(Rc<Declaration>, u32),
    /// t
    Type(Rc<Declaration>),
    /// M
    Module(Rc<Sig>),
    /// S
    ModuleType(Rc<Template>),
}

/// A name in scope.
#[cycle(entries)]
#[derive(Drop)]
pub struct Entry {
    pub name: RcStr,
    pub kind: Kind,
    pub place: Place,
    pub what: What,
}

/// The entries of a structure's components in order, the oldest first: a type's name stands before its constructors or labels.
#[cycle(entries)]
#[derive(Drop)]
pub struct Components {
    pub entries: Vec<Rc<Entry>>,
}

/// What is known of a module.
#[cycle(entries)]
#[derive(Drop)]
pub enum Sig {
    /// sig .. end
    Structure(Components),
    /// functor (X : P) -> B: the parameter made at its node, and the body with the origins that an application makes anew
    Functor(Rc<Template>, Rc<Template>),
    /// of a module that isn't known
    Hole,
}

/// A signature with the origins that it makes anew at each place where it is used.
#[cycle(entries)]
#[derive(Drop)]
pub struct Template {
    pub made: Vec<Origin>,
    pub sig: Rc<Sig>,
}

/// What a name comes to.
#[derive(Clone, Copy)]
pub enum Found<'a> {
    Entry(&'a Rc<Entry>),
    /// It stands in a module that isn't known, and may be anything.
    Hole,
    Nothing,
}
