//! The types of patterns and of shapes, and nothing else.
use std::rc::Rc;
use text_terms::RcStr;

/// A constructor of a type, and how many parts it has. A record is the one constructor of its type: its name is its labels in
/// the order of the declaration, joined by `; `, in braces, and it has one part a label.
#[derive(Drop)]
pub struct Built {
    pub name: RcStr,
    pub parts: usize,
}

/// A pattern, with what its type says of the constructors in it.
#[derive(Drop)]
pub enum Pat {
    /// x, _
    Any,
    /// A p, p :: p, { l = p }. Here `all` are the constructors of the type in the order of the declaration;
    /// it is empty where no patterns have all of them, as in `exn`.
    Con {
        all: Rc<Vec<Built>>,
        name: RcStr,
        parts: Vec<Pat>,
    },
    /// 1, "a": its spelling
    Literal(RcStr),
    /// p | p
    Either(Vec<Pat>),
}

/// The patterns of the columns, and whether a guard stands behind them.
#[derive(Drop)]
pub struct PatRow {
    pub pats: Vec<Pat>,
    pub guarded: bool,
}

/// Rows in their order.
#[derive(Drop)]
pub struct Matrix {
    pub rows: Vec<PatRow>,
}

/// A set of values, told as a pattern.
#[derive(Drop)]
pub enum Shape {
    /// _
    Any,
    /// A s, s :: s, { l = s }
    Con(RcStr, Vec<Shape>),
    /// (s, s)
    Tuple(Vec<Shape>),
    /// 1, "a"
    Literal(RcStr),
}

/// The name of a tuple as the one constructor of its type.
pub(crate) const TUPLE: &str = "(,)";
