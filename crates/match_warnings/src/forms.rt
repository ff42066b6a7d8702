//! The forms of patterns.
ghost use Rattle.std.specs.Prelude.{◌≡◌};
ghost use Rattle.syntax_tree.specs.Names.{kind_of, row_of};
ghost use Rattle.match_warnings.specs.Forms.{constant_of, form_of, is_bracketed, matches_any};

use syntax_tree::{RowName, TokenKind};

/// The form of a pattern, as far as rows of a match see it.
#[derive(Clone, Copy)]
pub enum Form {
    /// x
    Name,
    /// _
    Wildcard,
    /// 1, "a", true
    Constant,
    /// - 1
    Negative,
    /// { l = p; _ }
    Record,
    /// A, M.A
    Bare,
    /// Patterns are its parts.
    Over(Compound),
}

/// The form of a pattern whose parts are patterns.
#[derive(Clone, Copy)]
pub enum Compound {
    /// A p
    Applied,
    /// [ p; p ]
    List,
    /// p :: p
    Cons,
    /// p, p
    Tuple,
    /// p | p
    Either,
    /// ( p ), ( p : t )
    Bracketed,
    /// p as x; rows that are no patterns
    Other,
}

/// The form of a row.
#[tactic(auto, unfolding(syntax_tree::specs::Names::row_of, crate::specs::Forms::form_of))]
pub fn form_of(row: RowName) -> Form
    ensures { result ≡ form_of (row_of row) }
{
    match row {
        RowName::Pname => Form::Name,
        RowName::Pany => Form::Wildcard,
        RowName::Pconst => Form::Constant,
        RowName::Pneg => Form::Negative,
        RowName::Precord => Form::Record,
        RowName::Pcon => Form::Bare,
        RowName::Papp => Form::Over(Compound::Applied),
        RowName::Plist => Form::Over(Compound::List),
        RowName::Pcons => Form::Over(Compound::Cons),
        RowName::Ptuple => Form::Over(Compound::Tuple),
        RowName::Por => Form::Over(Compound::Either),
        RowName::Pparen => Form::Over(Compound::Bracketed),
        _ => Form::Over(Compound::Other),
    }
}

/// Whether a pattern of a form matches any value, wherever it is there.
pub fn matches_any(form: Form) -> bool
    ensures { result ≡ matches_any form }
{
    match form {
        Form::Name => true,
        Form::Wildcard => true,
        Form::Constant => false,
        Form::Negative => false,
        Form::Record => false,
        Form::Bare => false,
        Form::Over(_) => false,
    }
}

/// Whether the parts of a pattern that are patterns are those in its slot 1.
pub fn is_bracketed(form: Compound) -> bool
    ensures { result ≡ is_bracketed form }
{
    match form {
        Compound::Applied | Compound::List | Compound::Bracketed => true,
        _ => false,
    }
}

/// What a constant is.
#[derive(Clone, Copy)]
pub enum Constant {
    /// ()
    Unit,
    /// true
    True,
    /// false
    False,
    /// []
    Nil,
    /// 1, "a"
    Literal,
}

/// What a constant of a kind is.
#[tactic(auto, unfolding(syntax_tree::specs::Names::kind_of, crate::specs::Forms::constant_of))]
pub fn constant_of(kind: TokenKind) -> Constant
    ensures { result ≡ constant_of (kind_of kind) }
{
    match kind {
        TokenKind::Unit => Constant::Unit,
        TokenKind::True => Constant::True,
        TokenKind::False => Constant::False,
        TokenKind::Nil => Constant::Nil,
        _ => Constant::Literal,
    }
}
