//! How the parts of a row are typed.
#![tactic(auto, using(typing_state::proofs::Going::goes_trans, typing_state::proofs::Going::goes_refl), unfolding(syntax_tree::specs::Names::row_of))]

ghost use Rattle.std.specs.Prelude.{◌≡◌};
ghost use Rattle.syntax_tree.specs.Names.{row_of};
ghost use Rattle.expression_steps.specs.Forms.{form_of};

use syntax_tree::RowName;

/// How the parts of a row are typed.
#[derive(Clone, Copy, PartialEq, Eq)]
pub enum RowForm {
    /// A name, a constant or a hole: a row without parts.
    Leaf,
    Application,
    /// An operator with its arguments.
    Operation,
    /// A minus, which may stand over a numeral with a point.
    Minus,
    Record,
    Let,
    /// `match` or `try`.
    Match,
    /// `function`.
    Cases,
    /// `fun`.
    Function,
    Parenthesised,
    /// A field that is set.
    Set,
    /// `for`.
    Loop,
    /// Parts in order, with demands between and behind them.
    Plain,
}

/// The form of a row.
pub fn form_of(row: RowName) -> RowForm
    ensures { result ≡ form_of (row_of row) }
{
    match row {
        RowName::Name | RowName::Econ | RowName::Epath | RowName::Econst | RowName::Hole => {
            RowForm::Leaf
        }
        RowName::Eapp => RowForm::Application,
        RowName::Prefix | RowName::Infix => RowForm::Operation,
        RowName::Eneg => RowForm::Minus,
        RowName::Erecord => RowForm::Record,
        RowName::Elet => RowForm::Let,
        RowName::Ematch | RowName::Etry => RowForm::Match,
        RowName::Efunction => RowForm::Cases,
        RowName::Efun => RowForm::Function,
        RowName::Eparen => RowForm::Parenthesised,
        RowName::Eset => RowForm::Set,
        RowName::Efor => RowForm::Loop,
        _ => RowForm::Plain,
    }
}
