//! What is split.
ghost use Rattle.std.specs.Prelude.{◌≡◌, option_map, option_and_then};
ghost use Rattle.syntax_tree.specs.Names.{row_of};
ghost use Rattle.case_analysis.specs.Splits.{subject_of};

use syntax_tree::RowName;

#[derive(Clone, Copy)]
pub(crate) enum Subject {
    /// e
    Expression,
    /// _
    Any,
    /// x
    Name,
}

/// What is split at a row. None of another pattern.
#[tactic(auto, unfolding(crate::specs::Splits::subject_of, syntax_tree::specs::Names::row_of))]
fn subject_of(row: RowName) -> Option<Subject>
    ensures { result ≡ subject_of (row_of row) }
{
    match row {
        RowName::Pany => Some(Subject::Any),
        RowName::Pname => Some(Subject::Name),
        RowName::Pconst
        | RowName::Pneg
        | RowName::Pcon
        | RowName::Pparen
        | RowName::Plist
        | RowName::Precord
        | RowName::Papp
        | RowName::Pcons
        | RowName::Ptuple
        | RowName::Por
        | RowName::Pas => None,
        _ => Some(Subject::Expression),
    }
}

/// What is split at the row of a node. None of a missing one.
pub(crate) fn subject_at(row: Option<RowName>) -> Option<Subject>
    ensures { result ≡ option_and_then subject_of (option_map row_of row) }
{
    match row {
        Some(row) => subject_of(row),
        None => None,
    }
}
