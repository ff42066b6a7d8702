//! What the rows tell of names: which items bind some, and in which slots they stand.
ghost use Rattle.std.specs.Prelude.{◌≡◌, option_map};
ghost use Rattle.query_model.specs.Outlines as model;
ghost use Rattle.syntax_tree.specs.Names.{row_of};
ghost use Rattle.query_engine.specs.View.{binder_of};

use syntax_tree::RowName;

/// What a name of an outline stands for.
#[derive(Clone, Copy, Debug, PartialEq, Eq)]
pub enum OutlineKind {
    /// let x = e
    Value,
    /// type t = r
    TypeName,
    /// exception A
    Exception,
    /// module M = m
    Module,
    /// module type S = y
    ModuleType,
}

/// What an item binds, and the way of slots that leads to the names.
#[derive(Clone, Copy)]
pub struct Binder {
    pub kind: OutlineKind,
    pub way: &'static [u8],
}

/// What an item of a row binds. None where it binds nothing.
#[tactic(auto, unfolding(query_model::specs::Outlines::binder, syntax_tree::specs::Names::row_of))]
pub fn binder_for(row: RowName) -> Option<Binder>
    ensures { option_map binder_of result ≡ model.binder (row_of row) }
{
    let (kind, way): (OutlineKind, &'static [u8]) = match row {
        RowName::Let => (OutlineKind::Value, &[2, 0]),
        RowName::TypeRow => (OutlineKind::TypeName, &[2, 0, 4]),
        RowName::Exception => (OutlineKind::Exception, &[1, 0]),
        RowName::Module => (OutlineKind::Module, &[1]),
        RowName::Modtype => (OutlineKind::ModuleType, &[1]),
        _ => return None,
    };
    Some(Binder { kind, way })
}

/// The slot of the part in which members inside are looked for. None where there are none inside.
#[tactic(auto, unfolding(query_model::specs::Outlines::inner_slot, syntax_tree::specs::Names::row_of))]
pub fn inner_slot(row: RowName) -> Option<u8>
    ensures { result ≡ model.inner_slot (row_of row) }
{
    match row {
        RowName::Module => Some(10),
        RowName::Mparen => Some(1),
        RowName::Mfunctor => Some(7),
        RowName::Mstruct => Some(1),
        _ => None,
    }
}

/// The slot of a pattern's token that is a name. A field's label is one where no pattern stands behind it.
#[tactic(auto, unfolding(query_model::specs::Outlines::name_slot, syntax_tree::specs::Names::row_of))]
pub(crate) fn name_slot(row: RowName, with_pattern: bool) -> Option<u8>
    ensures { result ≡ model.name_slot (row_of row) with_pattern }
{
    match row {
        RowName::Pname => Some(0),
        RowName::Pas => Some(2),
        RowName::Qfield if !with_pattern => Some(1),
        _ => None,
    }
}

/// Whether the patterns in a slot bind names: of an or-pattern those of the first side alone.
#[tactic(auto, unfolding(query_model::specs::Outlines::binds_in, syntax_tree::specs::Names::row_of))]
pub(crate) fn binds_in(row: RowName, slot: u8) -> bool
    ensures { result ≡ model.binds_in (row_of row) slot }
{
    match row {
        RowName::Por => slot == 0,
        _ => true,
    }
}
