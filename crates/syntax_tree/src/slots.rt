//! Which slots of a row take operands.
ghost use Rattle.std.specs.Prelude.{◌≡◌};
ghost use Rattle.tree_model.specs.Slots.{is_operand, missing_size};
ghost use Rattle.syntax_tree.specs.Names.{row_of};

use crate::RowName;

/// Whether the slot of a row takes an operand; else it takes a token, or the row has no such slot.
#[tactic(auto, unfolding(tree_model::specs::Slots::is_operand, crate::specs::Names::row_of))]
pub fn is_operand(row: RowName, slot: u8) -> bool
    ensures { result ≡ is_operand (row_of row) slot }
{
    match row {
        RowName::Open
        | RowName::Include
        | RowName::Break
        | RowName::Head
        | RowName::Tvar
        | RowName::Tcon
        | RowName::Pname
        | RowName::Pany
        | RowName::Pconst
        | RowName::Pneg
        | RowName::Pcon
        | RowName::Name
        | RowName::Econ
        | RowName::Epath
        | RowName::Econst
        | RowName::Hole
        | RowName::Mpath
        | RowName::Ypath => false,
        RowName::Program | RowName::Tapp | RowName::Pas | RowName::Field => slot == 0,
        RowName::Exception
        | RowName::Variant
        | RowName::Record
        | RowName::Tparen
        | RowName::Plist
        | RowName::Precord
        | RowName::Ebegin
        | RowName::Elist
        | RowName::Prefix
        | RowName::Eassert
        | RowName::Eneg
        | RowName::Mstruct
        | RowName::Ysig
        | RowName::Yparen => slot == 1,
        RowName::Let | RowName::TypeRow | RowName::Con => slot == 2,
        RowName::Modtype | RowName::Val | RowName::LabelRow | RowName::Qfield | RowName::Ffield =>
            slot == 3,
        RowName::Efunction => slot == 4,
        RowName::Papp | RowName::Eapp => matches!(slot, 0 | 1),
        RowName::Decl
        | RowName::Alias
        | RowName::Ttuple
        | RowName::Tarrow
        | RowName::Pcons
        | RowName::Ptuple
        | RowName::Por
        | RowName::Infix
        | RowName::Econs
        | RowName::Etuple
        | RowName::Eset
        | RowName::Eseq
        | RowName::Ywith => matches!(slot, 0 | 2),
        RowName::WithRow
        | RowName::Pparen
        | RowName::Eparen
        | RowName::Ewhile
        | RowName::Efun
        | RowName::Mparen => matches!(slot, 1 | 3),
        RowName::Ematch | RowName::Etry => matches!(slot, 1 | 4),
        RowName::Elet => matches!(slot, 2 | 5),
        RowName::Mfunctor | RowName::Yfunctor => matches!(slot, 4 | 7),
        RowName::Gmodule => matches!(slot, 5 | 8),
        RowName::Case | RowName::Mapp => matches!(slot, 0 | 2 | 4),
        RowName::Erecord | RowName::Eif => matches!(slot, 1 | 3 | 5),
        RowName::Efor => matches!(slot, 3 | 5 | 7),
        RowName::Module => matches!(slot, 5 | 8 | 10),
        RowName::Binding => matches!(slot, 0 | 1 | 3 | 5),
    }
}

/// How many numbers a missing part has: an operand one, a token none.
pub(crate) fn missing_size(row: RowName, slot: u8) -> u32
    ensures { result ≡ missing_size (row_of row) slot }
{
    if is_operand(row, slot) { 1 } else { 0 }
}
