//! Most general typings print alike.

ghost use Rattle.std.specs.Prelude.{ℕ, Bool, List, []};
ghost use Rattle.tree_model.specs.Trees.{Tree};
ghost use Rattle.type_model.specs.Types.{Path, Typ};
ghost use Rattle.signature_model.specs.Declarations.{Name};
ghost use Rattle.signature_model.specs.Entries.{Entry, Environment};
ghost use Rattle.type_print_model.specs.Paths.{Naming};
ghost use Rattle.type_print_model.specs.Printing.{Prints, PrintsTwo};
ghost use Rattle.typing_model.specs.Demands.{Site, Condition};
ghost use Rattle.typing_model.specs.Contexts.{Choice};
ghost use Rattle.typing_model.specs.Typings.{IsMostGeneral, IsPrincipal};
ghost use Rattle.typing_laws.specs.Renaming.{KeepsWeak, AreRenamed};

/// Two most general typings for the same conditions are renamings of each other, by one renaming for all nodes.
pub fn most_general_typings_are_renamed()
    ensures { (kept : Site → Bool) (asked : Choice → List Condition) (types others : ℕ → Typ) → IsMostGeneral kept asked types → IsMostGeneral kept asked others → AreRenamed types others }
{}

/// Renamed types print alike, where the same variables are weak.
pub fn renamed_types_print_alike()
    ensures { (N : Naming Entry) (scope : Environment) (declared : Path → Name) (types others : ℕ → Typ) (r : AreRenamed types others) (weak weaks : List ℕ) (n : ℕ) (shown : List ℕ) →
        KeepsWeak r.forth weak weaks (types n) → Prints N scope declared weak (types n) shown → Prints N scope declared weaks (others n) shown }
{}

/// The two types of a message print as those of another most general typing.
pub fn messages_print_alike()
    ensures { (N : Naming Entry) (scope : Environment) (declared : Path → Name) (types others : ℕ → Typ) → AreRenamed types others → (m n : ℕ) (first second : List ℕ) →
        PrintsTwo N scope declared (types m) (types n) first second → PrintsTwo N scope declared (others m) (others n) first second }
{}

/// The types of a text print alike in all of its principal typings.
pub fn principal_typings_print_alike()
    ensures { (env : Environment) (text : List Tree) (kept : Site → Bool) (types others : ℕ → Typ) → IsPrincipal env text kept types → IsPrincipal env text kept others →
        (N : Naming Entry) (scope : Environment) (declared : Path → Name) (n : ℕ) (shown : List ℕ) → Prints N scope declared [] (types n) shown → Prints N scope declared [] (others n) shown }
{}
