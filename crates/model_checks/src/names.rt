//! What names come to: in scope, as labels, as numerals, as schemes.

ghost use Rattle.std.specs.Prelude.{◌≡◌, ℕ, true, false, List, [], ◌∷◌, codes};
ghost use Rattle.type_model.specs.Types.{Var, Arrow};
ghost use Rattle.type_model.specs.Schemes.{HasInstance};
ghost use Rattle.signature_model.specs.Declarations.{Own};
ghost use Rattle.signature_model.specs.Entries.{value_kind, module_kind, entry, a_label, a_value};
ghost use Rattle.signature_model.specs.Lookups.{lookup, an_entry, a_hole, nothing};
ghost use Rattle.signature_model.specs.Records.{record_of};
ghost use Rattle.type_print_model.specs.Paths.{IsNameOf, naming};
ghost use Rattle.typing_model.specs.BuiltIns.{in_range, int_type, string_type};
ghost use Rattle.typing_model.specs.Contexts.{generalised_in};
ghost use Rattle.model_checks.specs.Signatures.{somewhere};
ghost use Rattle.model_checks.specs.Scopes.{one_value, scope, records, record_at, label, written, shown_scope};

/// The newest of two names is found; a name in a module by its path; in a module that isn't known any name is a hole.
pub fn names_in_scope()
    ensures newest { lookup scope [] value_kind (codes "x") ≡ an_entry (one_value (codes "x") string_type) }
    ensures inside { lookup scope (codes "M" ∷ []) value_kind (codes "y") ≡ an_entry (one_value (codes "y") int_type) }
    ensures hole { lookup scope (codes "U" ∷ codes "N" ∷ []) value_kind (codes "z") ≡ a_hole }
    ensures absent { lookup scope (codes "M" ∷ []) value_kind (codes "x") ≡ nothing }
    ensures no_module { lookup scope (codes "x" ∷ []) value_kind (codes "y") ≡ nothing }
{}

/// One label finds the newest record type that has it; two labels the newest that has both.
pub fn records_by_their_labels()
    ensures one_label { record_of records (written (codes "a") ∷ []) ≡ an_entry (entry (codes "a") somewhere (a_label (record_at 2) (label (codes "a")))) }
    ensures two_labels { record_of records (written (codes "a") ∷ written (codes "b") ∷ []) ≡ an_entry (entry (codes "a") somewhere (a_label (record_at 1) (label (codes "a")))) }
    ensures no_label { record_of records [] ≡ an_entry (entry (codes "a") somewhere (a_label (record_at 2) (label (codes "a")))) }
    ensures absent { record_of records (written (codes "a") ∷ written (codes "c") ∷ []) ≡ nothing }
{}

/// The range of integers: 2^62 - 1, one more directly under a minus, and 2^63 - 1 in another base.
pub fn ranges_of_integers()
    ensures largest { (in_range false (codes "4611686018427387903") ≡ true) × (in_range false (codes "4611686018427387904") ≡ false) }
    ensures under_a_minus { (in_range true (codes "4611686018427387904") ≡ true) × (in_range true (codes "4611686018427387905") ≡ false) }
    ensures hexadecimal { (in_range false (codes "0x7fff_ffff_FFFF_FFFF") ≡ true) × (in_range true (codes "0x8000000000000000") ≡ false) }
    ensures octal_and_binary { (in_range false (codes "0o777777777777777777777") ≡ true) × (in_range false (codes "0b1") ≡ true) }
{}

/// A generalised type binds its variables, but for those that are free in the environment and those that are held.
pub fn generalisation()
    ensures bound { (generalised_in [] [] (Arrow (Var 1) (Var 2))).bound 1 ≡ true }
    ensures free { (generalised_in (one_value (codes "x") (Var 1) ∷ []) [] (Arrow (Var 1) (Var 2))).bound 1 ≡ false }
    ensures held { (generalised_in [] (Var 2 ∷ []) (Arrow (Var 1) (Var 2))).bound 2 ≡ false }
    ensures instance { HasInstance (generalised_in (one_value (codes "x") (Var 1) ∷ []) [] (Arrow (Var 1) (Var 2))) (Arrow (Var 1) int_type) }
    ensures no_instance { HasInstance (generalised_in [] (Var 2 ∷ []) (Arrow (Var 1) (Var 2))) (Arrow (Var 2) int_type) → ⊥ }
{}

/// A type that is in scope is called by its name, and one that isn't by its declared name and a mark.
pub fn names_of_types()
    ensures shown { (declared : List ℕ → List ℕ) → IsNameOf naming shown_scope declared (7 ∷ []) (codes "t") }
    ensures hidden { (declared : List ℕ → List ℕ) → declared (8 ∷ []) ≡ codes "u" → IsNameOf naming shown_scope declared (8 ∷ []) (codes "u/hidden") }
{}
