//! The prelude's own text, read by the definitions, and texts behind it, from their bytes on: there is one first environment, and
//! what is found of a text without modules is one.
//! It stands on the definitions of texts, trees and typings, on their laws, and on the lemmas of `ml_lexer`; for the names after the
//! prelude also on what specifications give (`signature_typing`).
//! No program calls it. A clause of `text_analysis` and its proof cite `specs/Known` and `Behind`: by `prelude_starts` the names after
//! the prelude's items are those of the first environment. `Typed`, `Known` and `Fitting` have the typing that it starts from;
//! `Items`, `TypeRows` and `ModuleRows` that each of these items is a carried one; in `Places` names are compared without where they
//! are defined. `FirstTypes` has the types of the first environment, of which `ValueTypes` says that the types of a text's nodes are made.
#![tactic(auto)]

ghost use Rattle.std.specs.Prelude.{◌≡◌, ℕ, Bool, true, List, codes, length, map, reverse, Some, slice_get};
ghost use Rattle.token_model.specs.Kinds.{Tok};
ghost use Rattle.token_model.specs.Tokens.{Lex};
ghost use Rattle.tree_model.specs.Trees.{Tree};
ghost use Rattle.query_model.specs.Faults.{TyperFault};
ghost use Rattle.query_model.specs.TypedNodes.{Typed, typed_at};
ghost use Rattle.type_model.specs.Types.{Path, Typ};
ghost use Rattle.signature_model.specs.Declarations.{Name};
ghost use Rattle.signature_model.specs.Changes.{among};
ghost use Rattle.signature_model.specs.Entries.{Entry, Environment, free_in};
ghost use Rattle.type_print_model.specs.Paths.{Naming, NamePath, Reaches, naming};
ghost use Rattle.type_print_model.specs.Printing.{Prints, mentions};
ghost use Rattle.type_print_model.specs.Variables.{is_among};
ghost use Rattle.typing_model.specs.Contexts.{Choice};
ghost use Rattle.typing_model.specs.Items.{behind_items};
ghost use Rattle.typing_model.specs.Meanings.{items_of};
ghost use Rattle.typing_model.specs.Typings.{conditions_of, outermost, IsMostGeneralChoice};
ghost use Rattle.typing_model.specs.First.{IsFirst, IsSetting, IsFound, program_items};
ghost use Rattle.typing_model.specs.Demands.{Site};
ghost use Rattle.typing_model.specs.Typable.{IsTypable};
ghost use Rattle.typing_model.specs.Plain.{has_no_modules, has_lets_alone, has_values_alone};
ghost use Rattle.fault_model.specs.Refused.{standing, IsOfValues, AreRefused};
ghost use Rattle.fault_model.specs.Values.{are_bare};
ghost use Rattle.typing_model.specs.PreludeText.{prelude_text};
ghost use Rattle.typed_model.specs.Shown.{IsToldTyped, IsTypingOf, AreShown, asked};
ghost use Rattle.shown_alike.specs.Told.{HasNone, type_at};
ghost use Rattle.model_checks.specs.Kept.{kept_at, reference_kept};
ghost use Rattle.model_checks.specs.Open.{open_types};
ghost use Rattle.prelude_checks.specs.Found.{reference_open};
ghost use Rattle.prelude_checks.specs.FirstTypes.{first_types};
ghost use Rattle.prelude_checks.specs.Known.{IsPreludeTyped};

/// The text of the whole prelude has tokens, and a typing that keeps all of its demands: there is a first environment.
pub fn the_prelude_has_a_first_environment()
    ensures { (env : Environment) × IsFirst env }
{}

/// The bytes let r = ref [] behind it: all demands are kept, and the types, with a variable for what [] is a list of, are a
/// principal typing.
pub fn a_reference_is_found()
    ensures { IsFound (codes "let r = ref []") (kept_at reference_kept) (open_types reference_open) }
{}

/// The prelude's text is typed with every demand kept and no unknown type in the types of its values, and each of its items is that of
/// an operand, which is a carried item.
pub fn the_prelude_is_typed()
    ensures { (ts : List Tok) → Lex prelude_text ts → (ch : Choice) × IsPreludeTyped ts ch }
{}

/// There is one first environment.
pub fn the_first_environment_is_one()
    ensures { (env other : Environment) → IsFirst env → IsFirst other → env ≡ other }
{}

/// A text is typed from one environment, as one list of trees.
pub fn a_setting_is_one()
    ensures { (text : List ℕ) (env other : Environment) (items others : List Tree) → IsSetting text env items → IsSetting text other others → (env ≡ other) × (items ≡ others) }
{}

/// So the kept demands that are found of a text without modules are one.
pub fn kept_demands_that_are_found_are_one()
    ensures { (text : List ℕ) (kept others : Site → Bool) (types shown : ℕ → Typ) (f : IsFound text kept types) → has_no_modules f.items ≡ true → IsFound text others shown → (s : Site) → kept s ≡ others s }
{}

/// The faults of items that are `let`, exceptions and `;;` alone are one list but for warnings, each with its place, its kind and its message.
pub fn faults_of_values_are_one()
    ensures { (items : List Tree) (faults others : List TyperFault) → has_values_alone items ≡ true → AreRefused items faults → AreRefused items others → standing faults ≡ standing others }
{}

/// Of a text that can be typed no fault but warnings is reported: this follows from which faults are reported of the items of such a text.
pub fn texts_that_can_be_typed_have_no_faults()
    ensures { (text : List ℕ) (faults : List TyperFault) → IsTypable text → ((t : IsOfValues text) → ∥ AreRefused (program_items t.tokens) faults ∥₁) → length (standing faults) ≡ 0 }
{}

/// Each constructor in the type of a node of such items that is told with it is one of the types of the first environment, and a path
/// of the names in scope there reaches it, where the exceptions take no argument.
pub fn types_of_values_have_paths()
    ensures { (items : List Tree) → has_values_alone items ≡ true → are_bare items ≡ true → (t : IsTypingOf items) (n : ℕ) (E : Environment) (u : Typ) → IsToldTyped n E u (asked t) →
        (o : Path) → mentions o (t.choice.type_at n) ≡ true → (among o (map (λ t. t.1) first_types) ≡ true) × (p : NamePath) × Reaches naming E o p }
{}

/// The text that is shown of a typed node of a program of such items is one, where none of the variables of its type is weak.
pub fn types_of_values_are_one()
    ensures { (tokens : List Tok) (o : ℕ) (texts others : List (List ℕ)) → has_values_alone (program_items tokens) ≡ true → (a : AreShown (program_items tokens) (reverse (typed_at o (program_items tokens))) texts) →
        (b : AreShown (program_items tokens) (reverse (typed_at o (program_items tokens))) others) → (k : ℕ) (n : Typed) (shown other : List ℕ) → slice_get (reverse (typed_at o (program_items tokens))) k ≡ Some n →
        slice_get texts k ≡ Some shown → slice_get others k ≡ Some other → HasNone a.weak (type_at a.typing n) → HasNone b.weak (type_at b.typing n) → shown ≡ other }
{}

/// And of a program of `let` and `;;` all of them are one, weak variables or not: one list of texts.
pub fn types_of_lets_are_one()
    ensures { (tokens : List Tok) (o : ℕ) (texts others : List (List ℕ)) → has_lets_alone (program_items tokens) ≡ true →
        AreShown (program_items tokens) (reverse (typed_at o (program_items tokens))) texts → AreShown (program_items tokens) (reverse (typed_at o (program_items tokens))) others → texts ≡ others }
{}

/// And the types of its nodes print alike in two most general choices, where the weak variables are those that are free behind its items.
pub fn types_of_plain_texts_print_alike()
    ensures { (N : Naming Entry) (scope : Environment) (declared : Path → Name) (text : List ℕ) (env : Environment) (items : List Tree) (kept : Site → Bool) (choice other : Choice) →
        IsSetting text env items → has_no_modules items ≡ true → IsMostGeneralChoice kept (conditions_of env items kept) choice → IsMostGeneralChoice kept (conditions_of env items kept) other →
        (weak weaks : List ℕ) → ((v : ℕ) → is_among v weak ≡ free_in v (behind_items (outermost env kept choice) (items_of items))) →
        ((v : ℕ) → is_among v weaks ≡ free_in v (behind_items (outermost env kept other) (items_of items))) → (n : ℕ) (shown : List ℕ) →
        Prints N scope declared weak (choice.type_at n) shown → Prints N scope declared weaks (other.type_at n) shown }
{}
