//! Most general choices, which are most general in all types that are chosen and not in those of nodes alone.

ghost use Rattle.std.specs.Prelude.{◌≡◌, ℕ, Bool, true, false, List};
ghost use Rattle.tree_model.specs.Trees.{Tree};
ghost use Rattle.type_model.specs.Types.{Path, Typ};
ghost use Rattle.type_model.specs.Substitutions.{apply};
ghost use Rattle.signature_model.specs.Declarations.{Name};
ghost use Rattle.signature_model.specs.Entries.{Entry, Environment, free_in};
ghost use Rattle.type_print_model.specs.Paths.{Naming};
ghost use Rattle.type_print_model.specs.Printing.{Prints, PrintsTwo};
ghost use Rattle.type_print_model.specs.Variables.{is_among};
ghost use Rattle.typing_model.specs.Demands.{Site, Condition};
ghost use Rattle.typing_model.specs.Contexts.{Choice};
ghost use Rattle.typing_model.specs.Typings.{conditions_of, outermost, IsMostGeneralChoice};
ghost use Rattle.typing_model.specs.Items.{behind_items};
ghost use Rattle.typing_model.specs.Meanings.{items_of};
ghost use Rattle.typing_model.specs.Plain.{has_no_modules};
ghost use Rattle.typing_laws.specs.Renaming.{renaming, StandsIn, AreRenamedChoices, IsOf};
ghost use Rattle.typing_laws.specs.Under.{IsUnder};

/// Two most general choices for the same conditions are renamings of each other, by one renaming for all types that are chosen.
pub fn most_general_choices_are_renamed()
    ensures { (kept : Site → Bool) (asked : Choice → List Condition) (choice other : Choice) → IsMostGeneralChoice kept asked choice → IsMostGeneralChoice kept asked other → AreRenamedChoices choice other }
{}

/// Where one environment is the other one renamed, and what is free in it is chosen, the renamed variables are free in the renamed
/// environment, and no others of the choice.
pub fn free_variables_are_renamed()
    ensures { (choice other : Choice) (r : AreRenamedChoices choice other) (env behind : Environment) → IsUnder (renaming r.forth) env behind → ((v : ℕ) → free_in v env ≡ true → StandsIn choice v) →
        (v : ℕ) → StandsIn choice v → free_in (r.forth v) behind ≡ free_in v env }
{}

/// There the type of each node prints as in the other choice, where the weak variables are those that are free in the environment.
pub fn weak_variables_print_alike()
    ensures { (N : Naming Entry) (scope : Environment) (declared : Path → Name) (choice other : Choice) (r : AreRenamedChoices choice other) (env behind : Environment) → IsUnder (renaming r.forth) env behind →
        ((v : ℕ) → free_in v env ≡ true → StandsIn choice v) → (weak weaks : List ℕ) → ((v : ℕ) → is_among v weak ≡ free_in v env) → ((v : ℕ) → is_among v weaks ≡ free_in v behind) → (n : ℕ) (shown : List ℕ) →
        Prints N scope declared weak (choice.type_at n) shown → Prints N scope declared weaks (other.type_at n) shown }
{}

/// The two types of a message that are made of chosen types print as those made of the types of the other choice.
pub fn types_of_choices_print_alike()
    ensures { (N : Naming Entry) (scope : Environment) (declared : Path → Name) (choice other : Choice) (r : AreRenamedChoices choice other) (t u : Typ) → IsOf choice t → IsOf choice u → (first second : List ℕ) →
        PrintsTwo N scope declared t u first second → PrintsTwo N scope declared (apply (renaming r.forth) t) (apply (renaming r.forth) u) first second }
{}

/// Of a text without modules, from an environment in which no variable is free, the types of the nodes print alike in two most general
/// choices, where the weak variables are those that are free behind its items.
pub fn weak_variables_of_plain_texts_print_alike()
    ensures { (N : Naming Entry) (scope : Environment) (declared : Path → Name) (env : Environment) (text : List Tree) (kept : Site → Bool) (choice other : Choice) →
        IsMostGeneralChoice kept (conditions_of env text kept) choice → IsMostGeneralChoice kept (conditions_of env text kept) other → ((v : ℕ) → free_in v env ≡ false) → has_no_modules text ≡ true →
        (weak weaks : List ℕ) → ((v : ℕ) → is_among v weak ≡ free_in v (behind_items (outermost env kept choice) (items_of text))) →
        ((v : ℕ) → is_among v weaks ≡ free_in v (behind_items (outermost env kept other) (items_of text))) → (n : ℕ) (shown : List ℕ) →
        Prints N scope declared weak (choice.type_at n) shown → Prints N scope declared weaks (other.type_at n) shown }
{}
