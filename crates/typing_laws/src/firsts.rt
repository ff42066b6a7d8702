//! What holds of first environments.

ghost use Rattle.std.specs.Prelude.{◌≡◌, ℕ, false};
ghost use Rattle.signature_model.specs.Entries.{Environment, free_in};
ghost use Rattle.typing_model.specs.First.{IsFirst};

/// No variable is free in a first environment: each value of the prelude binds all of its variables.
pub fn no_variable_is_free_in_a_first_environment()
    ensures { (env : Environment) → IsFirst env → (v : ℕ) → free_in v env ≡ false }
{}
