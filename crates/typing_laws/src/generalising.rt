//! The two lemmas on generalisation, in any environment and with any types held.

ghost use Rattle.std.specs.Prelude.{List, map};
ghost use Rattle.type_model.specs.Types.{Typ};
ghost use Rattle.type_model.specs.Substitutions.{Subst, apply};
ghost use Rattle.type_model.specs.Schemes.{HasInstance};
ghost use Rattle.signature_model.specs.Signatures.{Signature};
ghost use Rattle.signature_model.specs.Entries.{Environment};
ghost use Rattle.signature_model.specs.Functors.{IsClosed};
ghost use Rattle.typing_model.specs.Contexts.{generalised_in};
ghost use Rattle.typing_laws.specs.Under.{IsUnder, IsSignatureUnder, IsApart, IsSchemeUnder, HasInstanceUnder};

/// Let a substitution change only variables that are free in the environment or held, and put in none that is bound. Then
/// generalising behind it gives it of the scheme that is generalised before.
pub fn substituting_before_or_behind()
    ensures { (env behind : Environment) (held : List Typ) (t : Typ) (s : Subst) → IsUnder s env behind → IsApart env held t s →
        IsSchemeUnder s (generalised_in env held t) (generalised_in behind (map (apply s) held) (apply s t)) }
{}

/// For every substitution, each instance of the scheme that is generalised behind it is an instance of it of the scheme that is
/// generalised before.
pub fn instances_come_from_before()
    ensures { (env behind : Environment) (held : List Typ) (t : Typ) (s : Subst) (x : Typ) → IsUnder s env behind →
        HasInstance (generalised_in behind (map (apply s) held) (apply s t)) x → HasInstanceUnder s (generalised_in env held t) x }
{}

/// Each environment has one under each substitution, so the two say something of every environment.
pub fn substitutions_of_environments_exist()
    ensures { (s : Subst) (env : Environment) → (behind : Environment) × IsUnder s env behind }
{}

/// A body that leaves no type open leaves none open behind a substitution either.
pub fn closed_bodies_stay_closed()
    ensures { (s : Subst) (env behind : Environment) (body after : Signature) → IsUnder s env behind → IsSignatureUnder s body after → IsClosed env body → IsClosed behind after }
{}
