//! Signatures: sealing, applications of functors, and the component that fails.

ghost use Rattle.std.specs.Prelude.{◌≡◌, List, [], ◌∷◌, codes, Some};
ghost use Rattle.tree_model.specs.Trees.{place};
ghost use Rattle.type_model.specs.Types.{Con, Nil};
ghost use Rattle.signature_model.specs.Declarations.{Own, in_text};
ghost use Rattle.signature_model.specs.Signatures.{Structure, Done, Component, TypeName, template};
ghost use Rattle.signature_model.specs.Templates.{made_at};
ghost use Rattle.signature_model.specs.Matching.{Matches};
ghost use Rattle.signature_model.specs.Failing.{blamed, blame, Absent, ValueDiffers};
ghost use Rattle.signature_model.specs.Functors.{applied};
ghost use Rattle.signature_model.specs.Entries.{entry, a_value, value_kind, type_kind};
ghost use Rattle.signature_model.specs.Lookups.{lookup, an_entry};
ghost use Rattle.signature_model.specs.Components.{newest, as_type};
ghost use Rattle.typing_model.specs.Modules.{all_bound};
ghost use Rattle.typing_model.specs.Names.{then_by, referent_of, declaration_in};
ghost use Rattle.typing_model.specs.Typings.{no_choice};
ghost use Rattle.model_checks.specs.Texts.{parsed, sealed, applied_twice};
ghost use Rattle.model_checks.specs.Typings.{first, third, fourth, choice_of};
ghost use Rattle.model_checks.specs.Signatures.{somewhere, plain, abstract_one, int_one, wrong_one, only_a, both, empty, body, behind};

/// struct type t = int let x = 1 end matches sig type t val x : t end, and with a string in place of 1 it doesn't.
pub fn a_structure_meets_its_seal()
    ensures met { Matches 0 int_one ((5 ∷ []) ∷ []) abstract_one }
    ensures not_met { Matches 0 wrong_one ((5 ∷ []) ∷ []) abstract_one → ⊥ }
{}

/// module M : sig type t val x : t end = struct type t = int let x = 1 end: M.x has the type that is made anew at the module, and not int.
pub fn a_sealed_value()
    ensures { lookup (behind (parsed sealed) (choice_of ((first 6, Con (first 3 ∷ []) Nil) ∷ []) no_choice.letter)) (codes "M" ∷ []) value_kind (codes "x")
        ≡ an_entry (entry (codes "x") (in_text (place 26 27)) (a_value (all_bound (Con (first 0 ∷ first 3 ∷ []) Nil)))) }
{}

/// A body that makes a type makes another one at each application.
pub fn an_application_makes_its_types_anew()
    ensures { applied 20 empty (template [] empty) body ≡ Structure (Component (codes "t") somewhere (TypeName (plain (Own (20 ∷ 5 ∷ [])))) Done) }
{}

/// module F (X : sig end) = struct type t = A end module E = struct end module P = F(E) module Q = F(E): P.t and Q.t are made at the two applications.
pub fn two_applications()
    ensures first_one { then_by (then_by (referent_of (lookup (behind (parsed applied_twice) no_choice) (codes "P" ∷ []) type_kind (codes "t"))) declaration_in) (λ d. Some d.definition) ≡ Some (Own (third 1 ∷ first 4 ∷ [])) }
    ensures second_one { then_by (then_by (referent_of (lookup (behind (parsed applied_twice) no_choice) (codes "Q" ∷ []) type_kind (codes "t"))) declaration_in) (λ d. Some d.definition) ≡ Some (Own (fourth 1 ∷ first 4 ∷ [])) }
{}

/// Of val a : int and val b : string, an actual a alone lacks b; where it has both, the second is told as another type.
pub fn the_component_that_fails()
    ensures absent { blamed 1 only_a both ≡ Some (blame (codes "b" ∷ []) Absent) }
    ensures differs { blamed 1 both both ≡ Some (blame (codes "b" ∷ []) ValueDiffers) }
{}

/// A signature that is made anew at a node has the node in front of the origins that it makes.
pub fn made_anew_at_a_node()
    ensures { made_at body 9 ≡ Structure (Component (codes "t") somewhere (TypeName (plain (Own (9 ∷ 5 ∷ [])))) Done) }
{}
