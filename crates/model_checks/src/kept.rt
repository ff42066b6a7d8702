//! Which demands of small texts are kept, and the faults of those that aren't.

ghost use Rattle.std.specs.Prelude.{◌≡◌, ℕ, List, [], ◌∷◌, codes};
ghost use Rattle.tree_model.specs.Trees.{place};
ghost use Rattle.type_model.specs.Types.{Typ, Var, Arrow, Con, Nil};
ghost use Rattle.signature_model.specs.Failing.{blame, Absent};
ghost use Rattle.signature_model.specs.Entries.{Environment};
ghost use Rattle.typing_model.specs.BuiltIns.{built_in_names, int_type, string_type, list_type};
ghost use Rattle.typing_model.specs.Demands.{site};
ghost use Rattle.typing_model.specs.Typings.{Typing, IsKept, IsPrincipal};
ghost use Rattle.typing_model.specs.Faults.{IsFaultAt, mismatches, types_differ, contains_itself, made_later, plain, leaves_open};
ghost use Rattle.match_model.specs.Shown.{Shows};
ghost use Rattle.model_checks.specs.Matches.{world, alone, shape_alone, column, one};
ghost use Rattle.model_checks.specs.Texts.{parsed, branches, self_application, reference, later_type, undetermined, absent_component, whole_record, used_twice, sealed_type, missed_value, unbound_pattern, unbound_applied, two_of_one};
ghost use Rattle.model_checks.specs.Typings.{first, second, third, fourth, fifth};
ghost use Rattle.model_checks.specs.Open.{of_letter, open_types};
ghost use Rattle.model_checks.specs.Scopes.{with_ref, with_assignment, with_plus};
ghost use Rattle.model_checks.specs.Chosen.{reference_open, record_types, inner_open, match_types};
ghost use Rattle.model_checks.specs.Kept.{kept_at, branches_kept, self_application_kept, reference_kept, later_type_kept, undetermined_kept, absent_component_kept, whole_record_kept, used_twice_kept, sealed_type_kept, missed_value_kept, unbound_pattern_kept, unbound_applied_kept, two_of_one_kept};

/// let f x = if x then 1 else "a": all demands are kept but the one that the second branch has the type of the first.
pub fn the_second_branch_is_not_kept()
    ensures { IsKept built_in_names (parsed branches) (kept_at branches_kept) }
{}

/// It is a fault: a string is found, and an int is wanted.
pub fn the_second_branch_is_a_fault()
    ensures { (scope : Environment) × IsFaultAt built_in_names (parsed branches) (kept_at branches_kept) (site (first 4) 1) (record { at = place 27 30; told = types_differ string_type int_type plain; env = scope }) }
{}

/// let f x = x x: all demands are kept but the one that the argument has the type that the head takes.
pub fn the_argument_of_itself_is_not_kept()
    ensures { IsKept built_in_names (parsed self_application) (kept_at self_application_kept) }
{}

/// It is a fault: 'a -> 'b is found and 'a is wanted, which would contain itself.
pub fn the_argument_of_itself_is_a_fault()
    ensures { (scope : Environment) × IsFaultAt built_in_names (parsed self_application) (kept_at self_application_kept) (site (first 4) 1)
        (record { at = place 12 13; told = types_differ (Arrow (Var (of_letter (first 4) 0)) (Var (of_letter (first 4) 1))) (Var (of_letter (first 4) 0)) contains_itself; env = scope }) }
{}

/// let r = ref []: all demands are kept.
pub fn a_reference_keeps_all()
    ensures { IsKept with_ref (parsed reference) (kept_at reference_kept) }
{}

/// Its types, with a variable for what [] is a list of, are a principal typing.
pub fn a_reference_is_principal()
    ensures { IsPrincipal with_ref (parsed reference) (kept_at reference_kept) (open_types reference_open) }
{}

/// let r = ref [] type t = A let () = r := [A]: all demands are kept but the one that [A] is what is assigned.
pub fn a_later_type_is_not_kept()
    ensures { IsKept with_assignment (parsed later_type) (kept_at later_type_kept) }
{}

/// It is a fault: t list is found and 'a list is wanted, in which a later type may not stand.
pub fn a_later_type_is_a_fault()
    ensures { (scope : Environment) × IsFaultAt with_assignment (parsed later_type) (kept_at later_type_kept) (site (third 3) 4)
        (record { at = place 40 43; told = types_differ (list_type (Con (second 1 ∷ []) Nil)) (list_type (Var (of_letter (first 5) 0))) made_later; env = scope }) }
{}

/// module F (X : sig end) = struct let r = ref [] end: all demands are kept but the body's closing, since r's type is open.
pub fn an_undetermined_body_is_not_closed()
    ensures { IsKept with_ref (parsed undetermined) (kept_at undetermined_kept) }
{}

/// It is a fault, which stands at the body.
pub fn an_undetermined_body_is_a_fault()
    ensures { IsFaultAt with_ref (parsed undetermined) (kept_at undetermined_kept) (site (first 0) 2) (record { at = place 25 50; told = leaves_open; env = with_ref }) }
{}

/// module M : sig val a : int val b : string end = struct let a = 1 end let c = M.b: all demands are kept but that the structure
/// matches its seal.
pub fn an_absent_component_is_not_kept()
    ensures { IsKept built_in_names (parsed absent_component) (kept_at absent_component_kept) }
{}

/// It is a fault: the component b is absent.
pub fn an_absent_component_is_a_fault()
    ensures { IsFaultAt built_in_names (parsed absent_component) (kept_at absent_component_kept) (site (first 0) 0)
        (record { at = place 48 68; told = mismatches (blame (codes "b" ∷ []) Absent); env = built_in_names }) }
{}

/// type t = { a : int } let r = { a = 1 }: all demands are kept.
pub fn a_record_keeps_all()
    ensures { IsKept built_in_names (parsed whole_record) (kept_at whole_record_kept) }
{}

/// Its types are a principal typing.
pub fn a_record_is_principal()
    ensures { IsPrincipal built_in_names (parsed whole_record) (kept_at whole_record_kept) (open_types record_types) }
{}

/// let f = let g = fun x -> x in (g 1, g "a"): all demands are kept.
pub fn an_inner_binding_keeps_all()
    ensures { IsKept built_in_names (parsed used_twice) (kept_at used_twice_kept) }
{}

/// Its types, with a variable for x, are a principal typing.
pub fn an_inner_binding_is_principal()
    ensures { IsPrincipal built_in_names (parsed used_twice) (kept_at used_twice_kept) (open_types inner_open) }
{}

/// module M : sig type t val x : t end = struct type t = int let x = 1 end let y = M.x + 1: all demands are kept, the seal's match
/// among them, but the one that M.x is an int.
pub fn a_sealed_type_is_not_kept()
    ensures { IsKept with_plus (parsed sealed_type) (kept_at sealed_type_kept) }
{}

/// It is a fault: M.t, which is made at the module, is found, and int is wanted.
pub fn a_sealed_type_is_a_fault()
    ensures { (scope : Environment) × IsFaultAt with_plus (parsed sealed_type) (kept_at sealed_type_kept) (site (second 3) 2)
        (record { at = place 80 83; told = types_differ (Con (first 0 ∷ first 3 ∷ []) Nil) int_type plain; env = scope }) }
{}

/// let f x = match x with true -> 1: all demands are kept; the subject is a bool in a principal typing; false is missed.
pub fn a_match_misses_a_value()
    ensures keeps { IsKept built_in_names (parsed missed_value) (kept_at missed_value_kept) }
    ensures principal { IsPrincipal built_in_names (parsed missed_value) (kept_at missed_value_kept) (open_types match_types) }
    ensures missed { Shows world (open_types match_types (first 5) ∷ []) (column (alone (codes "true")) ∷ []) (one (shape_alone (codes "false"))) }
{}

/// let f (C x) = x, where C isn't bound: in each typing that keeps the other demands C has the type of C x.
pub fn an_unbound_constructor_is_of_the_whole()
    ensures { (types : ℕ → Typ) → Typing built_in_names (parsed unbound_pattern) (kept_at unbound_pattern_kept) types → types (first 4) ≡ types (first 5) }
{}

/// let y = C 1, where C isn't bound: all demands are kept but that C is bound.
pub fn an_unbound_constructor_applied_is_not_kept()
    ensures { IsKept built_in_names (parsed unbound_applied) (kept_at unbound_applied_kept) }
{}

/// In each typing that keeps the other demands C has the type of C 1.
pub fn an_unbound_constructor_applied_is_of_the_whole()
    ensures { (types : ℕ → Typ) → Typing built_in_names (parsed unbound_applied) (kept_at unbound_applied_kept) types → types (first 3) ≡ types (first 4) }
{}

/// module F (X : sig end) = struct type t = A end module E = struct end module P = F(E) module Q = F(E) let l = [P.A; Q.A]: all demands
/// are kept, that F's body closes among them, but the one that Q.A has the type of P.A.
pub fn two_applications_are_not_one()
    ensures { IsKept built_in_names (parsed two_of_one) (kept_at two_of_one_kept) }
{}

/// It is a fault: Q.t, which is made at the second application, is found, and P.t, which is made at the first, is wanted.
pub fn two_applications_are_a_fault()
    ensures { (scope : Environment) × IsFaultAt built_in_names (parsed two_of_one) (kept_at two_of_one_kept) (site (fifth 3) 0)
        (record { at = place 115 118; told = types_differ (Con (fourth 1 ∷ first 4 ∷ []) Nil) (Con (third 1 ∷ first 4 ∷ []) Nil) plain; env = scope }) }
{}
