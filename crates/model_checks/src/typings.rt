//! Typings of small texts, and texts that have none.

ghost use Rattle.std.specs.Prelude.{◌≡◌, true, false, List, [], ◌∷◌, codes, Some};
ghost use Rattle.type_model.specs.Types.{Var, Arrow};
ghost use Rattle.typing_model.specs.BuiltIns.{built_in_names, int_type, string_type};
ghost use Rattle.signature_model.specs.Entries.{free_in};
ghost use Rattle.typing_model.specs.Items.{behind_items};
ghost use Rattle.typing_model.specs.Meanings.{items_of};
ghost use Rattle.typing_model.specs.Records.{field_type};
ghost use Rattle.typing_model.specs.Typings.{Typing, IsPrincipal, HasTyping, outermost};
ghost use Rattle.model_checks.specs.Texts.{parsed, identity, branches, self_application, reference, whole_record, used_twice, later_type};
ghost use Rattle.model_checks.specs.Asked.{all_kept};
ghost use Rattle.model_checks.specs.Typings.{first, types_from};
ghost use Rattle.model_checks.specs.Scopes.{with_ref, with_assignment};
ghost use Rattle.model_checks.specs.Chosen.{reference_types, reference_choice, identity_types, identity_choice, record_types, inner_types, two_of_unknown, label_alone, apart_choice};

/// let id x = x: 'a -> 'a is a typing, and each typing is an instance of it.
pub fn identity_is_principal()
    ensures { IsPrincipal built_in_names (parsed identity) all_kept (types_from identity_types) }
{}

/// let f x = if x then 1 else "a": no typing keeps all demands, since the second branch is a string and the first an int.
pub fn branches_differ()
    ensures { HasTyping built_in_names (parsed branches) all_kept → ⊥ }
{}

/// let f x = x x: no typing keeps all demands, since the type of x would contain itself.
pub fn self_application_has_no_typing()
    ensures { HasTyping built_in_names (parsed self_application) all_kept → ⊥ }
{}

/// let r = ref []: the type of r is a list of a variable in a ref, which isn't generalised, since an application may make a cell; that of let id x = x is.
pub fn a_reference_is_weak()
    ensures typed { Typing with_ref (parsed reference) all_kept (types_from reference_types) }
    ensures weak { free_in 9 (behind_items (outermost with_ref all_kept reference_choice) (items_of (parsed reference))) ≡ true }
    ensures strong { free_in (first 3) (behind_items (outermost built_in_names all_kept identity_choice) (items_of (parsed identity))) ≡ false }
{}

/// type t = { a : int } let r = { a = 1 }: r has the type that is made at the declaration.
pub fn a_record_has_its_type()
    ensures { Typing built_in_names (parsed whole_record) all_kept (types_from record_types) }
{}

/// `{ a = 1; b = "s" }` of a type { a : u; b : u } whose u is an unknown type: the fields, at nodes of their own, may have two types.
pub fn two_labels_choose_apart()
    ensures label_a { field_type (outermost [] all_kept apart_choice) 1 2 (Some two_of_unknown) (label_alone (codes "a")) ≡ Some int_type }
    ensures label_b { field_type (outermost [] all_kept apart_choice) 1 4 (Some two_of_unknown) (label_alone (codes "b")) ≡ Some string_type }
{}

/// let f = let g = fun x -> x in (g 1, g "a"): g is used at two types.
pub fn an_inner_binding_is_generalised()
    ensures { Typing built_in_names (parsed used_twice) all_kept (types_from inner_types) }
{}

/// let r = ref [] type t = A let () = r := [A]: no typing keeps all demands, since the type of r was made before t.
pub fn a_later_type_is_refused()
    ensures { HasTyping with_assignment (parsed later_type) all_kept → ⊥ }
{}
