//! The demands of small texts, in order, each where it is told.

ghost use Rattle.std.specs.Prelude.{◌≡◌, true, false, List, [], ◌∷◌, codes};
ghost use Rattle.typing_model.specs.Demands.{value_word, constructor_word, label_word, type_word, module_word, unbound, arity, twice, one_side, incomplete, cyclic, differs, too_large};
ghost use Rattle.typing_model.specs.BuiltIns.{built_in_names};
ghost use Rattle.model_checks.specs.Texts.{parsed, identity, branches, self_application, reference, missing_field, punned_pattern, one_sided, cyclic_types, constructed, guarded, recursive, undetermined, behind_a_functor, naming_itself, two_arguments, in_an_unknown_module};
ghost use Rattle.model_checks.specs.Asked.{asked, all_kept, at, types, names, body};

/// let id x = x: the parameter is new, the name in the body is bound, the name that is bound is new, and has the type of the whole.
pub fn demands_of_identity()
    ensures { asked built_in_names (parsed identity) all_kept ≡
        at 7 8 (names (twice (codes "x")) true) ∷ at 11 12 (names (unbound value_word (codes "x")) true) ∷
        at 4 6 (names (twice (codes "id")) true) ∷ at 4 6 types ∷ [] }
{}

/// let f x = if x then 1 else "a": the condition is a bool before the branches are treated; the second branch has the type of the first.
pub fn demands_of_branches()
    ensures { asked built_in_names (parsed branches) all_kept ≡
        at 6 7 (names (twice (codes "x")) true) ∷ at 13 14 (names (unbound value_word (codes "x")) true) ∷ at 13 14 types ∷
        at 20 21 (names too_large true) ∷ at 27 30 types ∷
        at 4 5 (names (twice (codes "f")) true) ∷ at 4 5 types ∷ [] }
{}

/// let f x = x x: the head is an arrow before the argument is treated.
pub fn demands_of_self_application()
    ensures { asked built_in_names (parsed self_application) all_kept ≡
        at 6 7 (names (twice (codes "x")) true) ∷ at 10 11 (names (unbound value_word (codes "x")) true) ∷ at 10 11 types ∷
        at 12 13 (names (unbound value_word (codes "x")) true) ∷ at 12 13 types ∷
        at 4 5 (names (twice (codes "f")) true) ∷ at 4 5 types ∷ [] }
{}

/// let r = ref [], where ref isn't bound.
pub fn demands_of_reference()
    ensures { asked built_in_names (parsed reference) all_kept ≡
        at 8 11 (names (unbound value_word (codes "ref")) false) ∷ at 8 11 types ∷ at 12 14 types ∷
        at 4 5 (names (twice (codes "r")) true) ∷ at 4 5 types ∷ [] }
{}

/// type t = { a : int; b : int } let r = { a = 1 }: the name of the type; the types of the labels, then that they are new; of the
/// record its type, the label, the value, and that b is absent, told at the whole record.
pub fn demands_of_a_record_with_a_missing_field()
    ensures { asked built_in_names (parsed missing_field) all_kept ≡
        at 5 6 (names (twice (codes "t")) true) ∷
        at 15 18 (names (unbound type_word (codes "int")) true) ∷ at 15 18 (names (arity (codes "int") 0 0) true) ∷
        at 24 27 (names (unbound type_word (codes "int")) true) ∷ at 24 27 (names (arity (codes "int") 0 0) true) ∷
        at 11 12 (names (twice (codes "a")) true) ∷ at 20 21 (names (twice (codes "b")) true) ∷
        at 40 41 (names (unbound label_word (codes "a")) true) ∷ at 40 41 (names (twice (codes "a")) true) ∷ at 44 45 (names too_large true) ∷ at 44 45 types ∷
        at 38 47 (names (incomplete (codes "b")) false) ∷
        at 34 35 (names (twice (codes "r")) true) ∷ at 34 35 types ∷ [] }
{}

/// type t = { a : int } let f { a } = a: the record type by its label; the label and the name are new; nothing is asked of the other labels.
pub fn demands_of_a_punned_pattern()
    ensures { asked built_in_names (parsed punned_pattern) all_kept ≡
        at 5 6 (names (twice (codes "t")) true) ∷
        at 15 18 (names (unbound type_word (codes "int")) true) ∷ at 15 18 (names (arity (codes "int") 0 0) true) ∷ at 11 12 (names (twice (codes "a")) true) ∷
        at 29 30 (names (unbound label_word (codes "a")) true) ∷ at 29 30 (names (twice (codes "a")) true) ∷ at 29 30 (names (twice (codes "a")) true) ∷
        at 35 36 (names (unbound value_word (codes "a")) true) ∷
        at 25 26 (names (twice (codes "f")) true) ∷ at 25 26 types ∷ [] }
{}

/// type o = N | S of int let f (S x | N) = 1: both sides, then at the later side that x is on one side only, and that both have one type.
pub fn demands_of_a_one_sided_name()
    ensures { asked built_in_names (parsed one_sided) all_kept ≡
        at 5 6 (names (twice (codes "o")) true) ∷
        at 18 21 (names (unbound type_word (codes "int")) true) ∷ at 18 21 (names (arity (codes "int") 0 0) true) ∷
        at 9 10 (names (twice (codes "N")) true) ∷ at 13 14 (names (twice (codes "S")) true) ∷
        at 29 30 (names (unbound constructor_word (codes "S")) true) ∷ at 29 30 (names (arity (codes "S") 1 1) true) ∷ at 31 32 (names (twice (codes "x")) true) ∷ at 31 32 types ∷
        at 35 36 (names (unbound constructor_word (codes "N")) true) ∷ at 35 36 (names (arity (codes "N") 0 0) true) ∷
        at 35 36 (names (one_side (codes "x")) false) ∷ at 35 36 types ∷
        at 40 41 (names too_large true) ∷
        at 26 27 (names (twice (codes "f")) true) ∷ at 26 27 types ∷ [] }
{}

/// type a = b and b = b list: the names, each right side, and at the end the cycles: b contains itself, and a doesn't.
pub fn demands_of_cyclic_types()
    ensures { asked built_in_names (parsed cyclic_types) all_kept ≡
        at 5 6 (names (twice (codes "a")) true) ∷ at 15 16 (names (twice (codes "b")) true) ∷
        at 9 10 (names (unbound type_word (codes "b")) true) ∷ at 9 10 (names (arity (codes "b") 0 0) true) ∷
        at 19 20 (names (unbound type_word (codes "b")) true) ∷ at 19 20 (names (arity (codes "b") 0 0) true) ∷
        at 21 25 (names (unbound type_word (codes "list")) true) ∷ at 21 25 (names (arity (codes "list") 1 1) true) ∷
        at 5 6 (names (cyclic (codes "a")) true) ∷ at 15 16 (names (cyclic (codes "b")) false) ∷ [] }
{}

/// type t = A of int let x = A 1: the constructor is bound and takes one argument before the argument is treated, which has the declared type.
pub fn demands_of_a_constructor_with_its_argument()
    ensures { asked built_in_names (parsed constructed) all_kept ≡
        at 5 6 (names (twice (codes "t")) true) ∷
        at 14 17 (names (unbound type_word (codes "int")) true) ∷ at 14 17 (names (arity (codes "int") 0 0) true) ∷ at 9 10 (names (twice (codes "A")) true) ∷
        at 26 27 (names (unbound constructor_word (codes "A")) true) ∷ at 26 27 (names (arity (codes "A") 1 1) true) ∷
        at 28 29 (names too_large true) ∷ at 28 29 types ∷
        at 22 23 (names (twice (codes "x")) true) ∷ at 22 23 types ∷ [] }
{}

/// let f x = match x with y when y -> 1 | _ -> 2: of each case the pattern, which has the type of the subject, the guard, and the body, which has the type of the first.
pub fn demands_of_a_match_with_a_guard()
    ensures { asked built_in_names (parsed guarded) all_kept ≡
        at 6 7 (names (twice (codes "x")) true) ∷ at 16 17 (names (unbound value_word (codes "x")) true) ∷
        at 23 24 (names (twice (codes "y")) true) ∷ at 23 24 types ∷ at 30 31 (names (unbound value_word (codes "y")) true) ∷ at 30 31 types ∷
        at 35 36 (names too_large true) ∷
        at 39 40 types ∷ at 44 45 (names too_large true) ∷ at 44 45 types ∷
        at 4 5 (names (twice (codes "f")) true) ∷ at 4 5 types ∷ [] }
{}

/// let rec f x = f x: the name comes first, and is bound in the right side.
pub fn demands_of_a_recursive_binding()
    ensures { asked built_in_names (parsed recursive) all_kept ≡
        at 8 9 (names (twice (codes "f")) true) ∷
        at 10 11 (names (twice (codes "x")) true) ∷
        at 14 15 (names (unbound value_word (codes "f")) true) ∷ at 14 15 types ∷ at 16 17 (names (unbound value_word (codes "x")) true) ∷ at 16 17 types ∷
        at 8 9 types ∷ [] }
{}

/// module F (X : sig end) = struct let r = ref [] end: the closing stands at the body.
pub fn demands_of_an_undetermined_body()
    ensures { asked built_in_names (parsed undetermined) all_kept ≡
        at 7 8 (names (twice (codes "F")) true) ∷
        at 40 43 (names (unbound value_word (codes "ref")) false) ∷ at 40 43 types ∷ at 44 46 types ∷
        at 36 37 (names (twice (codes "r")) true) ∷ at 36 37 types ∷
        at 25 50 body ∷ [] }
{}

/// module F (X : sig end) = struct end let y = F.x: nothing stands in a functor, so x isn't bound.
pub fn demands_of_a_name_behind_a_functor()
    ensures { asked built_in_names (parsed behind_a_functor) all_kept ≡
        at 7 8 (names (twice (codes "F")) true) ∷ at 25 35 body ∷
        at 46 47 (names (unbound value_word (codes "x")) false) ∷
        at 40 41 (names (twice (codes "y")) true) ∷ at 40 41 types ∷ [] }
{}

/// type t = t = A: a re-export that names itself tells another type.
pub fn demands_of_a_re_export_of_itself()
    ensures { asked built_in_names (parsed naming_itself) all_kept ≡
        at 5 6 (names (twice (codes "t")) true) ∷
        at 9 10 (names (unbound type_word (codes "t")) true) ∷ at 9 10 (names (arity (codes "t") 0 0) true) ∷
        at 13 14 (names (twice (codes "A")) true) ∷ at 9 10 (names (differs (codes "t")) false) ∷ [] }
{}

/// type t = A of int let x = A 1 2: behind the first argument the result is the head of the second one.
pub fn demands_of_a_constructor_with_two_arguments()
    ensures { asked built_in_names (parsed two_arguments) all_kept ≡
        at 5 6 (names (twice (codes "t")) true) ∷
        at 14 17 (names (unbound type_word (codes "int")) true) ∷ at 14 17 (names (arity (codes "int") 0 0) true) ∷ at 9 10 (names (twice (codes "A")) true) ∷
        at 26 27 (names (unbound constructor_word (codes "A")) true) ∷ at 26 27 (names (arity (codes "A") 1 1) true) ∷
        at 28 29 (names too_large true) ∷ at 28 29 types ∷
        at 26 27 types ∷ at 30 31 (names too_large true) ∷ at 30 31 types ∷
        at 22 23 (names (twice (codes "x")) true) ∷ at 22 23 types ∷ [] }
{}

/// module U = X let y = U.C 1 2: of a constructor in a module that isn't known nothing is asked but that it is bound.
pub fn demands_of_a_constructor_in_an_unknown_module()
    ensures { asked built_in_names (parsed in_an_unknown_module) all_kept ≡
        at 7 8 (names (twice (codes "U")) true) ∷ at 11 12 (names (unbound module_word (codes "X")) false) ∷
        at 23 24 (names (unbound constructor_word (codes "C")) true) ∷
        at 25 26 (names too_large true) ∷ at 27 28 (names too_large true) ∷
        at 17 18 (names (twice (codes "y")) true) ∷ at 17 18 types ∷ [] }
{}
