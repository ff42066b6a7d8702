//! Which values a match misses, and how they are shown.

ghost use Rattle.std.specs.Prelude.{◌≡◌, List, [], ◌∷◌, codes};
ghost use Rattle.typing_model.specs.BuiltIns.{int_type, bool_type, list_type};
ghost use Rattle.match_model.specs.Values.{any, open_shape};
ghost use Rattle.match_model.specs.Rows.{IsUnused};
ghost use Rattle.match_model.specs.Shown.{Shows};
ghost use Rattle.match_model.specs.Printed as printed;
ghost use Rattle.match_model.specs.Printed.{text_of};
ghost use Rattle.model_checks.specs.Matches.{world, int_option, record_type, two_booleans, alone, with_one, with_two, shape_alone, shape_of_two, column, one, row};

/// match o with Some _ -> ..: None is missed.
pub fn an_option_without_none()
    ensures shown { Shows world (int_option ∷ []) (column (with_one (codes "Some") any) ∷ []) (one (shape_alone (codes "None"))) }
    ensures printed { text_of printed.alone (shape_alone (codes "None")) ≡ codes "None" }
{}

/// match a with true -> ..: false is missed. In match b with true -> .. | false -> .. | false -> .. no value reaches the last case.
pub fn a_match_in_a_match()
    ensures missed { Shows world (bool_type ∷ []) (column (alone (codes "true")) ∷ []) (one (shape_alone (codes "false"))) }
    ensures unused { IsUnused world (bool_type ∷ []) (row (alone (codes "true")) ∷ row (alone (codes "false")) ∷ row (alone (codes "false")) ∷ []) 2 }
    ensures printed { text_of printed.alone (shape_alone (codes "false")) ≡ codes "false" }
{}

/// match l with _ :: _ -> ..: the empty list is missed.
pub fn a_list_without_the_empty_one()
    ensures shown { Shows world (list_type int_type ∷ []) (column (with_two (codes "::") any any) ∷ []) (one (shape_alone (codes "[]"))) }
    ensures printed { text_of printed.alone (shape_alone (codes "[]")) ≡ codes "[]" }
{}

/// match l with [] -> .. | [_] -> ..: lists of two and more are missed.
pub fn a_list_of_two()
    ensures shown { Shows world (list_type int_type ∷ []) (column (alone (codes "[]")) ∷ column (with_two (codes "::") any (alone (codes "[]"))) ∷ [])
        (one (shape_of_two (codes "::") open_shape (shape_of_two (codes "::") open_shape open_shape))) }
    ensures printed { text_of printed.alone (shape_of_two (codes "::") open_shape (shape_of_two (codes "::") open_shape open_shape)) ≡ codes "_ :: _ :: _" }
{}

/// match r with { b = true } -> ..: the record with false in b is missed.
pub fn a_record()
    ensures shown { Shows world (record_type ∷ []) (column (with_two (codes "{a; b}") any (alone (codes "true"))) ∷ []) (one (shape_of_two (codes "{a; b}") open_shape (shape_alone (codes "false")))) }
    ensures printed { text_of printed.alone (shape_of_two (codes "{a; b}") open_shape (shape_alone (codes "false"))) ≡ codes "{ a = _; b = false }" }
{}

/// match p with (true, _) -> .. | (_, true) -> ..: the pair of false and false is missed.
pub fn a_pair_of_booleans()
    ensures shown { Shows world (two_booleans ∷ []) (column (with_two (codes "(,)") (alone (codes "true")) any) ∷ column (with_two (codes "(,)") any (alone (codes "true"))) ∷ [])
        (one (shape_of_two (codes "(,)") (shape_alone (codes "false")) (shape_alone (codes "false")))) }
    ensures printed { text_of printed.alone (shape_of_two (codes "(,)") (shape_alone (codes "false")) (shape_alone (codes "false"))) ≡ codes "(false, false)" }
{}

/// Some (_ :: _), as a shape: the argument stands in parentheses.
pub fn an_argument_in_parentheses()
    ensures { text_of printed.left_of_cons (shape_of_two (codes "::") open_shape open_shape) ≡ codes "(_ :: _)" }
{}
