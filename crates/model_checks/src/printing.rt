//! How types are printed.

ghost use Rattle.std.specs.Prelude.{◌≡◌, ℕ, ◌≤◌, ◌<◌, List, [], ◌∷◌, ◌++◌, take, length, codes};
ghost use Rattle.type_model.specs.Types.{Var, Arrow, Tuple, Con, Nil, Cons};
ghost use Rattle.type_print_model.specs.Variables.{letter_name, variable_name};
ghost use Rattle.type_print_model.specs.Printing.{cut};
ghost use Rattle.model_checks.specs.Printing.{printed, int, list, pair};

/// An arrow left of an arrow stands in parentheses.
pub fn arrow_left_of_an_arrow()
    ensures left { printed [] (Arrow (Arrow (Var 5) (Var 3)) (Var 3)) ≡ codes "('a -> 'b) -> 'b" }
    ensures right { printed [] (Arrow int (Arrow int int)) ≡ codes "int -> int -> int" }
{}

/// A tuple in a tuple stands in parentheses, and beside an arrow it doesn't.
pub fn tuple_in_a_tuple()
    ensures inside { printed [] (Tuple (pair int (Tuple (pair int int)))) ≡ codes "int * (int * int)" }
    ensures beside { printed [] (Arrow (Tuple (pair int int)) (Tuple (pair int int))) ≡ codes "int * int -> int * int" }
{}

/// An arrow or a tuple that is the one argument of a constructor stands in parentheses.
pub fn one_argument_in_parentheses()
    ensures arrow { printed [] (list (Arrow int int)) ≡ codes "(int -> int) list" }
    ensures tuple { printed [] (list (Tuple (pair int int))) ≡ codes "(int * int) list" }
    ensures application { printed [] (list (list int)) ≡ codes "int list list" }
{}

/// Several arguments stand in parentheses, and an arrow among them doesn't.
pub fn several_arguments()
    ensures plain { printed [] (Con (9 ∷ []) (pair int (Var 2))) ≡ codes "(int, 'a) t" }
    ensures arrow { printed [] (Con (9 ∷ []) (pair (Arrow int int) (Var 2))) ≡ codes "(int -> int, 'a) t" }
{}

/// Variables are named in the order in which they stand, each time by the same name.
pub fn variables_in_order()
    ensures { printed [] (Arrow (Var 7) (Arrow (Var 2) (Arrow (Var 7) (Var 0)))) ≡ codes "'a -> 'b -> 'a -> 'c" }
{}

/// The 26th variable is 'z, the 27th 'a1, the 52nd 'z1 and the 53rd 'a2.
pub fn variables_past_z()
    ensures { (letter_name 25 ≡ codes "'z") × (letter_name 26 ≡ codes "'a1") × (letter_name 51 ≡ codes "'z1") × (letter_name 52 ≡ codes "'a2") }
{}

/// Weak variables have names of their own, counted apart from the others.
pub fn weak_variables()
    ensures one { printed (4 ∷ []) (list (Var 4)) ≡ codes "'_weak1 list" }
    ensures another { variable_name (4 ∷ 6 ∷ []) (1 ∷ 6 ∷ 4 ∷ []) 4 ≡ codes "'_weak2" }
    ensures no_weak { variable_name (4 ∷ 6 ∷ []) (6 ∷ 4 ∷ 1 ∷ []) 1 ≡ codes "'a" }
{}

/// A text of at most 4,096 bytes is shown whole, and a longer one is cut there, with three points behind.
pub fn long_texts()
    ensures whole { (text : List ℕ) → length text ≤ 4096 → cut text ≡ text }
    ensures shortened { (text : List ℕ) → 4096 < length text → cut text ≡ take 4096 text ++ codes "..." }
{}
