//! Nodes of a store: changes and marks, unification, generalisation, instances and substitution.
use crate::checked::{BOUND, NO_SCOPE};
use crate::steps::{Case, Change, Fact, MANY, Make, Parts, Seen, Step, all_right};
use level_unify::ClashKind;
use std::test::Fail;

const STORE: &[Case] = &[
    (
        "rollback brings back levels and scopes",
        &[
            Step::Let("a", Make::Var(3, 7)),
            Step::Let("b", Make::Var(2, 9)),
            Step::Let("int", Make::Con(NO_SCOPE)),
            Step::Mark,
            Step::Do(Change::Bind("a", "int")),
            Step::Do(Change::Lower("b", 0, 0)),
            Step::Holds(Fact::Is("a", Seen::Constant)),
            Step::Holds(Fact::Is("b", Seen::Var(0, 0))),
            Step::Rollback,
            Step::Holds(Fact::Is("a", Seen::Var(3, 7))),
            Step::Holds(Fact::Is("b", Seen::Var(2, 9))),
        ],
    ),
    (
        "every kind of node",
        &[
            Step::Let("a", Make::Var(1, NO_SCOPE)),
            Step::Let("r", Make::Rigid),
            Step::Let("pair", Make::Tuple(&["a", "r"])),
            Step::Let("f", Make::Arrow("pair", "r")),
            Step::Let("first", Make::Con(NO_SCOPE)),
            Step::Let("second", Make::Con(NO_SCOPE)),
            Step::Do(Change::Link("first", "second")),
            Step::Do(Change::Quantify("a")),
            Step::Holds(Fact::Is("a", Seen::Var(BOUND, NO_SCOPE))),
            Step::Holds(Fact::Is("r", Seen::Rigid)),
            Step::Holds(Fact::Is("pair", Seen::Tuple(2))),
            Step::Holds(Fact::Is("f", Seen::Arrow("pair", "r"))),
            Step::Holds(Fact::Is("first", Seen::Constant)),
        ],
    ),
];

const UNIFIED: &[Case] = &[
    (
        "arrows",
        &[
            Step::Let("a", Make::Var(1, NO_SCOPE)),
            Step::Let("b", Make::Var(1, NO_SCOPE)),
            Step::Let("int", Make::Con(NO_SCOPE)),
            Step::Let("left", Make::Arrow("a", "int")),
            Step::Let("right", Make::Arrow("b", "b")),
            Step::Holds(Fact::Unify("left", "right")),
            Step::Holds(Fact::Is("a", Seen::Constant)),
            Step::Holds(Fact::Is("b", Seen::Constant)),
        ],
    ),
    (
        "a cycle",
        &[
            Step::Let("a", Make::Var(1, 7)),
            Step::Let("arrow", Make::Arrow("a", "a")),
            Step::Holds(Fact::Clash("a", "arrow", ClashKind::Cycle)),
            Step::Holds(Fact::Is("a", Seen::Var(1, 7))),
        ],
    ),
    (
        "a clash is undone",
        &[
            Step::Let("a", Make::Var(1, 7)),
            Step::Let("int", Make::Con(NO_SCOPE)),
            Step::Let("string", Make::Con(18_446_744_073_709_551_614)),
            Step::Let("left", Make::Tuple(&["a", "int"])),
            Step::Let("right", Make::Tuple(&["int", "string"])),
            Step::Holds(Fact::Clash("left", "right", ClashKind::Shape)),
            Step::Holds(Fact::Is("a", Seen::Var(1, 7))),
        ],
    ),
    (
        "out of scope",
        &[
            Step::Let("a", Make::Var(1, 21_474_836_480)),
            Step::Let("con", Make::Con(21_474_836_480)),
            Step::Holds(Fact::Clash("a", "con", ClashKind::Scope)),
            Step::Holds(Fact::Is("a", Seen::Var(1, 21_474_836_480))),
        ],
    ),
    (
        "in scope",
        &[
            Step::Let("a", Make::Var(1, 21_474_836_480)),
            Step::Let("con", Make::Con(17_179_869_184)),
            Step::Holds(Fact::Unify("a", "con")),
            Step::Holds(Fact::Is("a", Seen::Constant)),
        ],
    ),
    (
        "shared doubling",
        &[
            Step::Let("a", Make::Var(2, 9)),
            Step::Let("b", Make::Var(1, NO_SCOPE)),
            Step::Let("left", Make::Doubled("a", 30)),
            Step::Let("right", Make::Doubled("b", 30)),
            Step::Holds(Fact::Unify("left", "right")),
            Step::Holds(Fact::Is("a", Seen::Var(1, 9))),
            Step::Holds(Fact::Is("b", Seen::Var(1, 9))),
        ],
    ),
];

const SCHEMES: &[Case] = &[
    (
        "generalised above a level",
        &[
            Step::Let("a", Make::Var(2, 9)),
            Step::Let("b", Make::Var(1, 9)),
            Step::Let("pair", Make::Tuple(&["a", "b"])),
            Step::Do(Change::Generalise("pair", 1)),
            Step::Holds(Fact::Is("a", Seen::Var(BOUND, 9))),
            Step::Holds(Fact::Is("b", Seen::Var(1, 9))),
        ],
    ),
    // a type with 2^30 places, in 31 nodes
    (
        "doubling is copied",
        &[
            Step::Let("a", Make::Var(2, 9)),
            Step::Let("double", Make::Doubled("a", 30)),
            Step::Holds(Fact::Unify("double", "double")),
            Step::Do(Change::Generalise("double", 1)),
            Step::Let("copy", Make::Instance("double", 5)),
            Step::Holds(Fact::Count(62)),
            Step::Holds(Fact::Is("a", Seen::Var(BOUND, 9))),
            Step::Let("last", Make::Bottom("copy", 30)),
            Step::Holds(Fact::Is("last", Seen::Var(5, NO_SCOPE))),
        ],
    ),
    // ('a * 'b) -> int with 'a bound: 'b and int are shared
    (
        "an instance shares",
        &[
            Step::Let("a", Make::Var(2, 9)),
            Step::Let("b", Make::Var(1, 9)),
            Step::Let("pair", Make::Tuple(&["a", "b"])),
            Step::Let("int", Make::Con(NO_SCOPE)),
            Step::Let("function", Make::Arrow("pair", "int")),
            Step::Do(Change::Generalise("function", 1)),
            Step::Let("copy", Make::Instance("function", 5)),
            Step::Holds(Fact::Count(8)),
            Step::Let("to", Make::Part("copy", 1)),
            Step::Holds(Fact::Same("to", "int")),
            Step::Let("pair", Make::Part("copy", 0)),
            Step::Let("first", Make::Part("pair", 0)),
            Step::Holds(Fact::Is("first", Seen::Var(5, NO_SCOPE))),
            Step::Let("second", Make::Part("pair", 1)),
            Step::Holds(Fact::Same("second", "b")),
            Step::Let("again", Make::Instance("b", 5)),
            Step::Holds(Fact::Same("again", "b")),
            Step::Holds(Fact::Count(8)),
        ],
    ),
    // 'a -> 'a * 'b with both bound
    (
        "frozen apart",
        &[
            Step::Let("a", Make::Var(2, 9)),
            Step::Let("b", Make::Var(2, NO_SCOPE)),
            Step::Let("pair", Make::Tuple(&["a", "b"])),
            Step::Let("function", Make::Arrow("a", "pair")),
            Step::Do(Change::Generalise("function", 1)),
            Step::Let("frozen", Make::Frozen("function")),
            Step::Holds(Fact::Count(8)),
            Step::Let("from", Make::Part("frozen", 0)),
            Step::Let("pair", Make::Part("frozen", 1)),
            Step::Let("second", Make::Part("pair", 1)),
            Step::Let("first", Make::Part("pair", 0)),
            Step::Holds(Fact::Same("first", "from")),
            Step::Holds(Fact::Differ("from", "second")),
            Step::Holds(Fact::Is("from", Seen::Rigid)),
            Step::Holds(Fact::Is("second", Seen::Rigid)),
        ],
    ),
    // two instances of 'a -> 'a
    (
        "instances unify",
        &[
            Step::Let("a", Make::Var(2, 9)),
            Step::Let("function", Make::Arrow("a", "a")),
            Step::Do(Change::Generalise("function", 1)),
            Step::Let("left", Make::Instance("function", 5)),
            Step::Let("right", Make::Instance("function", 3)),
            Step::Holds(Fact::Unify("left", "right")),
            Step::Let("from", Make::Bottom("left", 1)),
            Step::Holds(Fact::Is("from", Seen::Var(3, NO_SCOPE))),
            Step::Holds(Fact::Is("a", Seen::Var(BOUND, 9))),
        ],
    ),
];

const SUBSTITUTED: &[Case] = &[
    // int for 'a in 'a -> 'a * 'b: the other variable is shared, and the type from before stays
    (
        "one variable",
        &[
            Step::Let("a", Make::Var(2, 9)),
            Step::Let("b", Make::Var(2, 9)),
            Step::Let("pair", Make::Tuple(&["a", "b"])),
            Step::Let("function", Make::Arrow("a", "pair")),
            Step::Do(Change::Generalise("function", 1)),
            Step::Let("int", Make::Con(NO_SCOPE)),
            Step::Let("copy", Make::Replaced("function", &["a"], &["int"])),
            Step::Let("from", Make::Part("copy", 0)),
            Step::Holds(Fact::Same("from", "int")),
            Step::Let("copied pair", Make::Part("copy", 1)),
            Step::Let("first", Make::Part("copied pair", 0)),
            Step::Holds(Fact::Same("first", "int")),
            Step::Let("second", Make::Part("copied pair", 1)),
            Step::Holds(Fact::Same("second", "b")),
            Step::Let("old from", Make::Part("function", 0)),
            Step::Holds(Fact::Same("old from", "a")),
            Step::Holds(Fact::Count(7)),
        ],
    ),
    // a type in which no variable is replaced is itself
    (
        "unchanged",
        &[
            Step::Let("a", Make::Var(2, 9)),
            Step::Let("b", Make::Var(2, 9)),
            Step::Let("function", Make::Arrow("a", "a")),
            Step::Let("both", Make::Tuple(&["function", "b"])),
            Step::Do(Change::Generalise("both", 1)),
            Step::Let("int", Make::Con(NO_SCOPE)),
            Step::Let("copy", Make::Replaced("function", &["b"], &["int"])),
            Step::Holds(Fact::Same("copy", "function")),
            Step::Holds(Fact::Count(5)),
        ],
    ),
    // the first type of a variable counts, and one without a type becomes the empty tuple
    (
        "twice and without a type",
        &[
            Step::Let("a", Make::Var(2, 9)),
            Step::Let("b", Make::Var(2, 9)),
            Step::Let("function", Make::Arrow("a", "b")),
            Step::Do(Change::Generalise("function", 1)),
            Step::Let("int", Make::Con(NO_SCOPE)),
            Step::Let(
                "copy",
                Make::Replaced("function", &["a", "a", "b"], &["int", "b"]),
            ),
            Step::Let("from", Make::Part("copy", 0)),
            Step::Holds(Fact::Same("from", "int")),
            Step::Let("to", Make::Part("copy", 1)),
            Step::Holds(Fact::Is("to", Seen::Tuple(0))),
        ],
    ),
];

/// Large types: what takes time by more than the nodes that are reached shows here.
const LARGE_FUNCTIONS: &[Case] = &[
    // two long functions with no node in common
    (
        "long functions",
        &[
            Step::Let("int", Make::Con(NO_SCOPE)),
            Step::Let("left", Make::LongArrow(Parts::Same("int"), "int")),
            Step::Let("other", Make::Con(NO_SCOPE)),
            Step::Let("last", Make::Var(1, NO_SCOPE)),
            Step::Let("right", Make::LongArrow(Parts::Same("other"), "last")),
            Step::Holds(Fact::Unify("left", "right")),
            Step::Holds(Fact::Is("last", Seen::Constant)),
        ],
    ),
    // a long function whose parameters are variables, and one of constants
    (
        "a long function of variables",
        &[
            Step::Let("int", Make::Con(NO_SCOPE)),
            Step::Let("left", Make::LongArrow(Parts::Same("int"), "int")),
            Step::Let("last", Make::Var(1, NO_SCOPE)),
            Step::Let("right", Make::LongArrow(Parts::Variables, "last")),
            Step::Holds(Fact::Unify("right", "left")),
        ],
    ),
    // variables in one tuple, and one long function in each place of the other
    (
        "a shared function",
        &[
            Step::Let("int", Make::Con(NO_SCOPE)),
            Step::Let("inner", Make::Var(3, NO_SCOPE)),
            Step::Let("long", Make::LongArrow(Parts::Same("int"), "inner")),
            Step::Let("left", Make::LongTuple(Parts::Variables, MANY)),
            Step::Let("right", Make::LongTuple(Parts::Same("long"), MANY)),
            Step::Holds(Fact::Unify("left", "right")),
            Step::Holds(Fact::Is("inner", Seen::Var(2, NO_SCOPE))),
        ],
    ),
    // the shared function where no limit is the lowest: the lower a variable's level is, the higher is its scope
    (
        "a shared function of many limits",
        &[
            Step::Let("int", Make::Con(NO_SCOPE)),
            Step::Let("inner", Make::Var(MANY + 1, NO_SCOPE)),
            Step::Let("long", Make::LongArrow(Parts::Same("int"), "inner")),
            Step::Let("left", Make::LongTuple(Parts::LimitedVariables, MANY)),
            Step::Let("right", Make::LongTuple(Parts::Same("long"), MANY)),
            Step::Holds(Fact::Unify("left", "right")),
            Step::Holds(Fact::Is("inner", Seen::Var(1, NO_SCOPE - MANY as u64 + 1))),
        ],
    ),
];

const LARGE_LISTS: &[Case] = &[
    // what the elements of a list literal do: each is made one with the first
    (
        "a long list",
        &[
            Step::Let("element", Make::Var(1, NO_SCOPE)),
            Step::Holds(Fact::WithEach("element", Parts::Constants)),
        ],
    ),
    (
        "a long list of variables",
        &[
            Step::Let("element", Make::Var(1, NO_SCOPE)),
            Step::Let("vars", Make::LongTuple(Parts::Variables, MANY)),
            Step::Holds(Fact::EachWith(Parts::Of("vars"), "element")),
            Step::Holds(Fact::WithEach("element", Parts::Of("vars"))),
        ],
    ),
    // what an application does: each parameter of a long function is made one with an argument's type
    (
        "a long application",
        &[
            Step::Let("int", Make::Con(NO_SCOPE)),
            Step::Let("function", Make::LongArrow(Parts::Variables, "int")),
            Step::Let("left", Make::Applied("function")),
            Step::Holds(Fact::Unify("left", "int")),
        ],
    ),
    // one variable in each place of a tuple, and another constant in each place of the other
    (
        "one variable",
        &[
            Step::Let("var", Make::Var(2, NO_SCOPE)),
            Step::Let("left", Make::LongTuple(Parts::Same("var"), MANY)),
            Step::Let("right", Make::LongTuple(Parts::Constants, MANY)),
            Step::Holds(Fact::Unify("left", "right")),
        ],
    ),
    // each variable is a pair of the next one, all at once: (x1, x2, ..) and (x2 * x2, x3 * x3, ..)
    (
        "pairs of pairs",
        &[
            Step::Let("vars", Make::LongTuple(Parts::Variables, MANY)),
            Step::Let("left", Make::LongTuple(Parts::Of("vars"), MANY - 1)),
            Step::Let(
                "right",
                Make::LongTuple(Parts::PairsOfNext("vars"), MANY - 1),
            ),
            Step::Holds(Fact::Unify("left", "right")),
        ],
    ),
];

#[test]
fn cases(rt: HostRuntime) -> Result<(), Fail> {
    all_right(rt.alloc(), STORE)?;
    all_right(rt.alloc(), UNIFIED)?;
    all_right(rt.alloc(), SCHEMES)?;
    all_right(rt.alloc(), SUBSTITUTED)
}

#[test]
fn large_functions(rt: HostRuntime) -> Result<(), Fail> {
    all_right(rt.alloc(), LARGE_FUNCTIONS)
}

#[test]
fn large_lists(rt: HostRuntime) -> Result<(), Fail> {
    all_right(rt.alloc(), LARGE_LISTS)
}
