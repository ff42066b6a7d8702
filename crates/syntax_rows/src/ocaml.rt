//! The table of the language, in the order in which its definition has the rows.
ghost use Rattle.std.specs.Prelude.{◌≡◌, ◌<◌, length};
ghost use Rattle.grammar_model.specs.Ocaml as ocaml;
ghost use Rattle.syntax_rows.specs.View.{rows_of, table_of, text_of};

use crate::keys::Key;
use crate::rows::{Edge, Left, Row, Sort, Spot, Table, What};
use syntax_tree::{RowName, TokenKind};

/// The texts that are read.
#[derive(Clone, Copy, Debug, PartialEq, Eq)]
pub enum Text {
    /// a program
    Program,
    /// a signature: the row `sig` without its two words
    Signature,
}

/// The number of the row of a whole text.
fn root_of(text: Text) -> u8
    ensures { result ≡ ocaml.root_of (text_of text) }
{
    match text {
        Text::Program => 0,
        Text::Signature => 107,
    }
}

/// The table with this row as the row of a whole text.
fn table_with(root: u8) -> Table<'static>
    ensures rows { rows_of result ≡ ocaml.rows }
    ensures root { result.root ≡ root }
    ensures few { length result.rows.now < 256 }
{
    Table {
        root,
        rows: &ROWS,
        spots: &SPOTS,
        edges: &EDGES,
        keys: &KEYS,
    }
}

/// The table with the row of a text.
pub fn grammar(text: Text) -> Table<'static>
    ensures rows { rows_of result ≡ ocaml.rows }
    ensures table { table_of result ≡ ocaml.grammar (text_of text) }
    ensures few { length result.rows.now < 256 }
{
    table_with(root_of(text))
}

/// Rows, a line each: the name; the sort; what is needed on the left; the level that the row has; the highest level of a slot
/// in which it may stand; the number of its first spot, and how many it has.
macro_rules! rows {
    ($($name:ident: $sort:ident, $left:expr, $level:literal, $stand:literal, $first:literal, $count:literal;)*) => {
        [$(Row {
            name: RowName::$name,
            sort: Sort::$sort,
            left: $left,
            level: $level,
            stand: $stand,
            first: $first,
            count: $count,
        }),*]
    };
}

/// What stands at a spot: the start, a token with certain keys, or an operand of a sort and a level.
macro_rules! what {
    ((start)) => {
        What::Nothing
    };
    ((token $keys:ident)) => {
        What::Token {
            first: $keys.0,
            count: $keys.1,
        }
    };
    (($sort:ident $level:literal)) => {
        What::Operand {
            sort: Sort::$sort,
            level: $level,
        }
    };
}

/// Whether a row may end at a spot.
macro_rules! ends {
    () => {
        false
    };
    (end) => {
        true
    };
}

/// The spots of rows, a line each row, from spot 0 on: what stands at each spot, which spots may come next, and `end` where the
/// row may end. At spot 0 the row starts, or its left operand stands; a spot that nothing leads to is none.
macro_rules! spots {
    ($($row:ident: $([$what:tt $next:ident $($end:ident)?])+)*) => {
        [$($(Spot {
            what: what!($what),
            first: $next.0,
            count: $next.1,
            ends: ends!($($end)?),
        }),+),*]
    };
}

/// The keys of the spots that take a token.
static KEYS: [Key; 83] = [
    Key::Kind(TokenKind::Let),
    Key::Kind(TokenKind::Rec),
    Key::Kind(TokenKind::And),
    Key::Kind(TokenKind::TypeWord),
    Key::Kind(TokenKind::Exception),
    Key::Kind(TokenKind::Module),
    Key::Kind(TokenKind::Upper),
    Key::Kind(TokenKind::LeftParen),
    Key::Kind(TokenKind::Colon),
    Key::Kind(TokenKind::RightParen),
    Key::Equal,
    Key::Kind(TokenKind::ModuleType),
    Key::Kind(TokenKind::Open),
    Key::Kind(TokenKind::Qualifier),
    Key::Kind(TokenKind::Include),
    Key::Kind(TokenKind::SemiSemi),
    Key::Kind(TokenKind::Val),
    Key::Kind(TokenKind::Lower),
    Key::Kind(TokenKind::OpName),
    Key::Kind(TokenKind::TyVar),
    Key::Kind(TokenKind::Comma),
    Key::Kind(TokenKind::Bar),
    Key::Kind(TokenKind::LeftBrace),
    Key::Kind(TokenKind::Semi),
    Key::Kind(TokenKind::RightBrace),
    Key::Kind(TokenKind::Of),
    Key::Kind(TokenKind::Mutable),
    Key::Star,
    Key::Kind(TokenKind::Arrow),
    Key::Kind(TokenKind::Underscore),
    Key::Kind(TokenKind::Int),
    Key::Kind(TokenKind::Float),
    Key::Kind(TokenKind::Char),
    Key::Kind(TokenKind::Str),
    Key::Kind(TokenKind::Unit),
    Key::Kind(TokenKind::Nil),
    Key::Kind(TokenKind::True),
    Key::Kind(TokenKind::False),
    Key::Minus,
    Key::Kind(TokenKind::LeftBracket),
    Key::Kind(TokenKind::RightBracket),
    Key::Kind(TokenKind::ColonColon),
    Key::Kind(TokenKind::As),
    Key::Kind(TokenKind::When),
    Key::Kind(TokenKind::Lower),
    Key::Kind(TokenKind::Upper),
    Key::Kind(TokenKind::Begin),
    Key::Kind(TokenKind::End),
    Key::Kind(TokenKind::With),
    Key::Kind(TokenKind::Prefix),
    Key::Kind(TokenKind::Dot),
    Key::Kind(TokenKind::Assert),
    Key::Kind(TokenKind::While),
    Key::Kind(TokenKind::Do),
    Key::Kind(TokenKind::Done),
    Key::Kind(TokenKind::For),
    Key::Kind(TokenKind::To),
    Key::Kind(TokenKind::Downto),
    Key::MinusPoint,
    Key::Kind(TokenKind::Op14),
    Key::Kind(TokenKind::Op13),
    Key::Star,
    Key::Kind(TokenKind::Op12),
    Key::Minus,
    Key::MinusPoint,
    Key::Kind(TokenKind::Op10),
    Key::Kind(TokenKind::Op9),
    Key::Equal,
    Key::Kind(TokenKind::Op8),
    Key::Kind(TokenKind::Op7),
    Key::Kind(TokenKind::ColonEqual),
    Key::Kind(TokenKind::LeftArrow),
    Key::Kind(TokenKind::If),
    Key::Kind(TokenKind::Then),
    Key::Kind(TokenKind::Else),
    Key::Kind(TokenKind::In),
    Key::Kind(TokenKind::Match),
    Key::Kind(TokenKind::Try),
    Key::Kind(TokenKind::Fun),
    Key::Kind(TokenKind::Function),
    Key::Kind(TokenKind::Struct),
    Key::Kind(TokenKind::Functor),
    Key::Kind(TokenKind::Sig),
];

// Keys of a spot: the first among the table's keys, and how many.
const LET: (u16, u8) = (0, 1);

const REC: (u16, u8) = (1, 1);

const AND: (u16, u8) = (2, 1);

const TYPE_WORD: (u16, u8) = (3, 1);

const EXCEPTION: (u16, u8) = (4, 1);

const MODULE: (u16, u8) = (5, 1);

const UPPER: (u16, u8) = (6, 1);

const LEFT_PAREN: (u16, u8) = (7, 1);

const COLON: (u16, u8) = (8, 1);

const RIGHT_PAREN: (u16, u8) = (9, 1);

const EQUAL: (u16, u8) = (10, 1);

const MODULE_TYPE: (u16, u8) = (11, 1);

const OPEN: (u16, u8) = (12, 1);

const QUALIFIER: (u16, u8) = (13, 1);

const INCLUDE: (u16, u8) = (14, 1);

const SEMI_SEMI: (u16, u8) = (15, 1);

const VAL: (u16, u8) = (16, 1);

const LOWER: (u16, u8) = (17, 1);

const LOWER_OR_OP_NAME: (u16, u8) = (17, 2);

const TY_VAR: (u16, u8) = (19, 1);

const COMMA: (u16, u8) = (20, 1);

const BAR: (u16, u8) = (21, 1);

const LEFT_BRACE: (u16, u8) = (22, 1);

const SEMI: (u16, u8) = (23, 1);

const RIGHT_BRACE: (u16, u8) = (24, 1);

const OF: (u16, u8) = (25, 1);

const MUTABLE: (u16, u8) = (26, 1);

const STAR: (u16, u8) = (27, 1);

const ARROW: (u16, u8) = (28, 1);

const UNDERSCORE: (u16, u8) = (29, 1);

const INT_OR_FLOAT: (u16, u8) = (30, 2);

const CONSTANT: (u16, u8) = (30, 8);

const MINUS: (u16, u8) = (38, 1);

const LEFT_BRACKET: (u16, u8) = (39, 1);

const RIGHT_BRACKET: (u16, u8) = (40, 1);

const COLON_COLON: (u16, u8) = (41, 1);

const AS: (u16, u8) = (42, 1);

const WHEN: (u16, u8) = (43, 1);

const LOWER_OR_UPPER: (u16, u8) = (44, 2);

const BEGIN: (u16, u8) = (46, 1);

const END: (u16, u8) = (47, 1);

const WITH: (u16, u8) = (48, 1);

const PREFIX: (u16, u8) = (49, 1);

const DOT: (u16, u8) = (50, 1);

const ASSERT: (u16, u8) = (51, 1);

const WHILE: (u16, u8) = (52, 1);

const DO: (u16, u8) = (53, 1);

const DONE: (u16, u8) = (54, 1);

const FOR: (u16, u8) = (55, 1);

const TO_OR_DOWNTO: (u16, u8) = (56, 2);

const MINUS_POINT: (u16, u8) = (58, 1);

const OP14: (u16, u8) = (59, 1);

const OP13_OR_STAR: (u16, u8) = (60, 2);

const OP12_OR_MINUS_OR_MINUS_POINT: (u16, u8) = (62, 3);

const OP10: (u16, u8) = (65, 1);

const OP9_OR_EQUAL: (u16, u8) = (66, 2);

const OP8: (u16, u8) = (68, 1);

const OP7: (u16, u8) = (69, 1);

const COLON_EQUAL: (u16, u8) = (70, 1);

const LEFT_ARROW: (u16, u8) = (71, 1);

const IF: (u16, u8) = (72, 1);

const THEN: (u16, u8) = (73, 1);

const ELSE: (u16, u8) = (74, 1);

const IN: (u16, u8) = (75, 1);

const MATCH: (u16, u8) = (76, 1);

const TRY: (u16, u8) = (77, 1);

const FUN: (u16, u8) = (78, 1);

const FUNCTION: (u16, u8) = (79, 1);

const STRUCT: (u16, u8) = (80, 1);

const FUNCTOR: (u16, u8) = (81, 1);

const SIG: (u16, u8) = (82, 1);

/// Spots that may come next, each behind another.
macro_rules! edges {
    ($($spot:literal $(behind $row:literal)?,)*) => {
        [$(Edge {
            spot: $spot,
            behind: behind!($($row)?),
        }),*]
    };
}

/// The row behind which alone a spot may come.
macro_rules! behind {
    () => {
        None
    };
    ($row:literal) => {
        Some($row)
    };
}

/// The spots that may come next.
static EDGES: [Edge; 34] = edges![
    1, 2, 3, 4, 3, 8, 10, 5, 6, 7, 9, 11, 2, 4, 3, 5, 2 behind 39, 3, 5, 2, 3, 5, 3, 5, 7, 8, 6, 8, 4, 5, 4, 6, 2, 7,
];

// The spots that may come next: the first among the table's edges, and how many.
const TO_NONE: (u16, u8) = (0, 0);

const TO_1: (u16, u8) = (0, 1);

const TO_1_2: (u16, u8) = (0, 2);

const TO_2: (u16, u8) = (1, 1);

const TO_2_3: (u16, u8) = (1, 2);

const TO_3: (u16, u8) = (2, 1);

const TO_3_4: (u16, u8) = (2, 2);

const TO_4: (u16, u8) = (3, 1);

const TO_3_8: (u16, u8) = (4, 2);

const TO_3_8_10: (u16, u8) = (4, 3);

const TO_8: (u16, u8) = (5, 1);

const TO_10: (u16, u8) = (6, 1);

const TO_5: (u16, u8) = (7, 1);

const TO_6: (u16, u8) = (8, 1);

const TO_7: (u16, u8) = (9, 1);

const TO_9: (u16, u8) = (10, 1);

const TO_11: (u16, u8) = (11, 1);

const TO_2_4: (u16, u8) = (12, 2);

const TO_3_5: (u16, u8) = (14, 2);

const TO_2_BEHIND_PNAME_3_5: (u16, u8) = (16, 3);

const TO_2_3_5: (u16, u8) = (19, 3);

const TO_3_5_7_8: (u16, u8) = (22, 4);

const TO_7_8: (u16, u8) = (24, 2);

const TO_6_8: (u16, u8) = (26, 2);

const TO_4_5: (u16, u8) = (28, 2);

const TO_4_6: (u16, u8) = (30, 2);

const TO_2_7: (u16, u8) = (32, 2);

/// The spots of the rows.
static SPOTS: [Spot; 482] = spots![
    Program: [(start) TO_1 end] [(Item 0) TO_1 end]
    Let: [(start) TO_1] [(token LET) TO_2_3] [(token REC) TO_3] [(Binding 0) TO_4 end] [(token AND) TO_3]
    TypeRow: [(start) TO_1] [(token TYPE_WORD) TO_3] [(start) TO_NONE end] [(Declaration 0) TO_4 end] [(token AND) TO_3]
    TypeRow: [(start) TO_1] [(token TYPE_WORD) TO_3] [(start) TO_NONE end] [(Declaration 0) TO_4 end] [(token AND) TO_3]
    Exception: [(start) TO_1] [(token EXCEPTION) TO_2] [(Constructor 0) TO_NONE end]
    Exception: [(start) TO_1] [(token EXCEPTION) TO_2] [(Constructor 0) TO_NONE end]
    Module: [(start) TO_1] [(token MODULE) TO_2] [(token UPPER) TO_3_8_10] [(token LEFT_PAREN) TO_4] [(token UPPER) TO_5] [(token COLON) TO_6] [(ModuleType 0) TO_7] [(token RIGHT_PAREN) TO_3_8_10] [(token COLON) TO_9] [(ModuleType 0) TO_10] [(token EQUAL) TO_11] [(ModuleExpression 0) TO_NONE end]
    Modtype: [(start) TO_1] [(token MODULE_TYPE) TO_2] [(token UPPER) TO_3] [(token EQUAL) TO_4] [(ModuleType 0) TO_NONE end]
    Modtype: [(start) TO_1] [(token MODULE_TYPE) TO_2] [(token UPPER) TO_3] [(token EQUAL) TO_4] [(ModuleType 0) TO_NONE end]
    Open: [(start) TO_1] [(token OPEN) TO_2_3] [(token QUALIFIER) TO_2_3] [(token UPPER) TO_NONE end]
    Open: [(start) TO_1] [(token OPEN) TO_2_3] [(token QUALIFIER) TO_2_3] [(token UPPER) TO_NONE end]
    Include: [(start) TO_1] [(token INCLUDE) TO_2_3] [(token QUALIFIER) TO_2_3] [(token UPPER) TO_NONE end]
    Include: [(start) TO_1] [(token INCLUDE) TO_2_3] [(token QUALIFIER) TO_2_3] [(token UPPER) TO_NONE end]
    Break: [(start) TO_1] [(token SEMI_SEMI) TO_NONE end]
    Val: [(start) TO_1] [(token VAL) TO_2] [(token LOWER_OR_OP_NAME) TO_3] [(token COLON) TO_4] [(TypeExpression 1) TO_NONE end]
    Gmodule: [(start) TO_1] [(token MODULE) TO_2] [(token UPPER) TO_3_8] [(token LEFT_PAREN) TO_4] [(token UPPER) TO_5] [(token COLON) TO_6] [(ModuleType 0) TO_7] [(token RIGHT_PAREN) TO_3_8] [(token COLON) TO_9] [(ModuleType 0) TO_NONE end]
    Decl: [(start) TO_1] [(Head 0) TO_2 end] [(token EQUAL) TO_3] [(RightSide 0) TO_NONE end]
    Head: [(start) TO_5] [(start) TO_NONE end] [(start) TO_NONE end] [(start) TO_NONE end] [(start) TO_NONE end] [(token LOWER) TO_NONE end]
    Head: [(start) TO_2] [(start) TO_NONE end] [(token TY_VAR) TO_5] [(start) TO_NONE end] [(start) TO_NONE end] [(token LOWER) TO_NONE end]
    Head: [(start) TO_1] [(token LEFT_PAREN) TO_2] [(token TY_VAR) TO_3_4] [(token COMMA) TO_2] [(token RIGHT_PAREN) TO_5] [(token LOWER) TO_NONE end]
    Alias: [(start) TO_1] [(TypeExpression 1) TO_2 end] [(token EQUAL) TO_3] [(TypeKind 0) TO_NONE end]
    Variant: [(start) TO_1] [(token BAR) TO_2] [(Constructor 0) TO_1 end]
    Variant: [(start) TO_1] [(token BAR) TO_2] [(Constructor 0) TO_1 end]
    Variant: [(start) TO_2] [(token BAR) TO_2] [(Constructor 0) TO_1 end]
    Variant: [(start) TO_2] [(token BAR) TO_2] [(Constructor 0) TO_1 end]
    Record: [(start) TO_1] [(token LEFT_BRACE) TO_2] [(Label 0) TO_3_4] [(token SEMI) TO_2_4] [(token RIGHT_BRACE) TO_NONE end]
    Record: [(start) TO_1] [(token LEFT_BRACE) TO_2] [(Label 0) TO_3_4] [(token SEMI) TO_2_4] [(token RIGHT_BRACE) TO_NONE end]
    Con: [(start) TO_1] [(token UPPER) TO_2 end] [(token OF) TO_3] [(TypeExpression 2) TO_NONE end]
    LabelRow: [(start) TO_2] [(start) TO_NONE end] [(token LOWER) TO_3] [(token COLON) TO_4] [(TypeExpression 1) TO_NONE end]
    LabelRow: [(start) TO_1] [(token MUTABLE) TO_2] [(token LOWER) TO_3] [(token COLON) TO_4] [(TypeExpression 1) TO_NONE end]
    WithRow: [(start) TO_1] [(token TYPE_WORD) TO_2] [(Head 0) TO_3] [(token EQUAL) TO_4] [(TypeExpression 1) TO_NONE end]
    Tvar: [(start) TO_1] [(token TY_VAR) TO_NONE end]
    Tcon: [(start) TO_2] [(start) TO_NONE end] [(token LOWER) TO_NONE end]
    Tcon: [(start) TO_1] [(token QUALIFIER) TO_1_2] [(token LOWER) TO_NONE end]
    Tparen: [(start) TO_1] [(token LEFT_PAREN) TO_2] [(TypeExpression 1) TO_3_4] [(token COMMA) TO_2] [(token RIGHT_PAREN) TO_NONE end]
    Tapp: [(start) TO_3] [(start) TO_NONE end] [(start) TO_NONE end] [(token LOWER) TO_NONE end]
    Tapp: [(start) TO_2] [(start) TO_NONE end] [(token QUALIFIER) TO_2_3] [(token LOWER) TO_NONE end]
    Ttuple: [(start) TO_2] [(start) TO_NONE end] [(token STAR) TO_3] [(TypeExpression 3) TO_2 end]
    Tarrow: [(start) TO_2] [(start) TO_NONE end] [(token ARROW) TO_3] [(TypeExpression 1) TO_NONE end]
    Pname: [(start) TO_1] [(token LOWER_OR_OP_NAME) TO_NONE end]
    Pany: [(start) TO_1] [(token UNDERSCORE) TO_NONE end]
    Pconst: [(start) TO_1] [(token CONSTANT) TO_NONE end]
    Pneg: [(start) TO_1] [(token MINUS) TO_2] [(token INT_OR_FLOAT) TO_NONE end]
    Pcon: [(start) TO_2] [(start) TO_NONE end] [(token UPPER) TO_NONE end]
    Pcon: [(start) TO_1] [(token QUALIFIER) TO_1_2] [(token UPPER) TO_NONE end]
    Pparen: [(start) TO_1] [(token LEFT_PAREN) TO_2] [(Pattern 0) TO_3_5] [(token COLON) TO_4] [(TypeExpression 1) TO_5] [(token RIGHT_PAREN) TO_NONE end]
    Plist: [(start) TO_1] [(token LEFT_BRACKET) TO_2] [(Pattern 1) TO_3_4] [(token SEMI) TO_2_4] [(token RIGHT_BRACKET) TO_NONE end]
    Precord: [(start) TO_1] [(token LEFT_BRACE) TO_2] [(FieldPattern 0) TO_3_4] [(token SEMI) TO_2_4] [(token RIGHT_BRACE) TO_NONE end]
    Papp: [(start) TO_2] [(start) TO_NONE end] [(Pattern 6) TO_NONE end]
    Pcons: [(start) TO_2] [(start) TO_NONE end] [(token COLON_COLON) TO_3] [(Pattern 4) TO_NONE end]
    Ptuple: [(start) TO_2] [(start) TO_NONE end] [(token COMMA) TO_3] [(Pattern 4) TO_2 end]
    Por: [(start) TO_2] [(start) TO_NONE end] [(token BAR) TO_3] [(Pattern 3) TO_2 end]
    Pas: [(start) TO_2] [(start) TO_NONE end] [(token AS) TO_3] [(token LOWER) TO_NONE end]
    Qfield: [(start) TO_2] [(start) TO_NONE end] [(token LOWER) TO_3 end] [(token EQUAL) TO_4] [(Pattern 1) TO_NONE end]
    Qfield: [(start) TO_1] [(token QUALIFIER) TO_1_2] [(token LOWER) TO_3 end] [(token EQUAL) TO_4] [(Pattern 1) TO_NONE end]
    Qfield: [(start) TO_5] [(start) TO_NONE end] [(start) TO_NONE end] [(start) TO_NONE end] [(start) TO_NONE end] [(token UNDERSCORE) TO_NONE end]
    Binding: [(start) TO_1] [(Pattern 0) TO_2_BEHIND_PNAME_3_5] [(Pattern 6) TO_2_3_5] [(token COLON) TO_4] [(TypeExpression 1) TO_5] [(token EQUAL) TO_6] [(Expression 0) TO_NONE end]
    Case: [(start) TO_1] [(Pattern 0) TO_2_4] [(token WHEN) TO_3] [(Expression 0) TO_4] [(token ARROW) TO_5] [(Expression 0) TO_NONE end]
    Ffield: [(start) TO_2] [(start) TO_NONE end] [(token LOWER) TO_3 end] [(token EQUAL) TO_4] [(Expression 2) TO_NONE end]
    Ffield: [(start) TO_1] [(token QUALIFIER) TO_1_2] [(token LOWER) TO_3 end] [(token EQUAL) TO_4] [(Expression 2) TO_NONE end]
    Name: [(start) TO_1] [(token LOWER_OR_OP_NAME) TO_NONE end]
    Econ: [(start) TO_1] [(token UPPER) TO_NONE end]
    Epath: [(start) TO_1] [(token QUALIFIER) TO_1_2] [(token LOWER_OR_UPPER) TO_NONE end]
    Econst: [(start) TO_1] [(token CONSTANT) TO_NONE end]
    Hole: [(start) TO_1] [(token UNDERSCORE) TO_NONE end]
    Eparen: [(start) TO_1] [(token LEFT_PAREN) TO_2] [(Expression 0) TO_3_5] [(token COLON) TO_4] [(TypeExpression 1) TO_5] [(token RIGHT_PAREN) TO_NONE end]
    Ebegin: [(start) TO_1] [(token BEGIN) TO_2_3] [(Expression 0) TO_3] [(token END) TO_NONE end]
    Elist: [(start) TO_1] [(token LEFT_BRACKET) TO_2] [(Expression 2) TO_3_4] [(token SEMI) TO_2_4] [(token RIGHT_BRACKET) TO_NONE end]
    Erecord: [(start) TO_1] [(token LEFT_BRACE) TO_2] [(Expression 17) TO_3_5_7_8] [(token EQUAL) TO_4] [(Expression 2) TO_7_8] [(token WITH) TO_6] [(Field 0) TO_7_8] [(token SEMI) TO_6_8] [(token RIGHT_BRACE) TO_NONE end]
    Prefix: [(start) TO_1] [(token PREFIX) TO_2] [(Expression 18) TO_NONE end]
    Field: [(start) TO_2] [(start) TO_NONE end] [(token DOT) TO_3_4] [(token QUALIFIER) TO_3_4] [(token LOWER) TO_NONE end]
    Eapp: [(start) TO_2] [(start) TO_NONE end] [(Expression 17) TO_2 end]
    Eassert: [(start) TO_1] [(token ASSERT) TO_2] [(Expression 17) TO_NONE end]
    Ewhile: [(start) TO_1] [(token WHILE) TO_2] [(Expression 0) TO_3] [(token DO) TO_4] [(Expression 0) TO_5] [(token DONE) TO_NONE end]
    Efor: [(start) TO_1] [(token FOR) TO_2] [(token LOWER) TO_3] [(token EQUAL) TO_4] [(Expression 0) TO_5] [(token TO_OR_DOWNTO) TO_6] [(Expression 0) TO_7] [(token DO) TO_8] [(Expression 0) TO_9] [(token DONE) TO_NONE end]
    Eneg: [(start) TO_1] [(token MINUS) TO_2] [(Expression 15) TO_NONE end]
    Eneg: [(start) TO_1] [(token MINUS_POINT) TO_2] [(Expression 15) TO_NONE end]
    Infix: [(start) TO_2] [(start) TO_NONE end] [(token OP14) TO_3] [(Expression 14) TO_NONE end]
    Infix: [(start) TO_2] [(start) TO_NONE end] [(token OP13_OR_STAR) TO_3] [(Expression 14) TO_NONE end]
    Infix: [(start) TO_2] [(start) TO_NONE end] [(token OP12_OR_MINUS_OR_MINUS_POINT) TO_3] [(Expression 13) TO_NONE end]
    Econs: [(start) TO_2] [(start) TO_NONE end] [(token COLON_COLON) TO_3] [(Expression 11) TO_NONE end]
    Infix: [(start) TO_2] [(start) TO_NONE end] [(token OP10) TO_3] [(Expression 10) TO_NONE end]
    Infix: [(start) TO_2] [(start) TO_NONE end] [(token OP9_OR_EQUAL) TO_3] [(Expression 10) TO_NONE end]
    Infix: [(start) TO_2] [(start) TO_NONE end] [(token OP8) TO_3] [(Expression 8) TO_NONE end]
    Infix: [(start) TO_2] [(start) TO_NONE end] [(token OP7) TO_3] [(Expression 7) TO_NONE end]
    Etuple: [(start) TO_2] [(start) TO_NONE end] [(token COMMA) TO_3] [(Expression 7) TO_2 end]
    Infix: [(start) TO_2] [(start) TO_NONE end] [(token COLON_EQUAL) TO_3] [(Expression 5) TO_NONE end]
    Eset: [(start) TO_2] [(start) TO_NONE end] [(token LEFT_ARROW) TO_3] [(Expression 5) TO_NONE end]
    Eif: [(start) TO_1] [(token IF) TO_2] [(Expression 0) TO_3] [(token THEN) TO_4] [(Expression 4) TO_5 end] [(token ELSE) TO_6] [(Expression 4) TO_NONE end]
    Eseq: [(start) TO_2] [(start) TO_NONE end] [(token SEMI) TO_3 end] [(Expression 2) TO_2 end]
    Elet: [(start) TO_1] [(token LET) TO_2_3] [(token REC) TO_3] [(Binding 0) TO_4_5] [(token AND) TO_3] [(token IN) TO_6] [(Expression 0) TO_NONE end]
    Ematch: [(start) TO_1] [(token MATCH) TO_2] [(Expression 0) TO_3] [(token WITH) TO_4_5] [(token BAR) TO_5] [(Case 0) TO_4 end]
    Etry: [(start) TO_1] [(token TRY) TO_2] [(Expression 0) TO_3] [(token WITH) TO_4_5] [(token BAR) TO_5] [(Case 0) TO_4 end]
    Efun: [(start) TO_1] [(token FUN) TO_2] [(Pattern 6) TO_2_3] [(token ARROW) TO_4] [(Expression 0) TO_NONE end]
    Efunction: [(start) TO_1] [(token FUNCTION) TO_4_5] [(start) TO_NONE end] [(start) TO_NONE end] [(token BAR) TO_5] [(Case 0) TO_4 end]
    Mpath: [(start) TO_2] [(start) TO_NONE end] [(token UPPER) TO_NONE end]
    Mpath: [(start) TO_1] [(token QUALIFIER) TO_1_2] [(token UPPER) TO_NONE end]
    Mstruct: [(start) TO_1] [(token STRUCT) TO_2_3] [(Item 0) TO_2_3] [(token END) TO_NONE end]
    Mparen: [(start) TO_1] [(token LEFT_PAREN) TO_2] [(ModuleExpression 0) TO_3_5] [(token COLON) TO_4] [(ModuleType 0) TO_5] [(token RIGHT_PAREN) TO_NONE end]
    Mapp: [(start) TO_2] [(start) TO_NONE end] [(token LEFT_PAREN) TO_3] [(ModuleExpression 0) TO_4_6] [(token COLON) TO_5] [(ModuleType 0) TO_6] [(token RIGHT_PAREN) TO_NONE end]
    Mfunctor: [(start) TO_1] [(token FUNCTOR) TO_2] [(token LEFT_PAREN) TO_3] [(token UPPER) TO_4] [(token COLON) TO_5] [(ModuleType 0) TO_6] [(token RIGHT_PAREN) TO_2_7] [(token ARROW) TO_8] [(ModuleExpression 0) TO_NONE end]
    Ypath: [(start) TO_2] [(start) TO_NONE end] [(token UPPER) TO_NONE end]
    Ypath: [(start) TO_1] [(token QUALIFIER) TO_1_2] [(token UPPER) TO_NONE end]
    Ysig: [(start) TO_1] [(token SIG) TO_2_3] [(SignatureItem 0) TO_2_3] [(token END) TO_NONE end]
    Yparen: [(start) TO_1] [(token LEFT_PAREN) TO_2] [(ModuleType 0) TO_3] [(token RIGHT_PAREN) TO_NONE end]
    Ywith: [(start) TO_2] [(start) TO_NONE end] [(token WITH) TO_3] [(WithClause 0) TO_4 end] [(token AND) TO_3]
    Yfunctor: [(start) TO_1] [(token FUNCTOR) TO_2] [(token LEFT_PAREN) TO_3] [(token UPPER) TO_4] [(token COLON) TO_5] [(ModuleType 0) TO_6] [(token RIGHT_PAREN) TO_2_7] [(token ARROW) TO_8] [(ModuleType 0) TO_NONE end]
    Ysig: [(start) TO_2 end] [(start) TO_NONE end] [(SignatureItem 0) TO_2 end]
];

/// The rows, in the order in which the definition has them.
pub static ROWS: [Row; 108] = rows![
    Program: Program, Left::None, 0, 0, 0, 2;
    Let: Item, Left::None, 0, 0, 2, 5;
    TypeRow: Item, Left::None, 0, 0, 7, 5;
    TypeRow: SignatureItem, Left::None, 0, 0, 12, 5;
    Exception: Item, Left::None, 0, 0, 17, 3;
    Exception: SignatureItem, Left::None, 0, 0, 20, 3;
    Module: Item, Left::None, 0, 0, 23, 12;
    Modtype: Item, Left::None, 0, 0, 35, 5;
    Modtype: SignatureItem, Left::None, 0, 0, 40, 5;
    Open: Item, Left::None, 0, 0, 45, 4;
    Open: SignatureItem, Left::None, 0, 0, 49, 4;
    Include: Item, Left::None, 0, 0, 53, 4;
    Include: SignatureItem, Left::None, 0, 0, 57, 4;
    Break: Item, Left::None, 0, 0, 61, 2;
    Val: SignatureItem, Left::None, 0, 0, 63, 5;
    Gmodule: SignatureItem, Left::None, 0, 0, 68, 10;
    Decl: Declaration, Left::None, 0, 0, 78, 4;
    Head: Head, Left::None, 0, 0, 82, 6;
    Head: Head, Left::None, 0, 0, 88, 6;
    Head: Head, Left::None, 0, 0, 94, 6;
    Alias: RightSide, Left::None, 0, 0, 100, 4;
    Variant: RightSide, Left::None, 0, 0, 104, 3;
    Variant: TypeKind, Left::None, 0, 0, 107, 3;
    Variant: RightSide, Left::None, 0, 0, 110, 3;
    Variant: TypeKind, Left::None, 0, 0, 113, 3;
    Record: RightSide, Left::None, 0, 0, 116, 5;
    Record: TypeKind, Left::None, 0, 0, 121, 5;
    Con: Constructor, Left::None, 0, 0, 126, 4;
    LabelRow: Label, Left::None, 0, 0, 130, 5;
    LabelRow: Label, Left::None, 0, 0, 135, 5;
    WithRow: WithClause, Left::None, 0, 0, 140, 5;
    Tvar: TypeExpression, Left::None, 5, 5, 145, 2;
    Tcon: TypeExpression, Left::None, 5, 5, 147, 3;
    Tcon: TypeExpression, Left::None, 5, 5, 150, 3;
    Tparen: TypeExpression, Left::None, 5, 5, 153, 5;
    Tapp: TypeExpression, Left::Level(4), 4, 4, 158, 4;
    Tapp: TypeExpression, Left::Level(4), 4, 4, 162, 4;
    Ttuple: TypeExpression, Left::Level(3), 2, 2, 166, 4;
    Tarrow: TypeExpression, Left::Level(2), 1, 1, 170, 4;
    Pname: Pattern, Left::None, 6, 6, 174, 2;
    Pany: Pattern, Left::None, 6, 6, 176, 2;
    Pconst: Pattern, Left::None, 6, 6, 178, 2;
    Pneg: Pattern, Left::None, 6, 6, 180, 3;
    Pcon: Pattern, Left::None, 6, 6, 183, 3;
    Pcon: Pattern, Left::None, 6, 6, 186, 3;
    Pparen: Pattern, Left::None, 6, 6, 189, 6;
    Plist: Pattern, Left::None, 6, 6, 195, 5;
    Precord: Pattern, Left::None, 6, 6, 200, 5;
    Papp: Pattern, Left::Row(RowName::Pcon), 5, 5, 205, 3;
    Pcons: Pattern, Left::Level(5), 4, 4, 208, 4;
    Ptuple: Pattern, Left::Level(4), 3, 3, 212, 4;
    Por: Pattern, Left::Level(3), 2, 2, 216, 4;
    Pas: Pattern, Left::Level(1), 1, 1, 220, 4;
    Qfield: FieldPattern, Left::None, 0, 0, 224, 5;
    Qfield: FieldPattern, Left::None, 0, 0, 229, 5;
    Qfield: FieldPattern, Left::None, 0, 0, 234, 6;
    Binding: Binding, Left::None, 0, 0, 240, 7;
    Case: Case, Left::None, 0, 0, 247, 6;
    Ffield: Field, Left::None, 0, 0, 253, 5;
    Ffield: Field, Left::None, 0, 0, 258, 5;
    Name: Expression, Left::None, 19, 19, 263, 2;
    Econ: Expression, Left::None, 19, 19, 265, 2;
    Epath: Expression, Left::None, 19, 19, 267, 3;
    Econst: Expression, Left::None, 19, 19, 270, 2;
    Hole: Expression, Left::None, 19, 19, 272, 2;
    Eparen: Expression, Left::None, 19, 19, 274, 6;
    Ebegin: Expression, Left::None, 19, 19, 280, 4;
    Elist: Expression, Left::None, 19, 19, 284, 5;
    Erecord: Expression, Left::None, 19, 19, 289, 9;
    Prefix: Expression, Left::None, 18, 18, 298, 3;
    Field: Expression, Left::Level(17), 17, 17, 301, 5;
    Eapp: Expression, Left::Level(17), 16, 16, 306, 3;
    Eassert: Expression, Left::None, 16, 16, 309, 3;
    Ewhile: Expression, Left::None, 16, 16, 312, 6;
    Efor: Expression, Left::None, 16, 16, 318, 10;
    Eneg: Expression, Left::None, 15, 15, 328, 3;
    Eneg: Expression, Left::None, 15, 15, 331, 3;
    Infix: Expression, Left::Level(15), 14, 14, 334, 4;
    Infix: Expression, Left::Level(13), 13, 13, 338, 4;
    Infix: Expression, Left::Level(12), 12, 12, 342, 4;
    Econs: Expression, Left::Level(12), 11, 11, 346, 4;
    Infix: Expression, Left::Level(11), 10, 10, 350, 4;
    Infix: Expression, Left::Level(9), 9, 9, 354, 4;
    Infix: Expression, Left::Level(9), 8, 8, 358, 4;
    Infix: Expression, Left::Level(8), 7, 7, 362, 4;
    Etuple: Expression, Left::Level(7), 6, 6, 366, 4;
    Infix: Expression, Left::Level(6), 5, 5, 370, 4;
    Eset: Expression, Left::Row(RowName::Field), 5, 5, 374, 4;
    Eif: Expression, Left::None, 3, 15, 378, 7;
    Eseq: Expression, Left::Level(2), 1, 1, 385, 4;
    Elet: Expression, Left::None, 0, 15, 389, 7;
    Ematch: Expression, Left::None, 0, 15, 396, 6;
    Etry: Expression, Left::None, 0, 15, 402, 6;
    Efun: Expression, Left::None, 0, 15, 408, 5;
    Efunction: Expression, Left::None, 0, 15, 413, 6;
    Mpath: ModuleExpression, Left::None, 2, 2, 419, 3;
    Mpath: ModuleExpression, Left::None, 2, 2, 422, 3;
    Mstruct: ModuleExpression, Left::None, 2, 2, 425, 4;
    Mparen: ModuleExpression, Left::None, 2, 2, 429, 6;
    Mapp: ModuleExpression, Left::Level(1), 1, 1, 435, 7;
    Mfunctor: ModuleExpression, Left::None, 0, 0, 442, 9;
    Ypath: ModuleType, Left::None, 2, 2, 451, 3;
    Ypath: ModuleType, Left::None, 2, 2, 454, 3;
    Ysig: ModuleType, Left::None, 2, 2, 457, 4;
    Yparen: ModuleType, Left::None, 2, 2, 461, 4;
    Ywith: ModuleType, Left::Level(1), 1, 1, 465, 5;
    Yfunctor: ModuleType, Left::None, 0, 0, 470, 9;
    Ysig: SignatureText, Left::None, 0, 0, 479, 3;
];
