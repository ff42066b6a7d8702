//! The kinds of words and of operators.
ghost use Rattle.std.specs.Prelude.{◌≡◌, ◌<◌, slice_index, length};
ghost use Rattle.std.specs.Str.{bytes_eq};
ghost use Rattle.token_model.specs.Words.{is_outside_word as is_outside_word_spelling, is_op14_word as is_op14_word_spelling, is_op13_word as is_op13_word_spelling, other_word_kind as other_word_kind_of, early_word_kind as early_word_kind_of, middle_word_kind as middle_word_kind_of, late_word_kind as late_word_kind_of, last_word_kind as last_word_kind_of, word_kind as word_kind_of, sign_kind as sign_kind_of, first_sign_kind as first_sign_kind_of};
ghost use Rattle.syntax_tree.specs.Names.{kind_of};

use syntax_tree::TokenKind;

fn is(word: &[u8], other: &[u8]) -> bool
    ensures { result ≡ bytes_eq word.now other.now }
{
    word == other
}

fn is_outside_word(word: &[u8]) -> bool
    ensures { result ≡ is_outside_word_spelling word.now }
{
    is(word, b"class")
        || is(word, b"constraint")
        || is(word, b"external")
        || is(word, b"inherit")
        || is(word, b"initializer")
        || is(word, b"lazy")
        || is(word, b"method")
        || is(word, b"new")
        || is(word, b"nonrec")
        || is(word, b"object")
        || is(word, b"or")
        || is(word, b"private")
        || is(word, b"virtual")
}

fn is_op14_word(word: &[u8]) -> bool
    ensures { result ≡ is_op14_word_spelling word.now }
{
    is(word, b"lsl") || is(word, b"lsr") || is(word, b"asr")
}

fn is_op13_word(word: &[u8]) -> bool
    ensures { result ≡ is_op13_word_spelling word.now }
{
    is(word, b"mod") || is(word, b"land") || is(word, b"lor") || is(word, b"lxor")
}

#[tactic(auto, unfolding(syntax_tree::specs::Names::kind_of, token_model::specs::Words::other_word_kind))]
fn other_word_kind(word: &[u8]) -> TokenKind
    ensures { kind_of result ≡ other_word_kind_of word.now }
{
    if is(word, b"_") {
        TokenKind::Underscore
    } else if is_op14_word(word) {
        TokenKind::Op14
    } else if is_op13_word(word) {
        TokenKind::Op13
    } else if is_outside_word(word) {
        TokenKind::Outside
    } else {
        TokenKind::Lower
    }
}

#[tactic(auto, unfolding(syntax_tree::specs::Names::kind_of, token_model::specs::Words::last_word_kind))]
fn last_word_kind(word: &[u8]) -> TokenKind
    ensures { kind_of result ≡ last_word_kind_of word.now }
{
    if is(word, b"to") {
        TokenKind::To
    } else if is(word, b"true") {
        TokenKind::True
    } else if is(word, b"try") {
        TokenKind::Try
    } else if is(word, b"type") {
        TokenKind::TypeWord
    } else if is(word, b"val") {
        TokenKind::Val
    } else if is(word, b"when") {
        TokenKind::When
    } else if is(word, b"while") {
        TokenKind::While
    } else if is(word, b"with") {
        TokenKind::With
    } else {
        other_word_kind(word)
    }
}

#[tactic(auto, unfolding(syntax_tree::specs::Names::kind_of, token_model::specs::Words::late_word_kind))]
fn late_word_kind(word: &[u8]) -> TokenKind
    ensures { kind_of result ≡ late_word_kind_of word.now }
{
    if is(word, b"match") {
        TokenKind::Match
    } else if is(word, b"module") {
        TokenKind::Module
    } else if is(word, b"mutable") {
        TokenKind::Mutable
    } else if is(word, b"of") {
        TokenKind::Of
    } else if is(word, b"open") {
        TokenKind::Open
    } else if is(word, b"rec") {
        TokenKind::Rec
    } else if is(word, b"sig") {
        TokenKind::Sig
    } else if is(word, b"struct") {
        TokenKind::Struct
    } else if is(word, b"then") {
        TokenKind::Then
    } else {
        last_word_kind(word)
    }
}

#[tactic(auto, unfolding(syntax_tree::specs::Names::kind_of, token_model::specs::Words::middle_word_kind))]
fn middle_word_kind(word: &[u8]) -> TokenKind
    ensures { kind_of result ≡ middle_word_kind_of word.now }
{
    if is(word, b"exception") {
        TokenKind::Exception
    } else if is(word, b"false") {
        TokenKind::False
    } else if is(word, b"for") {
        TokenKind::For
    } else if is(word, b"fun") {
        TokenKind::Fun
    } else if is(word, b"function") {
        TokenKind::Function
    } else if is(word, b"functor") {
        TokenKind::Functor
    } else if is(word, b"if") {
        TokenKind::If
    } else if is(word, b"in") {
        TokenKind::In
    } else if is(word, b"include") {
        TokenKind::Include
    } else if is(word, b"let") {
        TokenKind::Let
    } else {
        late_word_kind(word)
    }
}

#[tactic(auto, unfolding(syntax_tree::specs::Names::kind_of, token_model::specs::Words::early_word_kind))]
fn early_word_kind(word: &[u8]) -> TokenKind
    ensures { kind_of result ≡ early_word_kind_of word.now }
{
    if is(word, b"and") {
        TokenKind::And
    } else if is(word, b"as") {
        TokenKind::As
    } else if is(word, b"assert") {
        TokenKind::Assert
    } else if is(word, b"begin") {
        TokenKind::Begin
    } else if is(word, b"do") {
        TokenKind::Do
    } else if is(word, b"done") {
        TokenKind::Done
    } else if is(word, b"downto") {
        TokenKind::Downto
    } else if is(word, b"else") {
        TokenKind::Else
    } else if is(word, b"end") {
        TokenKind::End
    } else {
        middle_word_kind(word)
    }
}

/// The kind of an identifier that begins with a lower-case letter or `_`.
#[tactic(auto, unfolding(syntax_tree::specs::Names::kind_of, token_model::specs::Words::word_kind))]
pub fn word_kind(word: &[u8]) -> TokenKind
    ensures { kind_of result ≡ word_kind_of word.now }
{
    early_word_kind(word)
}

#[tactic(auto, unfolding(syntax_tree::specs::Names::kind_of))]
fn first_sign_kind(first: u8, second: u8) -> TokenKind
    ensures { kind_of result ≡ first_sign_kind_of first second }
{
    if first == b'*' && second == b'*' {
        TokenKind::Op14
    } else if first == b'*' || first == b'/' || first == b'%' {
        TokenKind::Op13
    } else if first == b'+' || first == b'-' {
        TokenKind::Op12
    } else if first == b'@' || first == b'^' {
        TokenKind::Op10
    } else if first == b'!' || first == b'~' || first == b'?' {
        TokenKind::Prefix
    } else {
        TokenKind::Op9
    }
}

fn byte_or_zero(bytes: &[u8], i: usize) -> u8
    ensures { result ≡ slice_index bytes.now i }
{
    if i < bytes.len() { bytes[i] } else { 0 }
}

/// The kind of signs that may be an operator.
#[tactic(auto, unfolding(syntax_tree::specs::Names::kind_of, token_model::specs::Words::sign_kind))]
pub fn sign_kind(word: &[u8]) -> TokenKind
    ensures { kind_of result ≡ sign_kind_of word.now }
{
    if is(word, b"->") {
        TokenKind::Arrow
    } else if is(word, b"<-") {
        TokenKind::LeftArrow
    } else if is(word, b"|") {
        TokenKind::Bar
    } else if is(word, b"||") {
        TokenKind::Op7
    } else if is(word, b"&") {
        TokenKind::Outside
    } else if is(word, b"&&") {
        TokenKind::Op8
    } else if is(word, b"!=") {
        TokenKind::Op9
    } else if is(word, b"~") {
        TokenKind::Outside
    } else if is(word, b"?") {
        TokenKind::Outside
    } else {
        first_sign_kind(byte_or_zero(word, 0), byte_or_zero(word, 1))
    }
}
