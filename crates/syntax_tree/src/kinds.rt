//! The kinds of tokens.

/// What a token is, by its spelling.
#[derive(Clone, Copy, Debug, PartialEq, Eq)]
pub enum TokenKind {
    /// an identifier that begins with a lower-case letter or `_`
    Lower,
    /// an identifier that begins with an upper-case letter
    Upper,
    /// an upper-case identifier and its point
    Qualifier,
    /// `'` and an identifier
    TyVar,
    /// an operator in parentheses
    OpName,
    /// `()`
    Unit,
    /// `[]`
    Nil,
    /// `module type`
    ModuleType,
    /// an integer numeral
    Int,
    /// a numeral with a point or an exponent
    Float,
    /// a character literal
    Char,
    /// a string, or a quoted string
    Str,
    /// `and`
    And,
    /// `as`
    As,
    /// `assert`
    Assert,
    /// `begin`
    Begin,
    /// `do`
    Do,
    /// `done`
    Done,
    /// `downto`
    Downto,
    /// `else`
    Else,
    /// `end`
    End,
    /// `exception`
    Exception,
    /// `false`
    False,
    /// `for`
    For,
    /// `fun`
    Fun,
    /// `function`
    Function,
    /// `functor`
    Functor,
    /// `if`
    If,
    /// `in`
    In,
    /// `include`
    Include,
    /// `let`
    Let,
    /// `match`
    Match,
    /// `module`
    Module,
    /// `mutable`
    Mutable,
    /// `of`
    Of,
    /// `open`
    Open,
    /// `rec`
    Rec,
    /// `sig`
    Sig,
    /// `struct`
    Struct,
    /// `then`
    Then,
    /// `to`
    To,
    /// `true`
    True,
    /// `try`
    Try,
    /// `type`
    TypeWord,
    /// `val`
    Val,
    /// `when`
    When,
    /// `while`
    While,
    /// `with`
    With,
    /// `(`
    LeftParen,
    /// `)`
    RightParen,
    /// `[`
    LeftBracket,
    /// `]`
    RightBracket,
    /// `{`
    LeftBrace,
    /// `}`
    RightBrace,
    /// `,`
    Comma,
    /// `;`
    Semi,
    /// `;;`
    SemiSemi,
    /// `:`
    Colon,
    /// `.`
    Dot,
    /// `_`
    Underscore,
    /// `|`
    Bar,
    /// `->`
    Arrow,
    /// `<-`
    LeftArrow,
    /// `::`
    ColonColon,
    /// `:=`
    ColonEqual,
    /// `**`, `lsl` and their level
    Op14,
    /// `*`, `mod` and their level
    Op13,
    /// `+`, `-` and their level
    Op12,
    /// `@`, `^` and their level
    Op10,
    /// `=`, `<` and their level
    Op9,
    /// `&&`
    Op8,
    /// `||`
    Op7,
    /// `!`, `~-` and their like
    Prefix,
    /// a word or sign that is outside of the language
    Outside,
    /// what begins no token, or an unclosed comment or string
    Junk,
}
