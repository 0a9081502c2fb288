//! Tokens.
use ordered_names::Name;

/// A symbol or a reserved word: a token that has one text.
#[derive(Clone, Copy, Debug, PartialEq, Eq)]
pub enum Terminal {
    /// `{`
    LeftBrace,
    /// `}`
    RightBrace,
    /// `(`
    LeftParenthesis,
    /// `)`
    RightParenthesis,
    /// `[`
    LeftBracket,
    /// `]`
    RightBracket,
    /// `;`
    Semicolon,
    /// `,`
    Comma,
    /// `.`
    Dot,
    /// `=`
    Assign,
    /// `&&`
    And,
    /// `<`
    Less,
    /// `+`
    Plus,
    /// `-`
    Minus,
    /// `*`
    Times,
    /// `!`
    Not,
    /// `class`
    Class,
    /// `public`
    Public,
    /// `static`
    Static,
    /// `void`
    Void,
    /// `extends`
    Extends,
    /// `return`
    Return,
    /// `int`
    Int,
    /// `boolean`
    Boolean,
    /// `if`
    If,
    /// `else`
    Else,
    /// `while`
    While,
    /// `true`
    True,
    /// `false`
    False,
    /// `this`
    This,
    /// `new`
    New,
}

/// What a token is.
#[derive(PartialEq, Eq)]
pub enum TokenKind {
    /// A name that isn't reserved.
    Identifier(Name),
    /// A decimal literal with its value, which saturates at 2147483648.
    Literal(u32),
    /// A symbol or a reserved word.
    Terminal(Terminal),
}

impl Drop for TokenKind {
    fn drop(self) {
        match self {
            TokenKind::Identifier(_) | TokenKind::Literal(_) | TokenKind::Terminal(_) => {}
        }
    }
}

/// A token and its place in the text.
#[derive(PartialEq, Eq)]
pub struct Token {
    pub kind: TokenKind,
    /// The number of its first byte, counted from 0.
    pub start: usize,
    /// The number of the byte behind its last.
    pub end: usize,
}

impl Drop for Token {
    fn drop(self) {
        let Token {
            kind: _,
            start: _,
            end: _,
        } = self;
    }
}
