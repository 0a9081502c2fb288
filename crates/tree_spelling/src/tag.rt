//! The tags of phrases.
ghost use Rattle.std.specs.Prelude.{◌≡◌};
ghost use Rattle.tree_spelling.specs.Tags.{exp_tag_of, stmt_tag_of};

use mj_tree::Operator;

/// An expression made of two.
#[derive(Clone, Copy, Debug)]
pub enum TwoParts {
    Binary(Operator),
    Index,
}

/// An expression made of one.
#[derive(Clone, Copy, Debug)]
pub enum OnePart {
    Length,
    NewArray,
    Not,
    Parenthesized,
}

/// A form of expression.
#[derive(Clone, Copy, Debug)]
pub enum ExpTag {
    Two(TwoParts),
    One(OnePart),
    Call,
    Literal,
    Boolean(bool),
    Variable,
    This,
    NewObject,
}

/// A form of statement.
#[derive(Clone, Copy, Debug)]
pub enum StmtTag {
    Block,
    If,
    While,
    Print,
    Assign,
    Store,
}

/// The form of expression that has this tag.
pub fn exp_tag_of(byte: u8) -> Option<ExpTag>
    ensures { result ≡ exp_tag_of byte }
{
    let tag = match byte {
        0x00 => ExpTag::Two(TwoParts::Binary(Operator::And)),
        0x01 => ExpTag::Two(TwoParts::Binary(Operator::Less)),
        0x02 => ExpTag::Two(TwoParts::Binary(Operator::Plus)),
        0x03 => ExpTag::Two(TwoParts::Binary(Operator::Minus)),
        0x04 => ExpTag::Two(TwoParts::Binary(Operator::Times)),
        0x05 => ExpTag::Two(TwoParts::Index),
        0x06 => ExpTag::One(OnePart::Length),
        0x07 => ExpTag::Call,
        0x08 => ExpTag::Literal,
        0x09 => ExpTag::Boolean(true),
        0x0a => ExpTag::Boolean(false),
        0x0b => ExpTag::Variable,
        0x0c => ExpTag::This,
        0x0d => ExpTag::One(OnePart::NewArray),
        0x0e => ExpTag::NewObject,
        0x0f => ExpTag::One(OnePart::Not),
        0x10 => ExpTag::One(OnePart::Parenthesized),
        _ => return None,
    };
    Some(tag)
}

/// The form of statement that has this tag.
pub fn stmt_tag_of(byte: u8) -> Option<StmtTag>
    ensures { result ≡ stmt_tag_of byte }
{
    match byte {
        0x00 => Some(StmtTag::Block),
        0x01 => Some(StmtTag::If),
        0x02 => Some(StmtTag::While),
        0x03 => Some(StmtTag::Print),
        0x04 => Some(StmtTag::Assign),
        0x05 => Some(StmtTag::Store),
        _ => None,
    }
}
