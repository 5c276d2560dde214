// What single bytes and whole words are to the reader.
ghost use Rattle.std.specs.Prelude.{◌≡◌};
ghost use Rattle.reader.specs.Reads.{start_of, word_tag};
ghost use Rattle.reader.specs.Tokens.{blank, letter_or_digit, digit};

use crate::token::Tag;

// What a byte can begin.
#[derive(Clone, Copy)]
pub(crate) enum Start {
    Separator,
    Word,
    Number,
    // a sign of one byte
    Sign(Tag),
    // = or ==
    Equal,
    Nothing,
}

pub(crate) fn begins(b: u8) -> Start
    ensures { result ≡ start_of b }
{
    match b as char {
        ' ' | '\n' => Start::Separator,
        'A'..='Z' | 'a'..='z' => Start::Word,
        '0'..='9' => Start::Number,
        '(' => Start::Sign(Tag::OpenParen),
        ')' => Start::Sign(Tag::CloseParen),
        '{' => Start::Sign(Tag::OpenBrace),
        '}' => Start::Sign(Tag::CloseBrace),
        ',' => Start::Sign(Tag::Comma),
        ';' => Start::Sign(Tag::Semicolon),
        '&' => Start::Sign(Tag::Ampersand),
        '+' => Start::Sign(Tag::Plus),
        '-' => Start::Sign(Tag::Minus),
        '*' => Start::Sign(Tag::Star),
        '<' => Start::Sign(Tag::Less),
        '=' => Start::Equal,
        _ => Start::Nothing,
    }
}

// Whether a byte stands between tokens.
pub(crate) fn is_separator(b: u8) -> bool
    ensures { result ≡ blank b }
{
    matches!(b as char, ' ' | '\n')
}

pub(crate) fn is_letter_or_digit(b: u8) -> bool
    ensures { result ≡ letter_or_digit b }
{
    b.is_ascii_alphanumeric()
}

pub(crate) fn is_digit(b: u8) -> bool
    ensures { result ≡ digit b }
{
    b.is_ascii_digit()
}

// A reserved word's own tag; any other word is a name.
pub(crate) fn word_tag(part: &[u8]) -> Tag
    ensures { result ≡ word_tag part.now }
{
    match part {
        b"var" => Tag::Var,
        b"next" => Tag::Next,
        b"know" => Tag::Know,
        b"take" => Tag::Take,
        b"if" => Tag::If,
        b"else" => Tag::Else,
        b"while" => Tag::While,
        b"par" => Tag::Par,
        b"try" => Tag::Try,
        b"catch" => Tag::Catch,
        b"throw" => Tag::Throw,
        b"proc" => Tag::Proc,
        b"main" => Tag::Main,
        _ => Tag::Name,
    }
}
