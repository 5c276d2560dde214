// A token is a tag with its place in the text.
#[derive(Clone, Copy, PartialEq, Eq, Debug)]
pub enum Tag {
    Name,
    Number,
    OpenParen,
    CloseParen,
    OpenBrace,
    CloseBrace,
    Comma,
    Semicolon,
    Ampersand,
    Assign,
    Plus,
    Minus,
    Star,
    Less,
    Equals,
    Var,
    Next,
    Know,
    Take,
    If,
    Else,
    While,
    Par,
    Try,
    Catch,
    Throw,
    Proc,
    Main,
    End,
}

// The bytes of the text from `at` on, `len` of them; the end of the text is a token of none.
#[derive(Clone, Copy, PartialEq, Eq, Debug)]
pub struct Token {
    pub tag: Tag,
    pub at: usize,
    pub len: usize,
}
