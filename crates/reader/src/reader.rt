// The reader stands over the borrowed text and reads one token after the other.
ghost use Rattle.std.specs.Prelude.{◌≡◌, ℕ, ◌+◌, ◌<◌, ◌≤◌, Bool, true, false, length, drop, IfOk, nat_le, slice_index};
ghost use Rattle.reader.specs.Tokens as tokens;
ghost use Rattle.reader.specs.Faults.{Meets};
ghost use Rattle.reader.specs.Language.{Laid};
ghost use Rattle.reader.specs.Lists.{Ended};
ghost use Rattle.reader.specs.Reads.{word_first, equal_token, next_at, first_of, Shows, stands};
ghost use Rattle.reader.specs.Views as views;

use crate::classes::{Start, begins, is_digit, is_letter_or_digit, is_separator, word_tag};
use crate::fault::{Cause, Error, Fault, must};
use crate::token::{Tag, Token};
use std::alloc::Global;

// A text's greatest length.
const MOST_BYTES: usize = 16384;

// The part of a text from `at` on, `len` bytes long, or as far as the text goes.
pub fn part<'a>(text: &'a [u8], at: usize, len: usize) -> &'a [u8]
    ensures { result.now ≡ views.part text.now at len }
{
    let from = at.min(text.len());
    let count = len.min(text.len() - from);
    &text[from..from + count]
}

// The text from an index on.
fn text_from(text: &[u8], from: usize) -> &[u8]
    requires { from ≤ length text.now }
    ensures { result.now ≡ drop from text.now }
{
    &text[from..]
}

// How many bytes from an index on pass a test, one after the other.
// Cut and not skipped: the library's `skip` steps over each byte before the index.
fn run_len<F: Fn(u8) -> bool>(text: &[u8], from: usize, passes: F) -> usize
    requires within { from ≤ length text.now }
    requires callable { F.IsAlwaysCallable passes }
    ensures { (test : ℕ → Bool) → ((b : ℕ) (r : Bool) → F.post passes b r → r ≡ test b) → result ≡ length (tokens.run test (drop from text.now)) }
{
    text_from(text, from)
        .iter()
        .take_while(|b| passes(**b))
        .count()
}

// Where the separators from an index on end.
fn past_separators(text: &[u8], from: usize) -> usize
    requires { from ≤ length text.now }
    ensures { result ≡ next_at text.now from }
{
    from + run_len(text, from, is_separator)
}

// A token of so many bytes at an index, where at most so many are allowed.
fn limited(tag: Tag, at: usize, len: usize, most: usize) -> Result<Token, Fault>
    ensures ok { len ≤ most → result ≡ Ok (record { tag = tag; at = at; len = len }) }
    ensures err { most < len → result ≡ Err (record { cause = Cause.NoToken; offset = at }) }
{
    must(len <= most, Cause::NoToken, at)?;
    Ok(Token { tag, at, len })
}

// The name or reserved word that the letters and digits from an index on make.
fn word_at(text: &[u8], at: usize) -> Result<Token, Fault>
    requires { at < length text.now }
    ensures { Shows text.now at (word_first (tokens.run tokens.letter_or_digit (drop at text.now))) result }
{
    let len = run_len(text, at, is_letter_or_digit);
    limited(word_tag(part(text, at, len)), at, len, 16)
}

// The number that the digits from an index on make.
fn number_at(text: &[u8], at: usize) -> Result<Token, Fault>
    requires { at < length text.now }
    ensures { Shows text.now at (tokens.up_to 10 tokens.number (tokens.run tokens.digit (drop at text.now))) result }
{
    let len = run_len(text, at, is_digit);
    limited(Tag::Number, at, len, 10)
}

// The sign = or == whose first byte stands at an index.
fn equal_at(text: &[u8], at: usize) -> Token
    requires { at < length text.now }
    ensures { result ≡ equal_token text.now at }
{
    match text.get(at + 1).map(|b| *b as char) {
        Some('=') => Token {
            tag: Tag::Equals,
            at,
            len: 2,
        },
        _ => Token {
            tag: Tag::Assign,
            at,
            len: 1,
        },
    }
}

// The token that begins at an index where no separator stands.
fn token_at(text: &[u8], at: usize) -> Result<Token, Fault>
    requires within { at < length text.now }
    requires token_byte { tokens.blank (slice_index text.now at) ≡ false }
    ensures { Shows text.now at (first_of (drop at text.now)) result }
{
    match begins(text[at]) {
        Start::Sign(tag) => Ok(Token { tag, at, len: 1 }),
        Start::Equal => Ok(equal_at(text, at)),
        Start::Word => word_at(text, at),
        Start::Number => number_at(text, at),
        Start::Separator | Start::Nothing => Err(Cause::NoToken.at(at)),
    }
}

// A reader over a text, which stands at an offset.
#[derive(Drop)]
pub struct Reader<'a> {
    text: &'a [u8],
    at: usize,
    ghost within: { at ≤ length text.now },
}

impl<'a> Reader<'a> {
    // A reader at the beginning of a text.
    pub fn new(text: &'a [u8]) -> Reader<'a>
        ensures { (result.text.now ≡ text.now) × (result.at ≡ 0) }
    {
        Reader { text, at: 0 }
    }

    // The next token: the longest that begins where the separators end. After it the reader stands behind
    // the token, or at the byte where none begins.
    pub fn next(&mut self) -> Result<Token, Fault>
        ensures text { self.new.text.now ≡ self.old.text.now }
        ensures token { Shows self.old.text.now (next_at self.old.text.now self.old.at) (first_of (drop (next_at self.old.text.now self.old.at) self.old.text.now)) result }
        ensures stands { self.new.at ≡ stands (next_at self.old.text.now self.old.at) result }
    {
        let text = self.text;
        let at = past_separators(text, self.at);
        self.at = at;
        if at >= text.len() {
            return Ok(Token {
                tag: Tag::End,
                at,
                len: 0,
            });
        }
        let token = token_at(text, at)?;
        self.at = at + token.len;
        Ok(token)
    }

    // The bytes of a token, or of any part of the text.
    pub fn part(&self, token: &Token) -> &'a [u8]
        ensures { result.now ≡ views.part self.now.text.now token.now.at token.now.len }
    {
        part(self.text, token.at, token.len)
    }
}

// All tokens of a text, the text's end last; or the first fault.
pub fn read(heap: Global, text: &[u8]) -> Result<Vec<Token>, Error>
    ensures exact { Meets (λ v ls. views.lexemes text.now v.items ≡ ls) result (tokens.tokenized text.now) }
    ensures laid { IfOk result (λ v. Laid 0 text.now (views.lexemes text.now v.items)) }
    ensures ended { IfOk result (λ v. Ended text.now v.items) }
{
    must(text.len() <= MOST_BYTES, Cause::TextTooLong, MOST_BYTES)?;
    let mut found = Vec::new(heap);
    let mut reader = Reader::new(text);
    loop {
        let token = reader.next()?;
        found.push(token)?;
        if token.tag == Tag::End {
            return Ok(found);
        }
    }
}
