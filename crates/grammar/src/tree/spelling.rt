// How names are spelled.
ghost use Rattle.std.specs.Prelude.{◌≡◌};
ghost use Rattle.reader.specs.Tokens.{same};
ghost use Rattle.grammar.specs.Views.{name};

use crate::tree::Name;
use reader::reader::part;
use reader::token::Token;

impl Name {
    // The bytes of a name, as many of them as the text has.
    pub fn bytes(self, text: &[u8]) -> &[u8]
        ensures { result.now ≡ (name text.now self).text }
    {
        part(text, self.at, self.len)
    }

    // Whether two names are spelled alike.
    pub fn is_alike(self, text: &[u8], other: Name) -> bool
        ensures { result ≡ same (name text.now self).text (name text.now other).text }
    {
        self.bytes(text) == other.bytes(text)
    }
}

impl From<Token> for Name {
    ghost from_gives = { λ t n. n ≡ record { at = t.at; len = t.len } };

    fn from(token: Token) -> Name {
        Name {
            at: token.at,
            len: token.len,
        }
    }
}
