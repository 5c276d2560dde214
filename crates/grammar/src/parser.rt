// The parser stands over the borrowed tokens that are left, and reads from their front.
ghost use Rattle.std.specs.Prelude.{◌≡◌, ◌<◌, true, false, ◌⊎◌, [], IfOk, IfErr, Decides};
ghost use Rattle.reader.specs.Faults.{refused_for, no_memory};
ghost use Rattle.reader.specs.Views.{class_of, spelled};
ghost use Rattle.reader.specs.Tokens.{fixed};
ghost use Rattle.grammar.specs.Views.{name as view-name};
ghost use Rattle.grammar.specs.Parsers.{a_name, a_number, eat as eats};
ghost use Rattle.grammar.specs.Readers.{opened, word_at, ended_name};
ghost use Rattle.grammar.specs.Reading.{next_token, after_next, Taken, NotTaken, Passes, Reads, Shorter};

use crate::tree::Name;
use reader::fault::{Cause, Error, must};
use reader::token::{Tag, Token};
use std::alloc::Global;

// What stands after the last token.
const END: Token = Token {
    tag: Tag::End,
    at: 0,
    len: 0,
};

#[derive(Drop)]
pub struct Parser<'a> {
    pub heap: Global,
    // the tokens that are left
    pub rest: &'a [Token],
}

// Two values, each in memory of its own.
pub fn boxed<A: Drop, B: Drop>(heap: Global, a: A, b: B) -> Result<(Box<A>, Box<B>), Error>
    ensures ok { IfOk result (λ p. (p.0.value ≡ a) × (p.1.value ≡ b)) }
    ensures err { IfErr result (λ e. e ≡ no_memory) }
{
    let first = Box::new(heap, a)?;
    let second = Box::new(heap, b)?;
    Ok((first, second))
}

impl<'a> Parser<'a> {
    // The next token; after the last one, the text's end.
    pub fn peek(&self) -> Token
        ensures { result ≡ next_token self.now.rest.now }
    {
        self.rest.first().copied().unwrap_or(END)
    }

    // Takes the next token.
    pub fn next(&mut self) -> Token
        ensures token { result ≡ next_token self.old.rest.now }
        ensures rest { self.new.rest.now ≡ after_next self.old.rest.now }
    {
        match self.rest.split_first() {
            Some((token, rest)) => {
                self.rest = rest;
                *token
            }
            None => END,
        }
    }

    // Whether the next token has a tag.
    pub fn sees(&self, tag: Tag) -> bool
        ensures { Decides result ((next_token self.now.rest.now).tag ≡ tag) }
    {
        self.peek().tag == tag
    }

    // Takes the next token if it has a tag; whether it has.
    pub fn takes(&mut self, tag: Tag) -> bool
        ensures yes { result ≡ true → Taken tag self.old.rest.now self.new.rest.now }
        ensures no { result ≡ false → NotTaken tag self.old.rest.now self.new.rest.now }
    {
        let found = self.sees(tag);
        if found {
            self.next();
        }
        found
    }

    // The refusal of the next token.
    pub fn refuse(&self, cause: Cause) -> Error
        ensures { result ≡ refused_for (record { cause = cause; offset = (next_token self.now.rest.now).at }) }
    {
        Error::Refused(cause.at(self.peek().at))
    }

    // A sign or a word must stand here.
    pub fn eat(&mut self, tag: Tag) -> Result<(), Error>
        requires { class_of tag ≡ fixed }
        ensures tells { Passes (eats (spelled [] tag)) self.old.rest.now self.new.rest.now result }
        ensures shorter { Shorter self.old.rest.now self.new.rest.now result }
    {
        if self.takes(tag) {
            Ok(())
        } else {
            Err(self.refuse(Cause::NotAllowed))
        }
    }

    // An opening bracket must stand here, and there must be room for it.
    pub fn open(&mut self, room: usize, tag: Tag) -> Result<(), Error>
        requires { class_of tag ≡ fixed }
        ensures tells { Passes (opened room (spelled [] tag)) self.old.rest.now self.new.rest.now result }
        ensures shorter { Shorter self.old.rest.now self.new.rest.now result }
        ensures room { IfOk result (λ v. 0 < room) }
    {
        let bracket = self.peek();
        self.eat(tag)?;
        must(room > 0, Cause::TooDeep, bracket.at)?;
        Ok(())
    }

    // A name or a number must stand here, as the tag says.
    fn word(&mut self, tag: Tag) -> Result<Name, Error>
        requires { (tag ≡ Tag.Name) ⊎ (tag ≡ Tag.Number) }
        ensures tells { Reads view-name (word_at tag) self.old.rest.now self.new.rest.now result }
        ensures shorter { Shorter self.old.rest.now self.new.rest.now result }
    {
        let word = self.peek();
        if self.takes(tag) {
            Ok(Name::from(word))
        } else {
            Err(self.refuse(Cause::NotAllowed))
        }
    }

    pub fn name(&mut self) -> Result<Name, Error>
        ensures tells { Reads view-name a_name self.old.rest.now self.new.rest.now result }
        ensures shorter { Shorter self.old.rest.now self.new.rest.now result }
    {
        self.word(Tag::Name)
    }

    pub fn number(&mut self) -> Result<Name, Error>
        ensures tells { Reads view-name a_number self.old.rest.now self.new.rest.now result }
        ensures shorter { Shorter self.old.rest.now self.new.rest.now result }
    {
        self.word(Tag::Number)
    }

    // A name and `;` must stand here.
    pub fn ended_name(&mut self) -> Result<Name, Error>
        ensures tells { Reads view-name ended_name self.old.rest.now self.new.rest.now result }
        ensures shorter { Shorter self.old.rest.now self.new.rest.now result }
    {
        let name = self.name()?;
        self.eat(Tag::Semicolon)?;
        Ok(name)
    }
}
