// Statements without blocks.
ghost use Rattle.grammar.specs.Views.{name as view-name, stm as view-stm, view_names};
ghost use Rattle.grammar.specs.Readers.{arguments_at, caught_at, called_at, named_at};
ghost use Rattle.grammar.specs.Reading.{Reads, ReadsIn, Shorter, NoLonger};

use crate::parser::Parser;
use crate::tree::{Name, Simple, Stmt};
use reader::fault::Error;
use reader::token::Tag;

impl<'a> Parser<'a> {
    // Names with commas between them, or none before `)`.
    // One function for these and for parameters is no plainer: no clause can range over what its items stand for.
    fn arguments(&mut self) -> Result<Vec<Name>, Error>
        ensures tells { Reads view_names arguments_at self.old.rest.now self.new.rest.now result }
        ensures no_longer { NoLonger self.old.rest.now self.new.rest.now result }
    {
        let mut names = Vec::new(self.heap);
        if self.sees(Tag::CloseParen) {
            return Ok(names);
        }
        names.push(self.name()?)?;
        while self.takes(Tag::Comma) {
            names.push(self.name()?)?;
        }
        Ok(names)
    }

    // The arguments of a call, in parentheses.
    // `(`, `)` and a closure between them, for this, `caught`, `listed` and `grouped`, is no plainer: no clause can
    // range over what the closure's value stands for.
    fn called(&mut self, room: usize) -> Result<Vec<Name>, Error>
        ensures tells { Reads view_names (called_at room) self.old.rest.now self.new.rest.now result }
        ensures shorter { Shorter self.old.rest.now self.new.rest.now result }
    {
        self.open(room, Tag::OpenParen)?;
        let names = self.arguments()?;
        self.eat(Tag::CloseParen)?;
        Ok(names)
    }

    // The name of an exception, in parentheses.
    pub fn caught(&mut self, room: usize) -> Result<Name, Error>
        ensures tells { Reads view-name (caught_at room) self.old.rest.now self.new.rest.now result }
        ensures shorter { Shorter self.old.rest.now self.new.rest.now result }
    {
        self.open(room, Tag::OpenParen)?;
        let exception = self.name()?;
        self.eat(Tag::CloseParen)?;
        Ok(exception)
    }

    // What stands after the name that a statement begins with.
    pub fn named(&mut self, room: usize, target: Name) -> Result<Stmt, Error>
        ensures tells { ReadsIn view-stm (λ text. named_at room (view-name text target)) self.old.rest.now self.new.rest.now result }
        ensures shorter { Shorter self.old.rest.now self.new.rest.now result }
    {
        let simple = if self.takes(Tag::Assign) {
            Simple::Set(target, self.level(room, 4)?)
        } else {
            Simple::Call(target, self.called(room)?)
        };
        self.eat(Tag::Semicolon)?;
        Ok(Stmt::One(target.at, simple))
    }
}
