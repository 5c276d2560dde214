// Statements and blocks.
ghost use Rattle.std.specs.Prelude.{ℕ, List};
ghost use Rattle.grammar.specs.Trees.{Two, Par, Seq, Also};
ghost use Rattle.grammar.specs.Views.{head as view-head, stm as view-stm, block as view-block, blocks as view-blocks};
ghost use Rattle.grammar.specs.Readers.{block_at, statement_at, statements_at, plain_at, if_at, while_at, try_at, take_at, par_at, branches_at};
ghost use Rattle.grammar.specs.Reading.{next_token, Reads, ReadsSome, Makes, Shorter, NoLonger};

use crate::parser::{Parser, boxed};
use crate::tree::{Block, Blocks, Head, Name, Simple, Stmt};
use reader::fault::{Cause, Error};
use reader::token::Tag;
use std::alloc::Global;

fn two(heap: Global, offset: usize, head: Head, first: Block, second: Block) -> Result<Stmt, Error>
    ensures { Makes view-stm (λ text. Two offset (view-head text head) (view-block text first) (view-block text second)) result }
{
    let (left, right) = boxed(heap, first, second)?;
    Ok(Stmt::Two(offset, head, left, right))
}

fn seq(heap: Global, first: Stmt, others: Block) -> Result<Block, Error>
    ensures { Makes view-block (λ text. Seq (view-stm text first) (view-block text others)) result }
{
    let (left, right) = boxed(heap, first, others)?;
    Ok(Block::Seq(left, right))
}

fn also(heap: Global, first: Block, others: Blocks) -> Result<Blocks, Error>
    ensures { Makes view-blocks (λ text. Also (view-block text first) (view-blocks text others)) result }
{
    let (left, right) = boxed(heap, first, others)?;
    Ok(Blocks::Also(left, right))
}

fn par(heap: Global, offset: usize, branches: Blocks) -> Result<Stmt, Error>
    ensures { Makes view-stm (λ text. Par offset (view-blocks text branches)) result }
{
    let inner = Box::new(heap, branches)?;
    Ok(Stmt::Par(offset, inner))
}

impl<'a> Parser<'a> {
    // Statements in braces.
    #[cycle(blocks)]
    pub fn block(&mut self, room: usize) -> Result<Block, Error>
        ensures tells { Reads view-block (block_at room) self.old.rest.now self.new.rest.now result }
        ensures shorter { Shorter self.old.rest.now self.new.rest.now result }
    {
        self.open(room, Tag::OpenBrace)?;
        let body = self.statements(room - 1)?;
        self.eat(Tag::CloseBrace)?;
        Ok(body)
    }

    // The statements before the next `}`.
    #[cycle(blocks)]
    fn statements(&mut self, room: usize) -> Result<Block, Error>
        ensures tells { ReadsSome view-block (statements_at room) self.old.rest.now self.new.rest.now result }
        ensures no_longer { NoLonger self.old.rest.now self.new.rest.now result }
    {
        if self.sees(Tag::CloseBrace) {
            return Ok(Block::Nil);
        }
        let first = self.statement(room)?;
        let others = self.statements(room)?;
        seq(self.heap, first, others)
    }

    // One statement. It stays a call: what its kinds need on the stack is not held while the rest of a list is read.
    #[inline(never)]
    #[cycle(blocks)]
    fn statement(&mut self, room: usize) -> Result<Stmt, Error>
        ensures tells { Reads view-stm (statement_at room) self.old.rest.now self.new.rest.now result }
        ensures shorter { Shorter self.old.rest.now self.new.rest.now result }
    {
        if self.sees(Tag::OpenBrace) {
            return self.block_statement(room);
        }
        let word = self.next();
        match word.tag {
            Tag::Name => self.named(room, Name::from(word)),
            Tag::Var => Ok(Stmt::One(word.at, Simple::Var(self.ended_name()?))),
            Tag::Next => Ok(Stmt::One(word.at, Simple::Next(self.ended_name()?))),
            Tag::Know => Ok(Stmt::One(word.at, Simple::Know(self.ended_name()?))),
            Tag::Throw => Ok(Stmt::One(word.at, Simple::Throw(self.ended_name()?))),
            Tag::If => self.if_statement(room, word.at),
            Tag::While => self.while_statement(room, word.at),
            Tag::Try => self.try_statement(room, word.at),
            Tag::Take => self.take_statement(room, word.at),
            Tag::Par => self.par_statement(room, word.at),
            _ => Err(Error::Refused(Cause::NotAllowed.at(word.at))),
        }
    }

    #[cycle(blocks)]
    fn block_statement(&mut self, room: usize) -> Result<Stmt, Error>
        ensures tells { Reads view-stm (plain_at room (next_token self.old.rest.now).at) self.old.rest.now self.new.rest.now result }
        ensures shorter { Shorter self.old.rest.now self.new.rest.now result }
    {
        let offset = self.peek().at;
        let body = self.block(room)?;
        two(self.heap, offset, Head::Plain, body, Block::Nil)
    }

    // What stands after `if`. Here and below the offset is where the statement began and `room` is how many brackets may
    // still be opened: no struct of the two would outlive a call.
    #[cycle(blocks)]
    fn if_statement(&mut self, room: usize, offset: usize) -> Result<Stmt, Error>
        ensures tells { Reads view-stm (if_at room offset) self.old.rest.now self.new.rest.now result }
        ensures shorter { Shorter self.old.rest.now self.new.rest.now result }
    {
        let test = self.grouped(room)?;
        let first = self.block(room)?;
        self.eat(Tag::Else)?;
        let second = self.block(room)?;
        two(self.heap, offset, Head::If(test), first, second)
    }

    // What stands after `while`.
    #[cycle(blocks)]
    fn while_statement(&mut self, room: usize, offset: usize) -> Result<Stmt, Error>
        ensures tells { Reads view-stm (while_at room offset) self.old.rest.now self.new.rest.now result }
        ensures shorter { Shorter self.old.rest.now self.new.rest.now result }
    {
        let test = self.grouped(room)?;
        let body = self.block(room)?;
        two(self.heap, offset, Head::While(test), body, Block::Nil)
    }

    // What stands after `try`.
    #[cycle(blocks)]
    fn try_statement(&mut self, room: usize, offset: usize) -> Result<Stmt, Error>
        ensures tells { Reads view-stm (try_at room offset) self.old.rest.now self.new.rest.now result }
        ensures shorter { Shorter self.old.rest.now self.new.rest.now result }
    {
        let first = self.block(room)?;
        self.eat(Tag::Catch)?;
        let exception = self.caught(room)?;
        let second = self.block(room)?;
        two(self.heap, offset, Head::Try(exception), first, second)
    }

    // What stands after `take`.
    #[cycle(blocks)]
    fn take_statement(&mut self, room: usize, offset: usize) -> Result<Stmt, Error>
        ensures tells { Reads view-stm (take_at room offset) self.old.rest.now self.new.rest.now result }
        ensures shorter { Shorter self.old.rest.now self.new.rest.now result }
    {
        let port = self.number()?;
        let target = self.name()?;
        self.eat(Tag::Else)?;
        let body = self.block(room)?;
        two(
            self.heap,
            offset,
            Head::Take(port, target),
            body,
            Block::Nil,
        )
    }

    // What stands after `par`: two to eight blocks and `;`.
    #[cycle(blocks)]
    fn par_statement(&mut self, room: usize, offset: usize) -> Result<Stmt, Error>
        ensures tells { Reads view-stm (par_at room offset) self.old.rest.now self.new.rest.now result }
        ensures shorter { Shorter self.old.rest.now self.new.rest.now result }
    {
        let first = self.block(room)?;
        let second = self.block(room)?;
        let others = self.branches(room, 6)?;
        self.eat(Tag::Semicolon)?;
        let tail = also(self.heap, second, others)?;
        let whole = also(self.heap, first, tail)?;
        par(self.heap, offset, whole)
    }

    // Up to so many blocks more.
    #[cycle(blocks)]
    fn branches(&mut self, room: usize, left: usize) -> Result<Blocks, Error>
        ensures tells { Reads view-blocks (branches_at room left) self.old.rest.now self.new.rest.now result }
        ensures no_longer { NoLonger self.old.rest.now self.new.rest.now result }
    {
        if left == 0 || !self.sees(Tag::OpenBrace) {
            return Ok(Blocks::Last);
        }
        let first = self.block(room)?;
        let others = self.branches(room, left - 1)?;
        also(self.heap, first, others)
    }
}
