// Parameters, procedures and the whole text.
ghost use Rattle.std.specs.Prelude.{◌≡◌, ℕ, suc, List, length};
ghost use Rattle.reader.specs.Faults.{Meets};
ghost use Rattle.reader.specs.Views.{lexemes};
ghost use Rattle.grammar.specs.Parsing.{parsed};
ghost use Rattle.grammar.specs.Views.{param as view-param, view_params, proc as view-proc, view_procs, tree as view-tree};
ghost use Rattle.grammar.specs.Readers.{param_at, parameters_at, listed_at, proc_at, procedures_at};
ghost use Rattle.grammar.specs.Reading.{Reads, Shorter, NoLonger};

use crate::parser::Parser;
use crate::tree::{Param, Proc, Tree};
use reader::fault::{Cause, Error};
use reader::token::{Tag, Token};
use std::alloc::Global;

impl<'a> Parser<'a> {
    // A parameter; `&` before it makes it by reference.
    fn param(&mut self) -> Result<Param, Error>
        ensures tells { Reads view-param param_at self.old.rest.now self.new.rest.now result }
        ensures shorter { Shorter self.old.rest.now self.new.rest.now result }
    {
        let reference = self.takes(Tag::Ampersand);
        let name = self.name()?;
        Ok(Param { reference, name })
    }

    // Up to eight parameters with commas between them, or none before `)`.
    fn parameters(&mut self) -> Result<Vec<Param>, Error>
        ensures tells { Reads view_params parameters_at self.old.rest.now self.new.rest.now result }
        ensures no_longer { NoLonger self.old.rest.now self.new.rest.now result }
    {
        let mut params = Vec::new(self.heap);
        if self.sees(Tag::CloseParen) {
            return Ok(params);
        }
        params.push(self.param()?)?;
        while params.len() < 8 && self.takes(Tag::Comma) {
            params.push(self.param()?)?;
        }
        Ok(params)
    }

    // The parameters of a procedure, in parentheses.
    fn listed(&mut self) -> Result<Vec<Param>, Error>
        ensures tells { Reads view_params listed_at self.old.rest.now self.new.rest.now result }
        ensures shorter { Shorter self.old.rest.now self.new.rest.now result }
    {
        self.open(16, Tag::OpenParen)?;
        let params = self.parameters()?;
        self.eat(Tag::CloseParen)?;
        Ok(params)
    }

    // What stands after `proc`.
    fn procedure(&mut self) -> Result<Proc, Error>
        ensures tells { Reads view-proc proc_at self.old.rest.now self.new.rest.now result }
        ensures shorter { Shorter self.old.rest.now self.new.rest.now result }
    {
        let name = self.name()?;
        let params = self.listed()?;
        let body = self.block(16)?;
        Ok(Proc { name, params, body })
    }

    // The procedures that a text begins with.
    fn procedures(&mut self) -> Result<Vec<Proc>, Error>
        ensures tells { Reads view_procs (λ u. procedures_at (suc (length u)) u) self.old.rest.now self.new.rest.now result }
        ensures no_longer { NoLonger self.old.rest.now self.new.rest.now result }
    {
        let mut procs = Vec::new(self.heap);
        while self.takes(Tag::Proc) {
            procs.push(self.procedure()?)?;
        }
        Ok(procs)
    }
}

// The tree of a text, or the first token that the grammar does not allow, or the first bracket too many.
// The tokens of every text are parsed as the grammar's definition says; a name of the tree is a part of the text.
pub fn parse(heap: Global, tokens: &[Token]) -> Result<Tree, Error>
    ensures { (text : List ℕ) → Meets (λ v t. view-tree text v ≡ t) result (parsed (lexemes text tokens.now)) }
{
    let mut parser = Parser { heap, rest: tokens };
    let procs = parser.procedures()?;
    parser.eat(Tag::Main)?;
    let main = parser.block(16)?;
    if parser.sees(Tag::End) {
        Ok(Tree { procs, main })
    } else {
        Err(parser.refuse(Cause::NotAllowed))
    }
}
