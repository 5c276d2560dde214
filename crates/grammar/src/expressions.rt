// Expressions: operators in four ranks, all grouping to the left.
ghost use Rattle.std.specs.Prelude.{◌≡◌, ℕ, List, IfOk, Ok as answered};
ghost use Rattle.reader.specs.declared.token.Token.{Token};
ghost use Rattle.reader.specs.Views.{lexemes};
ghost use Rattle.grammar.specs.Trees.{Both, Negated};
ghost use Rattle.grammar.specs.Views.{exp as view-exp, operator as view-operator};
ghost use Rattle.grammar.specs.Parsing.{op_here};
ghost use Rattle.grammar.specs.Readers.{signs_of, level_at, atom_at, grouped_at};
ghost use Rattle.grammar.specs.Reading.{next_token, Tells, Chosen, Reads, Shorter};

use crate::parser::{Parser, boxed};
use crate::tree::{Expr, Operator};
use reader::fault::Error;
use reader::token::Tag;
use std::alloc::Global;

// Two expressions joined by an operator.
fn join(heap: Global, operator: Operator, left: Expr, right: Expr) -> Result<Expr, Error>
    ensures { (text : List ℕ) → Tells (view-exp text) result (answered (Both (view-operator operator) (view-exp text left) (view-exp text right))) }
{
    let (first, second) = boxed(heap, left, right)?;
    Ok(Expr::Both(operator, first, second))
}

fn negate(heap: Global, operand: Expr) -> Result<Expr, Error>
    ensures { (text : List ℕ) → Tells (view-exp text) result (answered (Negated (view-exp text operand))) }
{
    Ok(Expr::Negated(Box::new(heap, operand)?))
}

// The operator of a rank that a tag is. Rank 1 is `*`, 2 is `+` and `-`, 3 is `<`, and 4 is `==`.
fn operator(rank: u8, tag: Tag) -> Option<Operator>
    ensures { (text : List ℕ) (ts : List Token) → tag ≡ (next_token ts).tag → Chosen result (op_here (signs_of rank) (lexemes text ts)) }
{
    match (rank, tag) {
        (1, Tag::Star) => Some(Operator::Times),
        (2, Tag::Plus) => Some(Operator::Plus),
        (2, Tag::Minus) => Some(Operator::Minus),
        (3, Tag::Less) => Some(Operator::Less),
        (1..=3, _) => None,
        (_, Tag::Equals) => Some(Operator::Same),
        _ => None,
    }
}

impl<'a> Parser<'a> {
    // An expression whose operators have at most a rank; all of them group to the left. A rank is a number and no enum:
    // what stands beside an operator is an expression of the rank below.
    #[cycle(expressions)]
    pub fn level(&mut self, room: usize, rank: u8) -> Result<Expr, Error>
        ensures tells { Reads view-exp (level_at room rank) self.old.rest.now self.new.rest.now result }
        ensures shorter { Shorter self.old.rest.now self.new.rest.now result }
    {
        if rank == 0 {
            return self.operand(room);
        }
        let mut left = self.level(room, rank - 1)?;
        while let Some(op) = operator(rank, self.peek().tag) {
            self.next();
            let right = self.level(room, rank - 1)?;
            left = join(self.heap, op, left, right)?;
        }
        Ok(left)
    }

    // An operand, with at most one `-` before it.
    #[cycle(expressions)]
    fn operand(&mut self, room: usize) -> Result<Expr, Error>
        ensures tells { Reads view-exp (level_at room 0) self.old.rest.now self.new.rest.now result }
        ensures shorter { Shorter self.old.rest.now self.new.rest.now result }
    {
        if self.takes(Tag::Minus) {
            let inner = self.atom(room)?;
            negate(self.heap, inner)
        } else {
            self.atom(room)
        }
    }

    // A name, a number or an expression in parentheses.
    #[cycle(expressions)]
    fn atom(&mut self, room: usize) -> Result<Expr, Error>
        ensures tells { Reads view-exp (atom_at room) self.old.rest.now self.new.rest.now result }
        ensures shorter { Shorter self.old.rest.now self.new.rest.now result }
    {
        match self.peek().tag {
            Tag::Name => Ok(Expr::Use(self.name()?)),
            Tag::Number => Ok(Expr::Number(self.number()?)),
            _ => self.grouped(room),
        }
    }

    // An expression in parentheses.
    #[cycle(expressions)]
    pub fn grouped(&mut self, room: usize) -> Result<Expr, Error>
        ensures tells { Reads view-exp (grouped_at room) self.old.rest.now self.new.rest.now result }
        ensures shorter { Shorter self.old.rest.now self.new.rest.now result }
    {
        self.open(room, Tag::OpenParen)?;
        let inner = self.level(room - 1, 4)?;
        self.eat(Tag::CloseParen)?;
        Ok(inner)
    }
}
