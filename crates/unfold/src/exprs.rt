// Expressions over own cells and words.
ghost use Rattle.std.specs.Prelude.{◌≡◌};
ghost use Rattle.grammar.specs.Views.{exp, operator as meant};
ghost use Rattle.numbers.specs.Literals.{literal_reading};
ghost use Rattle.tables.specs.Stms.{expr};
ghost use Rattle.unfold.specs.Scopes.{resolved, joined};
ghost use Rattle.unfold.specs.Views.{variables, Gives};

use crate::scopes::Scope;
use grammar::tree;
use grammar::tree::Operator;
use numbers::kind::NumberKind;
use numbers::literal::read_literal;
use reader::fault::{Cause, Error};
use tables::expr::Expr;

fn join(operator: Operator, left: Box<Expr>, right: Box<Expr>) -> Expr
    ensures { expr result ≡ joined (meant operator) (expr left.value) (expr right.value) }
{
    match operator {
        Operator::Same => Expr::Same(left, right),
        Operator::Less => Expr::Less(left, right),
        Operator::Plus => Expr::Plus(left, right),
        Operator::Minus => Expr::Minus(left, right),
        Operator::Times => Expr::Times(left, right),
    }
}

impl<'a> Scope<'a> {
    pub fn resolve<K: NumberKind>(&self, kind: &K, e: &tree::Expr) -> Result<Expr, Error>
        ensures { Gives expr result (resolved (literal_reading K.NumberKind.meaning) (variables self.now) (exp self.now.text.now e.now)) }
    {
        match e {
            tree::Expr::Use(n) => {
                let b = self.resolve_name(*n)?;
                Ok(Expr::Own(b.own))
            }
            tree::Expr::Number(n) => {
                let w = read_literal(kind, n.bytes(self.text)).ok_or(Cause::OutOfRange.at(n.at))?;
                Ok(Expr::Word(w))
            }
            tree::Expr::Negated(a) => {
                let right = self.resolve(kind, a)?;
                let zero = Box::new(self.heap, Expr::Word(0))?;
                Ok(Expr::Minus(zero, Box::new(self.heap, right)?))
            }
            tree::Expr::Both(operator, a, b) => {
                let left = self.resolve(kind, a)?;
                let right = self.resolve(kind, b)?;
                let left = Box::new(self.heap, left)?;
                let right = Box::new(self.heap, right)?;
                Ok(join(*operator, left, right))
            }
        }
    }
}
