// Names and literals of expressions.
ghost use Rattle.std.specs.Prelude.{◌≡◌};
ghost use Rattle.grammar.specs.Views.{exp};
ghost use Rattle.numbers.specs.Literals.{literal_reading};
ghost use Rattle.names.specs.Naming.{names_exp};
ghost use Rattle.names.specs.Checking.{vars_of};

use crate::checker::Checker;
use grammar::tree::Expr;
use numbers::kind::NumberKind;
use reader::fault::Fault;

impl<K: NumberKind> Checker<'_, K> {
    pub fn check_expr(&self, e: &Expr) -> Result<(), Fault>
        ensures { result ≡ names_exp (literal_reading K.NumberKind.meaning) (vars_of self.now) (exp self.now.text.now e.now) }
    {
        match e {
            Expr::Use(n) => self.check_visible(*n),
            Expr::Number(n) => self.check_literal(*n),
            Expr::Negated(a) => self.check_expr(a),
            Expr::Both(_, a, b) => {
                self.check_expr(a)?;
                self.check_expr(b)
            }
        }
    }
}
