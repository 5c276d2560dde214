// The value of an expression.
ghost use Rattle.std.specs.Prelude.{◌≡◌, true, slice_index};
ghost use Rattle.rules.specs.Values.{value};
ghost use Rattle.tables.specs.Stms.{expr};
ghost use Rattle.tables.specs.Fit.{in_cells};

use numbers::kind::NumberKind;
use tables::expr::Expr;

// Sum, difference, product and less are the kind's; `==` compares words; `<` and `==` give 1 or 0.
pub fn value<K: NumberKind>(kind: &K, e: &Expr, cells: &[u32; 128]) -> u32
    requires { in_cells (expr e.now) ≡ true }
    ensures { result ≡ value K.NumberKind.meaning (λ c. slice_index cells.now c) (expr e.now) }
{
    match e {
        Expr::Own(c) => cells[*c],
        Expr::Word(w) => *w,
        Expr::Plus(a, b) => kind.sum(value(kind, a, cells), value(kind, b, cells)),
        Expr::Minus(a, b) => kind.difference(value(kind, a, cells), value(kind, b, cells)),
        Expr::Times(a, b) => kind.product(value(kind, a, cells), value(kind, b, cells)),
        Expr::Less(a, b) => u32::from(kind.less(value(kind, a, cells), value(kind, b, cells))),
        Expr::Same(a, b) => u32::from(value(kind, a, cells) == value(kind, b, cells)),
    }
}
