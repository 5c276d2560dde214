// Expressions once more, for the tables.
ghost use Rattle.std.specs.Prelude.{◌≡◌, IfOk};
ghost use Rattle.tables.specs.Stms.{expr as meant};

use std::alloc::{AllocError, Global};
use tables::expr::Expr;

#[cycle(copying)]
fn copy_boxed(heap: Global, e: &Expr) -> Result<Box<Expr>, AllocError>
    ensures { IfOk result (λ x. meant x.value ≡ meant e.now) }
{
    Ok(Box::new(heap, copy_expr(heap, e)?)?)
}

// Written out: a derived `clone` of a type that leads back to itself promises nothing of what it makes.
#[cycle(copying)]
pub fn copy_expr(heap: Global, e: &Expr) -> Result<Expr, AllocError>
    ensures { IfOk result (λ x. meant x ≡ meant e.now) }
{
    match e {
        Expr::Own(c) => Ok(Expr::Own(*c)),
        Expr::Word(w) => Ok(Expr::Word(*w)),
        Expr::Plus(a, b) => Ok(Expr::Plus(copy_boxed(heap, a)?, copy_boxed(heap, b)?)),
        Expr::Minus(a, b) => Ok(Expr::Minus(copy_boxed(heap, a)?, copy_boxed(heap, b)?)),
        Expr::Times(a, b) => Ok(Expr::Times(copy_boxed(heap, a)?, copy_boxed(heap, b)?)),
        Expr::Less(a, b) => Ok(Expr::Less(copy_boxed(heap, a)?, copy_boxed(heap, b)?)),
        Expr::Same(a, b) => Ok(Expr::Same(copy_boxed(heap, a)?, copy_boxed(heap, b)?)),
    }
}
