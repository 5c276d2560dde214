// An expression of the unfolded program: names are own cells, literals are words of the kind.

#[derive(Drop)]
pub enum Expr {
    Own(usize),
    Word(u32),
    Plus(Box<Expr>, Box<Expr>),
    Minus(Box<Expr>, Box<Expr>),
    Times(Box<Expr>, Box<Expr>),
    Less(Box<Expr>, Box<Expr>),
    Same(Box<Expr>, Box<Expr>),
}
