// The variables that stand in a branch of a par.
ghost use Rattle.std.specs.Prelude.{◌≡◌, [], ◌∷◌};
ghost use Rattle.grammar.specs.Views.{name, names, params as parameters, exp, simple, head, stm, block, blocks};
ghost use Rattle.unfold.specs.Variables.{uses_exp, uses_args, uses_simple, uses_head, uses_stm, uses_block, uses_blocks, written};
ghost use Rattle.unfold.specs.Occurrences.{uses, visible_params, Adds};
ghost use Rattle.unfold.specs.Views.{visible};

use crate::scopes::Scope;
use grammar::tree::{Block, Blocks, Expr, Head, Name, Param, Simple, Stmt};
use reader::fault::Error;

// An occurrence of a variable, and whether it is written there.
#[derive(Clone, Copy)]
pub struct Use {
    pub name: Name,
    pub written: bool,
}

// Whether a variable is written somewhere.
pub fn is_written(text: &[u8], found: &[Use], n: Name) -> bool
    ensures { result ≡ written (uses text.now found.now) (name text.now n).text }
{
    found.iter().any(|u| u.written && n.is_alike(text, u.name))
}

// `found` is no field of the scope: each contract would then say that the text and the procedures stay as they are.
impl<'a> Scope<'a> {
    fn add_use(&self, n: Name, written: bool, found: &mut Vec<Use>) -> Result<(), Error>
        ensures { Adds self.now.text.now found.old.items ((name self.now.text.now n, written) ∷ []) result found.new.items }
    {
        found.push(Use { name: n, written })?;
        Ok(())
    }

    fn add_expr(&self, e: &Expr, found: &mut Vec<Use>) -> Result<(), Error>
        ensures { Adds self.now.text.now found.old.items (uses_exp (exp self.now.text.now e.now)) result found.new.items }
    {
        match e {
            Expr::Use(n) => self.add_use(*n, false, found),
            Expr::Number(_) => Ok(()),
            Expr::Negated(a) => self.add_expr(a, found),
            Expr::Both(_, a, b) => {
                self.add_expr(a, found)?;
                self.add_expr(b, found)
            }
        }
    }

    fn add_args(&self, params: &[Param], args: &[Name], found: &mut Vec<Use>) -> Result<(), Error>
        ensures { Adds self.now.text.now found.old.items (uses_args (parameters self.now.text.now params.now) (names self.now.text.now args.now)) result found.new.items }
    {
        found.extend(
            params.iter().zip(args).map(|(p, a)| Use {
                name: *a,
                written: p.reference,
            }),
        )?;
        Ok(())
    }

    fn add_call(&self, n: Name, args: &[Name], found: &mut Vec<Use>) -> Result<(), Error>
        ensures { Adds self.now.text.now found.old.items (uses_args (visible_params (visible self.now) (name self.now.text.now n).text) (names self.now.text.now args.now)) result found.new.items }
    {
        match self.find_proc(n) {
            Some(i) => {
                let p = &self.procs[i];
                self.add_args(p.params.as_slice(), args, found)
            }
            None => Ok(()),
        }
    }

    fn add_simple(&self, s: &Simple, found: &mut Vec<Use>) -> Result<(), Error>
        ensures { Adds self.now.text.now found.old.items (uses_simple (visible_params (visible self.now)) (simple self.now.text.now s.now)) result found.new.items }
    {
        match s {
            Simple::Var(_) | Simple::Throw(_) => Ok(()),
            Simple::Set(n, e) => {
                self.add_use(*n, true, found)?;
                self.add_expr(e, found)
            }
            Simple::Call(n, args) => self.add_call(*n, args.as_slice(), found),
            Simple::Next(n) | Simple::Know(n) => self.add_use(*n, false, found),
        }
    }

    fn add_head(&self, h: &Head, found: &mut Vec<Use>) -> Result<(), Error>
        ensures { Adds self.now.text.now found.old.items (uses_head (head self.now.text.now h.now)) result found.new.items }
    {
        match h {
            Head::Plain | Head::Try(_) => Ok(()),
            Head::If(e) | Head::While(e) => self.add_expr(e, found),
            Head::Take(_, n) => self.add_use(*n, true, found),
        }
    }

    #[cycle(uses)]
    fn add_stmt(&self, s: &Stmt, found: &mut Vec<Use>) -> Result<(), Error>
        ensures { Adds self.now.text.now found.old.items (uses_stm (visible_params (visible self.now)) (stm self.now.text.now s.now)) result found.new.items }
    {
        match s {
            Stmt::One(_, simple) => self.add_simple(simple, found),
            Stmt::Two(_, head, first, second) => {
                self.add_head(head, found)?;
                self.add_block(first, found)?;
                self.add_block(second, found)
            }
            Stmt::Par(_, branches) => self.add_blocks(branches, found),
        }
    }

    // The variables that stand in a block.
    #[cycle(uses)]
    pub fn add_block(&self, b: &Block, found: &mut Vec<Use>) -> Result<(), Error>
        ensures { Adds self.now.text.now found.old.items (uses_block (visible_params (visible self.now)) (block self.now.text.now b.now)) result found.new.items }
    {
        match b {
            Block::Nil => Ok(()),
            Block::Seq(s, rest) => {
                self.add_stmt(s, found)?;
                self.add_block(rest, found)
            }
        }
    }

    #[cycle(uses)]
    fn add_blocks(&self, bs: &Blocks, found: &mut Vec<Use>) -> Result<(), Error>
        ensures { Adds self.now.text.now found.old.items (uses_blocks (visible_params (visible self.now)) (blocks self.now.text.now bs.now)) result found.new.items }
    {
        match bs {
            Blocks::Last => Ok(()),
            Blocks::Also(b, rest) => {
                self.add_block(b, found)?;
                self.add_blocks(rest, found)
            }
        }
    }
}
