// Names of statements and blocks.
ghost use Rattle.std.specs.Prelude.{◌≡◌, ◌++◌};
ghost use Rattle.grammar.specs.Views.{name, names, simple, head, stm, block, blocks};
ghost use Rattle.numbers.specs.Literals.{literal_reading};
ghost use Rattle.names.specs.Naming.{find_proc, names_call, names_simple, names_head, names_stm, names_block, names_blocks};
ghost use Rattle.names.specs.Scopes.{declares, Declared};
ghost use Rattle.names.specs.Checking.{vars_of, procs_of, Checks};

use crate::checker::Checker;
use grammar::tree::{Block, Blocks, Head, Name, Simple, Stmt};
use numbers::kind::NumberKind;
use reader::fault::{Cause, Error, Fault, must};

// The variable that a statement declares becomes visible.
fn declare(vars: &mut Vec<Name>, s: &Stmt) -> Result<(), Error>
    ensures { Declared vars.old.items s.now result vars.new.items }
{
    if let Stmt::One(_, Simple::Var(n)) = s {
        vars.push(*n)?;
    }
    Ok(())
}

impl<K: NumberKind> Checker<'_, K> {
    fn check_call(&self, n: Name, args: &[Name]) -> Result<(), Fault>
        ensures { result ≡ names_call (vars_of self.now) (find_proc (procs_of self.now) (name self.now.text.now n).text) (name self.now.text.now n) (names self.now.text.now args.now) }
    {
        let count = self.parameter_count(n).ok_or(Cause::NotVisible.at(n.at))?;
        must(count == args.len(), Cause::ArgumentCount, n.at)?;
        self.check_arguments(args)
    }

    fn check_simple(&self, s: &Simple) -> Result<(), Fault>
        ensures { result ≡ names_simple (literal_reading K.NumberKind.meaning) (procs_of self.now) (vars_of self.now) (simple self.now.text.now s.now) }
    {
        match s {
            Simple::Var(n) => self.check_undeclared(*n),
            Simple::Set(n, e) => {
                self.check_visible(*n)?;
                self.check_expr(e)
            }
            Simple::Call(n, args) => self.check_call(*n, args.as_slice()),
            Simple::Next(n) | Simple::Know(n) => self.check_visible(*n),
            Simple::Throw(_) => Ok(()),
        }
    }

    fn check_head(&self, h: &Head) -> Result<(), Fault>
        ensures { result ≡ names_head (literal_reading K.NumberKind.meaning) (vars_of self.now) (head self.now.text.now h.now) }
    {
        match h {
            Head::Plain | Head::Try(_) => Ok(()),
            Head::If(e) | Head::While(e) => self.check_expr(e),
            Head::Take(i, n) => {
                self.check_port(*i)?;
                self.check_visible(*n)
            }
        }
    }

    #[cycle(check_block_check_blocks_check_stmt)]
    fn check_stmt(&mut self, s: &Stmt) -> Result<(), Error>
        ensures { Checks self.old self.new result (names_stm (literal_reading K.NumberKind.meaning) (procs_of self.old) (vars_of self.old) (stm self.old.text.now s.now)) }
    {
        match s {
            Stmt::One(_, simple) => Ok(self.check_simple(simple)?),
            Stmt::Two(_, head, first, second) => {
                self.check_head(head)?;
                self.check_block(first)?;
                self.check_block(second)
            }
            Stmt::Par(_, branches) => self.check_blocks(branches),
        }
    }

    #[cycle(check_block_check_blocks_check_stmt)]
    pub fn check_block(&mut self, b: &Block) -> Result<(), Error>
        ensures { Checks self.old self.new result (names_block (literal_reading K.NumberKind.meaning) (procs_of self.old) (vars_of self.old) (block self.old.text.now b.now)) }
    {
        match b {
            Block::Nil => Ok(()),
            Block::Seq(s, rest) => {
                self.check_stmt(s)?;
                let count = self.vars.len();
                declare(&mut self.vars, s)?;
                self.check_block(rest)?;
                self.vars.truncate(count);
                Ok(())
            }
        }
    }

    #[cycle(check_block_check_blocks_check_stmt)]
    fn check_blocks(&mut self, bs: &Blocks) -> Result<(), Error>
        ensures { Checks self.old self.new result (names_blocks (literal_reading K.NumberKind.meaning) (procs_of self.old) (vars_of self.old) (blocks self.old.text.now bs.now)) }
    {
        match bs {
            Blocks::Last => Ok(()),
            Blocks::Also(b, rest) => {
                self.check_block(b)?;
                self.check_blocks(rest)
            }
        }
    }
}
