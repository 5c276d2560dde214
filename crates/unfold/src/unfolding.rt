// The fourth stage of clearing: each call is followed by its procedure's block.
ghost use Rattle.std.specs.Prelude.{◌≡◌, ◌+◌, ◌≤◌, length};
ghost use Rattle.reader.specs.Faults.{Meets};
ghost use Rattle.grammar.specs.Views.{name, names, params as parameters, simple, stm, block, blocks};
ghost use Rattle.grammar.specs.Trees.{Call as a_call};
ghost use Rattle.names.specs.Scopes.{ended};
ghost use Rattle.numbers.specs.Literals.{literal_reading};
ghost use Rattle.unfold.specs.Variables.{all_get, all_new};
ghost use Rattle.unfold.specs.Unfolding.{callees, unfold_simple, unfold_stm, unfold_block, unfold_blocks, unfolded};
ghost use Rattle.unfold.specs.Occurrences.{visible_params};
ghost use Rattle.unfold.specs.Calls.{entered, parted};
ghost use Rattle.unfold.specs.Views.{count, nodes, node_count, nodes_count, branches_count, variables, visible, Gives};

use crate::counts::Count;
use crate::gets::Getting;
use crate::nodes::{Action, Branches, New, Node, Nodes, Part};
use crate::passing::Passed;
use crate::scopes::Scope;
use grammar::tree::{Block, Blocks, Name, Proc, Simple, Stmt, Tree};
use numbers::kind::NumberKind;
use reader::fault::{Cause, Error};
use std::alloc::Global;

// Two boxes are written out where a node is put together: a helper for pairs would be as long at each call.
impl<'a> Scope<'a> {
    #[cycle(unfolding)]
    fn unfold_simple<K: NumberKind>(
        &self,
        kind: &K,
        n: Count,
        at: usize,
        s: &Simple,
    ) -> Result<(Node, Count), Error>
        ensures { let l = literal_reading K.NumberKind.meaning in Gives (node_count self.now.text.now) result (unfold_simple l (callees l (visible self.now)) (variables self.now) (count n) at (simple self.now.text.now s.now)) }
    {
        match s {
            Simple::Var(x) => {
                let m = n.bring(0, 1, at)?;
                let mut news = Vec::new(self.heap);
                news.push(New {
                    home: n.cells,
                    name: *x,
                })?;
                Ok((Node::One(at, news, Action::Var(n.cells)), m))
            }
            Simple::Set(x, e) => {
                let m = n.bring(0, 0, at)?;
                let b = self.resolve_name(*x)?;
                let value = self.resolve(kind, e)?;
                Ok((
                    Node::One(at, Vec::new(self.heap), Action::Set(b.own, value)),
                    m,
                ))
            }
            Simple::Call(x, args) => self.unfold_call(kind, n, at, *x, args.as_slice()),
            Simple::Next(x) => {
                let m = n.bring(0, 0, at)?;
                let b = self.resolve_name(*x)?;
                Ok((
                    Node::One(at, Vec::new(self.heap), Action::Next(b.own, b.home)),
                    m,
                ))
            }
            Simple::Know(x) => {
                let m = n.bring(0, 0, at)?;
                let _b = self.resolve_name(*x)?;
                Ok((Node::One(at, Vec::new(self.heap), Action::Know), m))
            }
            Simple::Throw(x) => {
                let m = n.bring(0, 0, at)?;
                Ok((Node::Throws(at, *x), m))
            }
        }
    }

    #[cycle(unfolding)]
    fn unfold_call<K: NumberKind>(
        &self,
        kind: &K,
        n: Count,
        at: usize,
        x: Name,
        args: &[Name],
    ) -> Result<(Node, Count), Error>
        ensures { let l = literal_reading K.NumberKind.meaning in Gives (node_count self.now.text.now) result (unfold_simple l (callees l (visible self.now)) (variables self.now) (count n) at (a_call (name self.now.text.now x) (names self.now.text.now args.now))) }
    {
        let i = self.find_proc(x).ok_or(Cause::NotVisible.at(at))?;
        let procs = &self.procs[0..i];
        Scope { procs, ..*self }.enter(kind, n, at, &self.procs[i], args)
    }

    // A call of a procedure, where those stand that it sees.
    #[cycle(unfolding)]
    fn enter<K: NumberKind>(
        &self,
        kind: &K,
        n: Count,
        at: usize,
        p: &Proc,
        args: &[Name],
    ) -> Result<(Node, Count), Error>
        ensures { let l = literal_reading K.NumberKind.meaning in Gives (node_count self.now.text.now) result (entered l (visible self.now) (parameters self.now.text.now p.now.params.items) (block self.now.text.now p.now.body) (variables self.now) (count n) at (names self.now.text.now args.now)) }
    {
        let Passed {
            env,
            copies,
            news,
            refs,
        } = self.pass_args(n, p.params.as_slice(), args)?;
        let m = self.bring_call(n, news.as_slice(), at)?;
        let inside = Scope {
            bindings: env.as_slice(),
            ..*self
        };
        let (first, m) = inside.unfold_block(kind, &p.body, m)?;
        let first = Box::new(self.heap, first)?;
        let second = Box::new(self.heap, Nodes::Nil)?;
        Ok((
            Node::Two(at, news, Part::Calls(copies, refs), first, second),
            m,
        ))
    }

    #[cycle(unfolding)]
    fn unfold_stmt<K: NumberKind>(
        &self,
        kind: &K,
        n: Count,
        s: &Stmt,
    ) -> Result<(Node, Count), Error>
        ensures { let l = literal_reading K.NumberKind.meaning in Gives (node_count self.now.text.now) result (unfold_stm l (callees l (visible self.now)) (variables self.now) (count n) (stm self.now.text.now s.now)) }
    {
        match s {
            Stmt::One(at, simple) => self.unfold_simple(kind, n, *at, simple),
            Stmt::Two(at, head, a, b) => {
                let m = n.bring(0, 0, *at)?;
                let part = self.resolve_head(kind, head)?;
                let (first, m) = self.unfold_block(kind, a, m)?;
                let (second, m) = self.unfold_block(kind, b, m)?;
                let first = Box::new(self.heap, first)?;
                let second = Box::new(self.heap, second)?;
                Ok((Node::Two(*at, Vec::new(self.heap), part, first, second), m))
            }
            Stmt::Par(at, branches) => self.unfold_par(kind, n, *at, branches),
        }
    }

    #[cycle(unfolding)]
    fn unfold_par<K: NumberKind>(
        &self,
        kind: &K,
        n: Count,
        at: usize,
        bs: &Blocks,
    ) -> Result<(Node, Count), Error>
        ensures { let l = literal_reading K.NumberKind.meaning in Gives (node_count self.now.text.now) result (parted l (visible self.now) (variables self.now) (count n) at (blocks self.now.text.now bs.now)) }
    {
        let mut news = Vec::new(self.heap);
        self.add_branch_news(bs, &mut news)?;
        let m = self.bring_par(n, bs, news.as_slice(), at)?;
        let (branches, m) = self.unfold_blocks(kind, bs, n.cells, m)?;
        let branches = Box::new(self.heap, branches)?;
        Ok((Node::Par(at, news, branches), m))
    }

    #[cycle(unfolding)]
    fn unfold_block<K: NumberKind>(
        &self,
        kind: &K,
        b: &Block,
        n: Count,
    ) -> Result<(Nodes, Count), Error>
        ensures { let l = literal_reading K.NumberKind.meaning in Gives (nodes_count self.now.text.now) result (unfold_block l (callees l (visible self.now)) (block self.now.text.now b.now) (variables self.now) (count n)) }
    {
        match b {
            Block::Nil => Ok((Nodes::Nil, n)),
            Block::Seq(s, rest) => {
                let (first, m) = self.unfold_stmt(kind, n, s)?;
                let after = self.bindings_after(n, s)?;
                let below = Scope {
                    bindings: after.as_slice(),
                    ..*self
                };
                let (others, m) = below.unfold_block(kind, rest, m)?;
                let first = Box::new(self.heap, first)?;
                let others = Box::new(self.heap, others)?;
                Ok((Nodes::Seq(first, others), m))
            }
        }
    }

    #[cycle(unfolding)]
    fn unfold_blocks<K: NumberKind>(
        &self,
        kind: &K,
        bs: &Blocks,
        first: usize,
        n: Count,
    ) -> Result<(Branches, Count), Error>
        requires { first + length (all_new (all_get (visible_params (visible self.now)) (variables self.now) (blocks self.now.text.now bs.now) first)) ≤ 128 }
        ensures { let l = literal_reading K.NumberKind.meaning in Gives (branches_count self.now.text.now) result (unfold_blocks l (callees l (visible self.now)) (blocks self.now.text.now bs.now) (all_get (visible_params (visible self.now)) (variables self.now) (blocks self.now.text.now bs.now) first) (count n)) }
    {
        match bs {
            Blocks::Last => Ok((Branches::Last, n)),
            Blocks::Also(b, rest) => {
                let Getting { got, next } = self.get_branch(b, first)?;
                let bindings = self.branch_bindings(got.as_slice())?;
                let inside = Scope {
                    bindings: bindings.as_slice(),
                    ..*self
                };
                let (block, m) = inside.unfold_block(kind, b, n)?;
                let (others, m) = self.unfold_blocks(kind, rest, next, m)?;
                let block = Box::new(self.heap, block)?;
                let others = Box::new(self.heap, others)?;
                Ok((Branches::Also(got, block, others), m))
            }
        }
    }
}

// The unfolded text of a tree, or the first statement that passes a limit.
pub fn unfold<K: NumberKind>(
    heap: Global,
    kind: &K,
    text: &[u8],
    tree: &Tree,
) -> Result<Nodes, Error>
    ensures { Meets (λ v us. nodes text.now v ≡ us) result (unfolded (literal_reading K.NumberKind.meaning) (ended text.now tree.now.procs.items) (block text.now tree.now.main)) }
{
    let scope = Scope {
        heap,
        text,
        procs: tree.procs.as_slice(),
        bindings: &[],
    };
    let start = Count {
        statements: 0,
        places: 1,
        cells: 0,
    };
    let (all, _) = scope.unfold_block(kind, &tree.main, start)?;
    Ok(all)
}
