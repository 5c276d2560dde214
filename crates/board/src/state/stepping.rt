// A step of a place.
ghost use Rattle.std.specs.Prelude.{◌≡◌, ℕ, ◌<◌, ◌≤◌, true, List, slice_index, slice_set};
ghost use Rattle.std.proofs.Math.Option.{none};
ghost use Rattle.rules.specs.Programs.{awaits};
ghost use Rattle.rules.specs.Values.{value};
ghost use Rattle.rules.specs.Answers.{limit};
ghost use Rattle.rules.specs.States.{step};
ghost use Rattle.rules.specs.Steps.{step_effect};
ghost use Rattle.rules.specs.Moves.{effect};
ghost use Rattle.rules.specs.Tests.{permitted};
ghost use Rattle.tables.specs.Stms.{expr, stm, copies};
ghost use Rattle.tables.specs.Fit.{in_cells, copies_in, places_in, named};
ghost use Rattle.tables.specs.Views.{table};
ghost use Rattle.board.specs.Views.{place, portless, view};
ghost use Rattle.board.specs.Effects.{After, MayMove, stepped, with_cells, with_places, copied, forked, acted, act_words, effect_words};

use crate::eval::value;
use crate::state::power::started;
use crate::state::{Local, PlaceState, State};
use banks::bank::Bank;
use numbers::kind::NumberKind;
use tables::expr::Expr;
use tables::rows::Point;
use tables::stmt::{Copied, Stmt};
use tables::tables::Tables;

impl State {
    // Place `p` has made a step and stands so.
    fn step_to(&mut self, p: usize, at: Local)
        requires inside { p < 64 }
        requires few { (q : ℕ) → (place self.old q).steps ≤ self.old.total }
        requires under { self.old.total < limit }
        ensures { self.new ≡ stepped self.old p at }
    {
        let old = self.places[p];
        self.places[p] = PlaceState {
            at,
            steps: old.steps + 1,
            ..old
        };
        self.total += 1;
    }

    // Cell `c` gets the value of an expression.
    fn assign<K: NumberKind>(&mut self, kind: &K, c: usize, e: &Expr)
        requires inside { c < 128 }
        requires named { in_cells (expr e.now) ≡ true }
        ensures { self.new ≡ with_cells self.old (slice_set self.old.cells c (value K.NumberKind.meaning (λ i. slice_index self.old.cells i) (expr e.now))) }
    {
        let word = value(kind, e, &self.cells);
        self.cells[c] = word;
    }

    // New cells get the words of others, as they were before; backward, since the first copy for a cell counts.
    fn copy(&mut self, list: &[Copied])
        requires { copies_in (copies list.now) ≡ true }
        ensures { self.new ≡ with_cells self.old (copied self.old.cells list.now) }
    {
        let old = self.cells;
        for c in list.iter().rev() {
            self.cells[c.to] = old[c.from];
        }
    }

    // The branches run from their starts.
    fn fork(&mut self, t: &Tables, branches: &[u16])
        requires { places_in branches.now ≡ true }
        ensures { self.new ≡ with_places self.old (forked (table t.now).start self.old.places branches.now) }
    {
        for b in branches {
            let q = *b as usize;
            self.places[q] = started(t, q, self.places[q]);
        }
    }

    // One step of place `p`, which stands at the point `x`.
    // One match over the kinds of statements, each of them in an arm here: a rule of the project.
    fn perform<K: NumberKind, B: Bank>(
        &mut self,
        t: &Tables,
        kind: &K,
        bank: &mut B,
        p: usize,
        x: u16,
        point: &Point,
    )
        requires inside { p < 64 }
        requires counts { MayMove self.old }
        requires named { named (stm point.now.place point.now.stmt) ≡ true }
        requires free { awaits (stm point.now.place point.now.stmt) ≡ none }
        ensures did { After (step_effect (table t.now) p (acted K.NumberKind.meaning (table t.now) self.old (B.Bank.words bank.old) x point.now.place point.now.stmt)) self.old self.new }
        ensures ports { (i : ℕ) → B.Bank.words bank.new i ≡ act_words (acted K.NumberKind.meaning (table t.now) self.old (B.Bank.words bank.old) x point.now.place point.now.stmt) (B.Bank.words bank.old) i }
    {
        match &point.stmt {
            Stmt::End => self.step_to(p, Local::Finished),
            Stmt::Var(c) => {
                self.cells[*c as usize] = 0;
                self.step_to(p, Local::Running(t.after(x)));
            }
            Stmt::Set(c, e) => {
                self.assign(kind, *c as usize, e);
                self.step_to(p, Local::Running(t.after(x)));
            }
            Stmt::Know => self.step_to(p, Local::Running(t.after(x))),
            Stmt::Next(_, _) => {}
            Stmt::Call(list, to) => {
                self.copy(list.as_slice());
                self.step_to(p, Local::Running(*to));
            }
            Stmt::Test(e, _, to) if value(kind, e, &self.cells) == 0 => self.step_to(
                p,
                Local::Running(*to),
            ),
            Stmt::Test(_, to, _) => self.step_to(p, Local::Running(*to)),
            // A port above 7 is dry.
            Stmt::Take(port, _, to) if *port > 7 => self.step_to(p, Local::Running(*to)),
            Stmt::Take(port, c, to) => {
                let taken = bank.take(*port);
                let Some(word) = taken else {
                    self.step_to(p, Local::Running(*to));
                    return;
                };
                if !kind.is_number(word) {
                    self.step_to(p, Local::Running(*to));
                    return;
                }
                self.cells[*c as usize] = word;
                self.step_to(p, Local::Running(t.after(x)));
            }
            Stmt::Par(branches, list) => {
                self.copy(list.as_slice());
                self.fork(t, branches.as_slice());
                self.step_to(p, Local::Parted(x));
            }
            Stmt::Try(to) | Stmt::Goto(to) => self.step_to(p, Local::Running(*to)),
            // The nearest open try is in the place itself.
            Stmt::Throw(g, _, to) if *g == point.place => self.step_to(p, Local::Running(*to)),
            Stmt::Throw(g, k, _) => self.throw(t, p, *g as usize, *k),
        }
    }

    // A step of place `p`.
    pub fn step<K: NumberKind, B: Bank>(&mut self, t: &Tables, kind: &K, bank: &mut B, p: usize)
        requires inside { p < 64 }
        requires counts { MayMove self.old }
        requires permitted { permitted (table t.now) (portless self.old) (step p) ≡ true }
        ensures did { After (effect K.NumberKind.meaning (table t.now) (view self.old (B.Bank.words bank.old)) (step p)) self.old self.new }
        ensures ports { (i : ℕ) → B.Bank.words bank.new i ≡ effect_words (effect K.NumberKind.meaning (table t.now) (view self.old (B.Bank.words bank.old)) (step p)) (B.Bank.words bank.old) i }
    {
        let Local::Running(x) = self.places[p].at else {
            return;
        };
        match t.point(x) {
            Some(point) => self.perform(t, kind, bank, p, x, point),
            None => self.step_to(p, Local::Finished),
        }
    }
}
