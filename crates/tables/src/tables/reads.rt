// Looking things up in the tables. A number past a table's end reads as 0, a point past the end as an end.
ghost use Rattle.std.specs.Prelude.{◌≡◌, ℕ, ◌+◌, ◌<◌, ◌≤◌, Bool, true, false, length, IfSome, vec_len, MatchOption, slice_index, slice_index_or};
ghost use Rattle.rules.specs.Programs.{awaits};
ghost use Rattle.rules.specs.Trees.{within};
ghost use Rattle.rules.specs.Tests.{child};
ghost use Rattle.rules.specs.Names.{named_move, is_home, Exists};
ghost use Rattle.tables.specs.Fit.{no_place};
ghost use Rattle.tables.specs.Stms.{stm, offset_at, no_cell, recorded, got_is, RowAt, PastRows};
ghost use Rattle.tables.specs.Views.{table, awaited, cells_of, move, moved};

use crate::moves::{Move, MoveKind};
use crate::rows::{Cell, Got, Place, Point};
use crate::stmt::Stmt;
use crate::tables::Tables;

// The own cell and the home of a next.
fn next_of(stmt: &Stmt) -> Option<(u16, u16)>
    ensures { (q : ℕ) → awaited result ≡ awaits (stm q stmt.now) }
{
    match stmt {
        Stmt::Next(c, h) => Some((*c, *h)),
        _ => None,
    }
}

// Whether a row says that place `q` got a variable of home `h`.
fn is_got(g: Got, q: usize, h: usize) -> bool
    ensures { result ≡ got_is g q h }
{
    g.place as usize == q && g.home as usize == h
}

impl Tables {
    // The row of a place; past the last one a row of zeros.
    fn place_row(&self, q: usize) -> Place
        ensures { result ≡ slice_index_or self.now.places.items q no_place }
    {
        self.places.get(q).copied().unwrap_or_default()
    }

    // The row of a cell; past the last one a row of zeros.
    fn cell_row(&self, c: usize) -> Cell
        ensures { result ≡ slice_index_or self.now.cells.items c no_cell }
    {
        self.cells.get(c).copied().unwrap_or_default()
    }

    // How many places there are.
    pub fn place_count(&self) -> usize
        ensures is { result ≡ (table self.now).places }
        ensures some { 0 < result }
        ensures few { result ≤ 64 }
    {
        self.places.len()
    }

    // The place that a place is a branch of.
    pub fn parent(&self, q: usize) -> usize
        ensures is { result ≡ (table self.now).parent q }
        ensures low { 0 < q → result < q }
    {
        self.place_row(q).parent as usize
    }

    // The first point of a place.
    pub fn start(&self, q: usize) -> u16
        ensures { result ≡ (table self.now).start q }
    {
        self.place_row(q).start
    }

    // Whether `q` is a child of `p`.
    pub fn child(&self, p: usize, q: usize) -> bool
        ensures { result ≡ child (table self.now) p q }
    {
        q != 0 && self.parent(q) == p
    }

    // Whether `q` is `p` or stands below it: from child to parent, up to the main block.
    pub fn within(&self, p: usize, q: usize) -> bool
        ensures { result ≡ within (table self.now) p q }
    {
        let mut v = q;
        while v != p {
            if v == 0 {
                return false;
            }
            v = self.parent(v);
        }
        true
    }

    // Whether a place got a variable of a home at its start, and so knows it.
    pub fn knows(&self, q: usize, h: usize) -> bool
        ensures { result ≡ (table self.now).knows q h }
    {
        self.got.iter().any(|g| is_got(*g, q, h))
    }

    // How many cells there are.
    pub fn cell_count(&self) -> usize
        ensures is { result ≡ cells_of self.now }
        ensures few { result ≤ 128 }
    {
        self.cells.len()
    }

    // The home of a cell.
    pub fn home(&self, c: usize) -> usize
        ensures { result ≡ (table self.now).home c }
    {
        self.cell_row(c).home as usize
    }

    // The place that declared a cell.
    pub fn declarer(&self, c: usize) -> usize
        ensures is { result ≡ (table self.now).declarer c }
        ensures placed { result < (table self.now).places }
    {
        self.cell_row(c).declarer as usize
    }

    // Where the recorded name of a cell stands in the text: its first byte and its length.
    pub fn recorded_name(&self, c: usize) -> Option<(usize, usize)>
        ensures { result ≡ recorded self.now.cells.items c }
    {
        self.cells.get(c).map(|cell| (cell.at, cell.len))
    }

    // Whether a number is a home of the board.
    pub fn is_home(&self, h: usize) -> bool
        ensures is { result ≡ is_home (table self.now) (cells_of self.now) h }
        ensures few { result ≡ true → h < 128 }
        ensures own { result ≡ true → (h < cells_of self.now) × ((table self.now).home h ≡ h) }
    {
        h < self.cell_count() && self.home(h) == h
    }

    // The move that a kind and two numbers name.
    pub fn move_of(&self, kind: u32, a: u32, b: u32) -> Option<Move>
        ensures is { moved result ≡ named_move (table self.now) (cells_of self.now) kind a b }
        ensures exists { IfSome result (λ m. Exists (table self.now) (cells_of self.now) (move m)) }
    {
        let p = a as usize;
        let placed = p < self.place_count();
        match MoveKind::try_from(kind).ok()? {
            MoveKind::Step if placed && b == 0 => Some(Move::Step(p as u16)),
            MoveKind::Close if placed && b == 0 => Some(Move::Close(p as u16)),
            MoveKind::Meet if self.is_home(p) && b == 0 => Some(Move::Meet(p as u16)),
            MoveKind::Poison if placed && self.is_home(b as usize) => {
                Some(Move::Poison(p as u16, b as u16))
            }
            _ => None,
        }
    }

    // The row of a point; past the last one stands an end, with nothing after it.
    pub fn point(&self, x: u16) -> Option<&Point>
        ensures { MatchOption result (PastRows self.now.points.items x) (λ p. RowAt self.now.points.items x p.now) }
    {
        self.points.get(x as usize)
    }

    // The point after the statement at a point.
    pub fn after(&self, x: u16) -> u16
        ensures { result ≡ (table self.now).after x }
    {
        self.point(x).map_or(0, |point| point.after)
    }

    // The offset in the text of the statement at a point.
    pub fn offset(&self, x: u16) -> usize
        ensures { result ≡ offset_at self.now.points.items x }
    {
        self.point(x).map_or(0, |point| point.offset)
    }

    // The catch block of the try `j` from outside, counted from 0, that is open at the par at `x`.
    pub fn catch_block(&self, x: u16, j: usize) -> u16
        ensures { result ≡ slice_index ((table self.now).catches x) j }
    {
        self.point(x).map_or(0, |point| {
            point.catches.get(j).copied().unwrap_or_default()
        })
    }

    // The own cell and the home of the next at a point, if one stands there.
    pub fn awaits(&self, x: u16) -> Option<(u16, u16)>
        ensures is { awaited result ≡ awaits ((table self.now).stm x) }
        ensures named { IfSome result (λ d. d.0 < 128) }
    {
        self.point(x).and_then(|point| next_of(&point.stmt))
    }
}
