// The walk over the unfolded text, which lays out its rows in the order of the text: the number of a point or of a place
// is how many there are before it.
ghost use Rattle.std.specs.Prelude.{◌≡◌, ℕ, ◌+◌, ◌≤◌, true, List, length, OnOk};
ghost use Rattle.tables.specs.Stms.{stm};
ghost use Rattle.program.specs.Sizes.{node_size, size, branch_size, node_places, how_many, branch_places};
ghost use Rattle.unfold.specs.Views.{gots as variables, news as fresh, node, nodes as meant, branches as all};
ghost use Rattle.layout.specs.Fits.{news_fit, gots_fit, node_fits, fits, branches_fit};
ghost use Rattle.layout.specs.Opens.{all_held};
ghost use Rattle.layout.specs.Walked.{more, rows as so_far, statement_rows, begun, node_rows, block_rows, branch_rows};

use crate::cells::push_news;
use crate::entries::entry;
use crate::given::push_got;
use crate::pars::par_stmt;
use crate::points::push_point;
use crate::sizes::{block_extent, node_extent};
use crate::stmts::{action_stmt, part_stmt};
use crate::tries::{Inside, inner_catches, inner_tries, leads_to, throw_stmt};
use std::alloc::{AllocError, Global};
use tables::rows::{Cell, Got, Place, Point};
use tables::stmt::Stmt;
use unfold::nodes;
use unfold::nodes::{Branches, New, Node, Nodes};

// The rows of the tables, as far as they are laid out.
#[derive(Drop)]
pub struct Rows {
    pub points: Vec<Point>,
    pub places: Vec<Place>,
    pub cells: Vec<Cell>,
    pub got: Vec<Got>,
}

impl Rows {
    // The number of the point that comes next, and of the place.
    fn next_point(&self) -> u16
        requires { length self.now.points.items ≤ 1024 }
        ensures { result ≡ length self.now.points.items }
    {
        self.points.len() as u16
    }

    pub fn next_place(&self) -> u16
        requires { length self.now.places.items ≤ 64 }
        ensures { result ≡ length self.now.places.items }
    {
        self.places.len() as u16
    }

    // The next place, and what it got.
    fn put_place(&mut self, place: Place, gots: &[nodes::Got]) -> Result<(), AllocError>
        requires fit { (text : List ℕ) × (gots_fit (variables text gots.now) ≡ true) }
        requires few { length self.old.places.items ≤ 64 }
        ensures points { OnOk result (length self.new.points.items ≡ length self.old.points.items) }
        ensures places { OnOk result (length self.new.places.items ≡ length self.old.places.items + 1) }
        ensures rows { (text : List ℕ) → OnOk result (so_far self.new ≡ more (so_far self.old) (begun (length self.old.places.items) place (variables text gots.now))) }
    {
        let q = self.next_place();
        self.places.push(place)?;
        push_got(&mut self.got, q, gots)
    }
}

// What never changes in the walk; the end of the place q is the point ends + q.
#[derive(Clone, Copy)]
pub struct Plan<'a> {
    pub text: &'a [u8],
    pub heap: Global,
    pub ends: u16,
    ghost last: { ends ≤ 1024 },
}

impl<'a> Plan<'a> {
    // The point of a statement, and the cells that it brings.
    fn put_statement(
        &self,
        rows: &mut Rows,
        inside: &Inside<'_>,
        stmt: Stmt,
        after: u16,
        at: usize,
        news: &[New],
    ) -> Result<(), AllocError>
        requires { news_fit (fresh self.now.text.now news.now) ≡ true }
        ensures points { OnOk result (length rows.new.points.items ≡ length rows.old.points.items + 1) }
        ensures places { OnOk result (length rows.new.places.items ≡ length rows.old.places.items) }
        ensures rows { OnOk result (so_far rows.new ≡ more (so_far rows.old) (statement_rows inside.now.place (stm inside.now.place stmt) after inside.now.catches.now at (fresh self.now.text.now news.now))) }
    {
        push_point(self.heap, &mut rows.points, inside, stmt, after, at)?;
        push_news(self.text, &mut rows.cells, inside.place, news)
    }

    #[cycle(walk)]
    fn put_node(
        &self,
        rows: &mut Rows,
        inside: &Inside<'_>,
        u: &Node,
        k: u16,
    ) -> Result<(), AllocError>
        requires fit { node_fits (node self.now.text.now u.now) ≡ true }
        requires few { length rows.old.places.items + node_places (node self.now.text.now u.now) ≤ 64 }
        requires short { length rows.old.points.items + node_size (node self.now.text.now u.now) ≤ 1024 }
        requires open { length inside.now.catches.now ≤ length rows.old.points.items }
        ensures points { OnOk result (length rows.new.points.items ≡ length rows.old.points.items + node_size (node self.now.text.now u.now)) }
        ensures places { OnOk result (length rows.new.places.items ≡ length rows.old.places.items + node_places (node self.now.text.now u.now)) }
        ensures rows { OnOk result (so_far rows.new ≡ more (so_far rows.old) (node_rows self.now.ends inside.now.place inside.now.catches.now (all_held self.now.text.now inside.now.tries.now) (node self.now.text.now u.now) (length rows.old.places.items) (length rows.old.points.items) k)) }
    {
        let o = rows.next_point();
        match u {
            Node::One(at, news, action) => {
                let stmt = action_stmt(self.heap, action)?;
                self.put_statement(rows, inside, stmt, k, *at, news)
            }
            Node::Throws(at, n) => {
                let stmt = throw_stmt(self.text, inside, *n);
                self.put_statement(rows, inside, stmt, k, *at, &[])
            }
            Node::Two(at, news, part, first, second) => {
                let after = leads_to(part, o, k);
                let i = entry(first, o + 1, after);
                let j = entry(second, o + 1 + block_extent(first).statements, k);
                let stmt = part_stmt(self.heap, part, i, j, k)?;
                self.put_statement(rows, inside, stmt, k, *at, news)?;
                let catches = inner_catches(self.heap, part, j, inside)?;
                let tries = inner_tries(self.heap, part, j, inside)?;
                let within = Inside {
                    catches: &catches,
                    tries: &tries,
                    ..*inside
                };
                self.put_block(rows, &within, first, after)?;
                self.put_block(rows, inside, second, k)
            }
            Node::Par(at, news, branches) => {
                let stmt = par_stmt(self.heap, branches, rows.next_place())?;
                self.put_statement(rows, inside, stmt, k, *at, news)?;
                self.put_branches(rows, inside, o, branches)
            }
        }
    }

    // A block, where k is the point after it.
    #[cycle(walk)]
    pub fn put_block(
        &self,
        rows: &mut Rows,
        inside: &Inside<'_>,
        us: &Nodes,
        k: u16,
    ) -> Result<(), AllocError>
        requires fit { fits (meant self.now.text.now us.now) ≡ true }
        requires few { length rows.old.places.items + how_many (meant self.now.text.now us.now) ≤ 64 }
        requires short { length rows.old.points.items + size (meant self.now.text.now us.now) ≤ 1024 }
        requires open { length inside.now.catches.now ≤ length rows.old.points.items }
        ensures points { OnOk result (length rows.new.points.items ≡ length rows.old.points.items + size (meant self.now.text.now us.now)) }
        ensures places { OnOk result (length rows.new.places.items ≡ length rows.old.places.items + how_many (meant self.now.text.now us.now)) }
        ensures rows { OnOk result (so_far rows.new ≡ more (so_far rows.old) (block_rows self.now.ends inside.now.place inside.now.catches.now (all_held self.now.text.now inside.now.tries.now) (meant self.now.text.now us.now) (length rows.old.places.items) (length rows.old.points.items) k)) }
    {
        match us {
            Nodes::Nil => Ok(()),
            Nodes::Seq(u, rest) => {
                let o = rows.next_point();
                let next = entry(rest, o + node_extent(u).statements, k);
                self.put_node(rows, inside, u, next)?;
                self.put_block(rows, inside, rest, k)
            }
        }
    }

    // The branches of a par at the point x.
    #[cycle(walk)]
    fn put_branches(
        &self,
        rows: &mut Rows,
        inside: &Inside<'_>,
        x: u16,
        branches: &Branches,
    ) -> Result<(), AllocError>
        requires fit { branches_fit (all self.now.text.now branches.now) ≡ true }
        requires few { length rows.old.places.items + branch_places (all self.now.text.now branches.now) ≤ 64 }
        requires short { length rows.old.points.items + branch_size (all self.now.text.now branches.now) ≤ 1024 }
        ensures points { OnOk result (length rows.new.points.items ≡ length rows.old.points.items + branch_size (all self.now.text.now branches.now)) }
        ensures places { OnOk result (length rows.new.places.items ≡ length rows.old.places.items + branch_places (all self.now.text.now branches.now)) }
        ensures rows { OnOk result (so_far rows.new ≡ more (so_far rows.old) (branch_rows self.now.ends inside.now.place x (all_held self.now.text.now inside.now.tries.now) (all self.now.text.now branches.now) (length rows.old.places.items) (length rows.old.points.items))) }
    {
        match branches {
            Branches::Last => Ok(()),
            Branches::Also(gots, us, rest) => {
                let q = rows.next_place();
                let start = entry(us, rows.next_point(), self.ends + q);
                let place = Place {
                    parent: inside.place,
                    under: x,
                    start,
                };
                rows.put_place(place, gots)?;
                let within = Inside {
                    place: q,
                    catches: &[],
                    ..*inside
                };
                self.put_block(rows, &within, us, self.ends + q)?;
                self.put_branches(rows, inside, x, rest)
            }
        }
    }
}
