// The tables of a program, with what makes every number in them safe to look up.
ghost use Rattle.tables.specs.Fit.{Sized, AllNamed, Lower, Declared};

use crate::rows::{Cell, Got, Place, Point};

#[derive(Drop)]
pub struct Tables {
    pub points: Vec<Point>,
    pub places: Vec<Place>,
    pub cells: Vec<Cell>,
    pub got: Vec<Got>,
    // there is a place, and no more than 64 of them and 128 cells
    ghost sized: { Sized places cells },
    // statements name cells and places within those bounds
    ghost named: { AllNamed points },
    // children stand after their parents
    ghost lower: { Lower places },
    // each cell was declared by a place that there is
    ghost declared: { Declared places cells },
}

pub mod reads;
