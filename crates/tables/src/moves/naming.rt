// Kinds by their numbers, and what a move is named.
ghost use Rattle.std.specs.Prelude.{◌≡◌};
ghost use Rattle.rules.specs.Names.{name_of};
ghost use Rattle.tables.specs.Views.{move, kind_number, KindOf, name};

use crate::moves::{Move, MoveKind, MoveName, UnknownKind};

impl MoveKind {
    // The number of a kind.
    pub fn number(self) -> u8
        ensures { result ≡ kind_number self }
    {
        self as u8
    }
}

impl TryFrom<u32> for MoveKind {
    type Error = UnknownKind;

    ghost try_from_gives = { KindOf };

    fn try_from(number: u32) -> Result<Self, UnknownKind> {
        match number {
            0 => Ok(MoveKind::Step),
            1 => Ok(MoveKind::Close),
            2 => Ok(MoveKind::Meet),
            3 => Ok(MoveKind::Poison),
            _ => Err(UnknownKind(number)),
        }
    }
}

impl Move {
    pub fn name(self) -> MoveName
        ensures { name result ≡ name_of (move self) }
    {
        let (kind, first, second) = match self {
            Move::Step(p) => (MoveKind::Step, p, 0),
            Move::Close(p) => (MoveKind::Close, p, 0),
            Move::Meet(h) => (MoveKind::Meet, h, 0),
            Move::Poison(p, h) => (MoveKind::Poison, p, h),
        };
        MoveName {
            kind,
            first,
            second,
        }
    }
}
