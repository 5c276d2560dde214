// What is asked of where a place stands.
ghost use Rattle.std.specs.Prelude.{◌≡◌};
ghost use Rattle.rules.specs.States.{live, busy, is_parted};
ghost use Rattle.board.specs.Views.{local};

use crate::state::Local;

impl Local {
    // Running, parted and poisoned places are live.
    pub fn is_live(self) -> bool
        ensures { result ≡ live (local self) }
    {
        matches!(self, Local::Running(_) | Local::Parted(_) | Local::Poisoned)
    }

    // Whether the place runs or is parted.
    pub fn is_busy(self) -> bool
        ensures { result ≡ busy (local self) }
    {
        matches!(self, Local::Running(_) | Local::Parted(_))
    }

    pub fn is_parted(self) -> bool
        ensures { result ≡ is_parted (local self) }
    {
        matches!(self, Local::Parted(_))
    }
}
