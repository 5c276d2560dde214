// What the calls of a board answer: the one definition, for the rules and for the code.
ghost use Rattle.std.specs.Prelude.{◌≡◌};
ghost use Rattle.rules.specs.Answers.{refusal_number};

// Why a named move is refused. Each cause has the number that the rules give it.
#[derive(Clone, Copy, PartialEq, Eq, Debug)]
pub enum Refusal {
    // no move has this name
    NoSuch = 31,
    // as many moves are granted as a board grants
    Limit = 32,
    // the move is not permitted
    NotPermitted = 33,
}

impl Refusal {
    // The refusal's number.
    pub fn number(&self) -> u8
        ensures { result ≡ refusal_number self.now }
    {
        *self as u8
    }
}

// How a board stands.
#[derive(Clone, Copy, PartialEq, Eq, Debug)]
pub enum Verdict {
    // place 0 is finished
    Finished = 0,
    // it is not, and no move is permitted
    Deadlock = 1,
    // it is not, and a move is permitted
    Moving = 2,
}

// Why a run over choices stopped, named in this order.
#[derive(Clone, Copy, PartialEq, Eq, Debug)]
pub enum Stop {
    // no move is permitted
    Rest = 0,
    // as many moves are granted as a board grants
    Limit = 1,
    // the choices are used up
    End = 2,
}
