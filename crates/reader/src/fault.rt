// Why a text is refused. Each cause has the number that the rules give it.
ghost use Rattle.std.specs.Prelude.{◌≡◌, Some};
ghost use Rattle.reader.specs.Faults.{number_of, stage_of, must, refusal_text, error_text, refused_for, no_memory};

use std::alloc::{AllocError, AllocFailed};
use std::{error, fmt};

#[derive(Clone, Copy, PartialEq, Eq, Debug)]
pub enum Cause {
    // the text has more than 16,384 bytes
    TextTooLong = 11,
    // no token begins here, or a name or a number is too long
    NoToken = 12,
    // a token that the grammar does not allow; the text's end counts as one
    NotAllowed = 13,
    // an allowed brace or parenthesis that is the 17th open
    TooDeep = 14,
    // a name that is not visible
    NotVisible = 15,
    // a name declared while it is visible
    Redeclared = 16,
    // a call with a wrong number of arguments
    ArgumentCount = 17,
    // a literal outside the number kind, or a port above 7
    OutOfRange = 18,
    // the first unfolded statement to pass a limit
    OverLimit = 19,
    // a variable written in two branches of a par
    WrittenTwice = 20,
    // a variable given twice by reference in one call
    ReferencedTwice = 21,
    // a port taken from in two branches of a par
    PortTwice = 22,
    // a throw outside every try of its name
    Uncaught = 23,
}

impl Cause {
    // The refusal for this cause at an offset.
    pub fn at(self, offset: usize) -> Fault
        ensures { result ≡ record { cause = self; offset = offset } }
    {
        Fault {
            cause: self,
            offset,
        }
    }
}

// A refusal of a text: its cause, and the offset of the token or statement at fault.
#[derive(Clone, Copy, PartialEq, Eq, Debug)]
pub struct Fault {
    pub cause: Cause,
    pub offset: usize,
}

impl Fault {
    // The refusal's number.
    pub fn number(&self) -> u8
        ensures { result ≡ number_of self.now.cause }
    {
        self.cause as u8
    }

    // The stage of clearing that refuses for this cause.
    pub fn stage(&self) -> u8
        ensures { result ≡ stage_of self.now.cause }
    {
        match self.cause {
            Cause::TextTooLong | Cause::NoToken => 1,
            Cause::NotAllowed | Cause::TooDeep => 2,
            Cause::NotVisible | Cause::Redeclared | Cause::ArgumentCount | Cause::OutOfRange => 3,
            Cause::OverLimit => 4,
            Cause::WrittenTwice | Cause::ReferencedTwice | Cause::PortTwice | Cause::Uncaught => 5,
        }
    }
}

// What must hold, and the refusal where it does not.
pub fn must(holds: bool, cause: Cause, offset: usize) -> Result<(), Fault>
    ensures { result ≡ must holds cause offset }
{
    if holds { Ok(()) } else { Err(cause.at(offset)) }
}

// Why clearing failed: the text is refused, or memory ran out.
#[derive(Clone, Copy, PartialEq, Eq, Debug)]
pub enum Error {
    Refused(Fault),
    OutOfMemory,
}

impl From<Fault> for Error {
    ghost from_gives = { λ f e. e ≡ refused_for f };

    fn from(fault: Fault) -> Error {
        Error::Refused(fault)
    }
}

impl From<AllocError> for Error {
    ghost from_gives = { λ f e. e ≡ no_memory };

    fn from(_error: AllocError) -> Error {
        Error::OutOfMemory
    }
}

impl<T: Drop> From<AllocFailed<T>> for Error {
    ghost from_gives = { λ f e. e ≡ no_memory };

    fn from(_refused: AllocFailed<T>) -> Error {
        Error::OutOfMemory
    }
}

impl fmt::Display for Fault {
    ghost output = { λ f. Some (refusal_text f) };

    fn fmt<W: fmt::Write>(&self, f: &mut fmt::Formatter<W>) -> fmt::Result {
        let number = self.number();
        let offset = self.offset;
        let stage = self.stage();
        write!(f, "refused={number} at={offset} stage={stage}")
    }
}

impl error::Error for Fault {}

impl fmt::Display for Error {
    ghost output = { λ e. Some (error_text e) };

    fn fmt<W: fmt::Write>(&self, f: &mut fmt::Formatter<W>) -> fmt::Result {
        match self {
            Error::Refused(fault) => write!(f, "{fault}"),
            Error::OutOfMemory => write!(f, "out of memory"),
        }
    }
}

impl error::Error for Error {}
