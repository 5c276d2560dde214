// What stands before the blocks of a statement.
ghost use Rattle.std.specs.Prelude.{◌≡◌};
ghost use Rattle.grammar.specs.Views.{name, head};
ghost use Rattle.numbers.specs.Literals.{literal_reading};
ghost use Rattle.unfold.specs.Unfolding.{port_of, head_part};
ghost use Rattle.unfold.specs.Views.{part, variables, Gives};

use crate::nodes::Part;
use crate::scopes::Scope;
use grammar::tree::{Head, Name};
use numbers::kind::NumberKind;
use numbers::literal::literal_value;
use reader::fault::{Cause, Error};

// The port that digits name, if there is one. The stage of names has a test of its own: it needs no port.
fn port_number(text: &[u8], n: Name) -> Option<usize>
    ensures { result ≡ port_of (name text.now n).text }
{
    literal_value(n.bytes(text))
        .filter(|p| *p <= 7)
        .map(|p| p as usize)
}

impl<'a> Scope<'a> {
    pub fn resolve_head<K: NumberKind>(&self, kind: &K, h: &Head) -> Result<Part, Error>
        ensures { Gives (part self.now.text.now) result (head_part (literal_reading K.NumberKind.meaning) (variables self.now) (head self.now.text.now h.now)) }
    {
        match h {
            Head::Plain => Ok(Part::Plain),
            Head::If(e) => Ok(Part::Tests(self.resolve(kind, e)?)),
            Head::While(e) => Ok(Part::Loops(self.resolve(kind, e)?)),
            Head::Try(n) => Ok(Part::Tries(*n)),
            Head::Take(i, n) => {
                let port = port_number(self.text, *i).ok_or(Cause::OutOfRange.at(i.at))?;
                let b = self.resolve_name(*n)?;
                Ok(Part::Takes(port, b.own))
            }
        }
    }
}
