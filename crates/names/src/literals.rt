// Literals and ports.
ghost use Rattle.std.specs.Prelude.{◌≡◌, is_some};
ghost use Rattle.reader.specs.Faults.{must};
ghost use Rattle.reader.specs.declared.fault.Cause.TheVariants.{OutOfRange};
ghost use Rattle.grammar.specs.Views.{name};
ghost use Rattle.numbers.specs.Literals.{literal_reading};
ghost use Rattle.names.specs.Naming.{is_port};

use crate::checker::Checker;
use grammar::tree::Name;
use numbers::kind::NumberKind;
use numbers::literal::{literal_value, read_literal};
use reader::fault::{Cause, Fault, must};

impl<K: NumberKind> Checker<'_, K> {
    // A literal has to have a reading.
    pub fn check_literal(&self, n: Name) -> Result<(), Fault>
        ensures { result ≡ must (is_some (literal_reading K.NumberKind.meaning (name self.now.text.now n).text)) OutOfRange n.at }
    {
        let is_read = read_literal(self.kind, n.bytes(self.text)).is_some();
        must(is_read, Cause::OutOfRange, n.at)
    }

    // Ports are numbered 0 to 7.
    pub fn check_port(&self, n: Name) -> Result<(), Fault>
        ensures { result ≡ must (is_port (name self.now.text.now n).text) OutOfRange n.at }
    {
        let is_port = literal_value(n.bytes(self.text)).is_some_and(|p| p <= 7);
        must(is_port, Cause::OutOfRange, n.at)
    }
}
