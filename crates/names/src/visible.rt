// The tables of visible names: those of variables and those of procedures, of which the last is the newest.
ghost use Rattle.std.specs.Prelude.{◌≡◌, ◌<◌, length, IfSome};
ghost use Rattle.reader.specs.Tokens.{among};
ghost use Rattle.grammar.specs.Views.{name};
ghost use Rattle.names.specs.Scopes.{scope, ended, place};

use grammar::tree::{Name, Proc};

// Whether a name is spelled like one of a table.
pub fn is_among(text: &[u8], names: &[Name], n: Name) -> bool
    ensures { result ≡ among (name text.now n).text (scope text.now names.now) }
{
    names.iter().any(|m| n.is_alike(text, *m))
}

// Where the visible procedure of a name stands in a table, if there is one.
pub fn find_proc(text: &[u8], procs: &[Proc], n: Name) -> Option<usize>
    ensures answer { result ≡ place (name text.now n).text (ended text.now procs.now) }
    ensures within { IfSome result (λ i. i < length procs.now) }
{
    procs.iter().rposition(|p| n.is_alike(text, p.name))
}
