// Marks: none, 0, or the number of a try.
ghost use Rattle.std.specs.Prelude.{◌≡◌};
ghost use Rattle.rules.specs.States.{lesser};
ghost use Rattle.board.specs.Views.{marked};

// The lesser of a mark and `k`; none is greatest.
pub fn lesser(mark: Option<u16>, k: u16) -> Option<u16>
    ensures { marked result ≡ lesser (marked mark) k }
{
    Some(mark.map_or(k, |j| j.min(k)))
}
