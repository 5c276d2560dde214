// What the places got at their starts.
ghost use Rattle.std.specs.Prelude.{◌≡◌, ℕ, true, List, ◌++◌, OnOk};
ghost use Rattle.unfold.specs.Views.{gots as variables};
ghost use Rattle.layout.specs.Fits.{gots_fit};
ghost use Rattle.layout.specs.Given.{ReadOff, given};

use std::alloc::AllocError;
use tables::rows::Got;
use unfold::nodes;

// What the place q got.
pub fn push_got(out: &mut Vec<Got>, q: u16, gots: &[nodes::Got]) -> Result<(), AllocError>
    requires { (text : List ℕ) × (gots_fit (variables text gots.now) ≡ true) }
    ensures { (text : List ℕ) → OnOk result (out.new.items ≡ out.old.items ++ given q (variables text gots.now)) }
{
    // A loop, since the bound of a closure's cast would have to be shown for each turn of the chain.
    for g in gots {
        out.push(Got {
            place: q,
            home: g.home as u16,
        })?;
    }
    Ok(())
}

// What the definition's places got is what the walk reads off the unfolded text.
pub fn got_is_read_off()
    ensures { ReadOff }
{}
