// Cells, in the order of the statements that bring them.
ghost use Rattle.std.specs.Prelude.{◌≡◌, true, ◌++◌, OnOk};
ghost use Rattle.program.specs.Layout.{cells_of};
ghost use Rattle.unfold.specs.Views.{news as fresh};
ghost use Rattle.layout.specs.Fits.{news_fit};
ghost use Rattle.layout.specs.Rows.{cell_rows};

use std::alloc::AllocError;
use tables::rows::Cell;
use unfold::nodes::New;

// The cells that a statement of the place p brings.
pub fn push_news(text: &[u8], out: &mut Vec<Cell>, p: u16, news: &[New]) -> Result<(), AllocError>
    requires { news_fit (fresh text.now news.now) ≡ true }
    ensures { OnOk result (cell_rows out.new.items ≡ cell_rows out.old.items ++ cells_of p (fresh text.now news.now)) }
{
    // A loop, since the bound of a closure's cast would have to be shown for each turn of the chain.
    for n in news {
        let len = n.name.bytes(text).len();
        out.push(Cell {
            home: n.home as u16,
            declarer: p,
            at: n.name.at,
            len,
        })?;
    }
    Ok(())
}
