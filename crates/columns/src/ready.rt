// What the columns of a triangle are filled by.
ghost use Rattle.std.specs.Prelude.{◌≤◌};
ghost use Rattle.columns.specs.Draw.{Numbers};

use crate::Strides;
use forms::Forms;
use grid::CellRange;

// A triangle's forms, the numbering of a grid's cells, and the range that the cells of a column are taken from.
#[derive(Clone, Copy)]
pub struct Columns<'a> {
    pub forms: &'a Forms,
    pub g: Strides,
    pub w: CellRange,
    pub ghost numbers: { Numbers g },
    pub ghost ordered: { w.first ≤ w.end },
    pub ghost end: { w.end ≤ g.nw },
}
