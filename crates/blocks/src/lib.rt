// Blocks of columns: a triangle's box of cells is halved across two sides, by a loop over a list of pending blocks, down to blocks whose columns are
// looked at one by one.
#![tactic(auto)]

ghost use Rattle.std.specs.Prelude.{◌≡◌, false, ◌+◌, ◌/◌, ◌<◌, ◌≤◌, length};
ghost use Rattle.integers.specs.Within.{Within};
ghost use Rattle.geometry.specs.Bounds.{index_max};
ghost use Rattle.forms.specs.Form.{BoundedForm};
ghost use Rattle.columns.specs.Draw.{Draws, rectangle};
ghost use Rattle.columns.specs.Column.{cell_passes, ColumnsReady};
ghost use Rattle.blocks.specs.Block.{u_range, v_range, columns_of, is_small, BlockIn, BoxReady, Halved, far_end, far_value, kept_by};

mod shape;
mod waiting;

use columns::{Columns, Strides};
use forms::{EdgeForm, Forms};
use grid::{BoxRange, CellRange};
use shape::Block;
use waiting::Pending;

// Fills the columns of a box of cells, its axes turned so that the columns run along z.
pub fn fill_columns(map: &mut [u8], forms: &Forms, g: Strides, b: BoxRange)
    requires { BoxReady g (length map.old) b }
    ensures { Draws g (rectangle b.x b.y) (cell_passes forms.now b.z) map.old map.new }
{
    let all = Columns { forms, g, w: b.z };
    let whole = Block {
        u0: b.x.first as u8,
        u1: b.x.end as u8,
        v0: b.y.first as u8,
        v1: b.y.end as u8,
    };
    if whole.is_small() {
        all.scan(map, b.x, b.y, b.z.first);
        return;
    }
    halve(map, &all, whole);
}

// Fills the columns of a block: the last pending block is taken, and its columns are filled, or its halves that no edge rules out take its place. Twelve
// halvings lead to a single column, so that at most 13 blocks are pending.
fn halve(map: &mut [u8], all: &Columns, whole: Block)
    requires { ColumnsReady all.now (length map.old) all.now.w.first × BlockIn all.now.g.nu all.now.g.nv whole }
    ensures { Draws all.now.g (columns_of whole) (cell_passes all.now.forms.now all.now.w) map.old map.new }
{
    let mut pending = Pending::new(whole);
    let mut near = all.w.first;
    while let Some(b) = pending.pop() {
        if b.is_small() {
            near = all.scan(map, b.u_range(), b.v_range(), near);
        } else {
            let (low, high) = b.cut();
            pending.put_if(kept(all.forms, high), high);
            pending.put_if(kept(all.forms, low), low);
        }
    }
}

impl Block {
    // Its columns on u.
    fn u_range(self) -> CellRange
        ensures { result ≡ u_range self }
    {
        CellRange {
            first: usize::from(self.u0),
            end: usize::from(self.u1),
        }
    }

    // Its columns on v.
    fn v_range(self) -> CellRange
        ensures { result ≡ v_range self }
    {
        CellRange {
            first: usize::from(self.v0),
            end: usize::from(self.v1),
        }
    }

    // Has it at most 64 columns?
    fn is_small(self) -> bool
        ensures { result ≡ is_small self }
    {
        usize::from(self.u1 - self.u0) * usize::from(self.v1 - self.v0) <= 64
    }

    // The block cut in two across its longer side.
    fn cut(self) -> (Block, Block)
        requires { is_small self ≡ false }
        ensures { Halved self result.0 result.1 }
    {
        let Block { u0, u1, v0, v1 } = self;
        if v1 - v0 <= u1 - u0 {
            let m = middle(u0, u1);
            (Block { u0, u1: m, v0, v1 }, Block { u0: m, u1, v0, v1 })
        } else {
            let m = middle(v0, v1);
            (Block { u0, u1, v0, v1: m }, Block { u0, u1, v0: m, v1 })
        }
    }
}

// The first cell of the upper half of a range.
fn middle(first: u8, end: u8) -> u8
    ensures { result ≡ (first + end + 1) / 2 }
{
    ((usize::from(first) + usize::from(end) + 1) / 2) as u8
}

// Does no edge rule out the block?
#[tactic(auto, unfolding(crate::specs::Block::kept_by))]
fn kept(forms: &Forms, b: Block) -> bool
    ensures { result ≡ kept_by forms.now b }
{
    let edges = &forms.edges;
    0 <= far_value(&edges[0].uv, b)
        && 0 <= far_value(&edges[1].uv, b)
        && 0 <= far_value(&edges[2].uv, b)
}

// The greatest value of an edge's form in the block.
fn far_value(f: &EdgeForm, b: Block) -> i64
    requires { BoundedForm f.now }
    ensures { result ≡ far_value f.now b }
{
    f.at(far_end(f.a, b.u0, b.u1), far_end(f.b, b.v0, b.v1))
}

// The end of a range at which a × i is greatest.
fn far_end(a: i64, first: u8, end: u8) -> i64
    requires { (first < end) × (end ≤ 64) }
    ensures { (result ≡ far_end a first end) × Within index_max result }
{
    if a < 0 {
        i64::from(first)
    } else {
        i64::from(end) - 1
    }
}
