// The listing of a file's map as text: the first line, then the lines of the filled cells, piece by piece, into bytes
// that the caller lends.
#![tactic(auto)]

ghost use Rattle.std.specs.Prelude.{true, ◌≡◌, ◌+◌, ◌-◌, ◌<◌, ◌≤◌, length};
ghost use Rattle.refusal.specs.Limit.{refusal_of};
ghost use Rattle.grid.specs.Grid.{cell_count};
ghost use Rattle.map.specs.Map.{is_filled};
ghost use Rattle.text.specs.Text.{spliced};
ghost use Rattle.text.specs.Lines.{line_most};
ghost use Rattle.listing.specs.Listing.{line_of, said_begun, begun, begun_map, begun_bytes, refusal_text, side_fits, usable, said_piece, piece, piece_bytes};
ghost use Rattle.listing.specs.declared.BeginError.TheVariants.{Refused};
ghost use Rattle.listing.specs.Inner.{stop_at, Advances};

use frame::Frame;
use grid::Grid;
use refusal::{Limit, Refusal};

// What is left to list: the grid, and the cell to go on from. Its fields are private: a program hands it on as it is.
#[derive(Clone, Copy)]
pub struct Rest {
    grid: Grid,
    from: usize,
}

// How a listing begins: so many bytes of the first line were put, and this is left to list.
#[derive(Clone, Copy)]
pub struct Begun {
    pub len: usize,
    pub rest: Rest,
}

// Why a listing does not begin. Nothing was changed.
#[derive(Clone, Copy)]
pub enum BeginError {
    // The output has fewer than 64 bytes.
    ShortBuffer,
    // The first limit broken.
    Refused(Limit),
}

impl From<Limit> for BeginError {
    ghost from_gives = { λ limit error. error ≡ Refused limit };

    // A broken limit refuses the listing.
    fn from(limit: Limit) -> BeginError
        ensures { result ≡ Refused limit }
    {
        BeginError::Refused(limit)
    }
}

// So many bytes of cells' lines were put, and this is left, if any cell is.
#[derive(Clone, Copy)]
pub struct Piece {
    pub len: usize,
    pub rest: Option<Rest>,
}

// A cell, and a place in the output.
#[derive(Clone, Copy)]
struct Place {
    cell: usize,
    at: usize,
}

// Puts questions 1 to 8, and asks for 64 bytes of output, which every first line fits. Only behind all of them is anything changed: the map is filled
// from the file, and the first line put at the start of the output.
pub fn begin(file: &[u8], map: &mut [u8], out: &mut [u8]) -> Result<Begun, BeginError>
    ensures { (said_begun result ≡ begun file.now map.old out.old) × (map.new ≡ begun_map file.now map.old out.old) × (out.new ≡ begun_bytes file.now map.old out.old) }
{
    let frame = Frame::check(file)?;
    let g = frame.header().grid;
    let all = grid::cell_count(g);
    if map.len() < map::map_length(all) {
        return Err(BeginError::Refused(Limit::ShortMap));
    }
    if out.len() < 64 {
        return Err(BeginError::ShortBuffer);
    }
    let count = fill::fill_checked(&frame, map)?;
    let len = text::put_filled(out, count, all);
    Ok(Begun {
        len,
        rest: Rest { grid: g, from: 0 },
    })
}

// Puts the lines of the filled cells from cell `rest.from` on, as long as the output has room for a longest line. Such a
// line, "63 63 63" and its line feed, has 9 bytes. There is no piece, and nothing was changed, where a side of the grid has no cell or more than 64, or
// the map is shorter than its cells need.
pub fn more(map: &[u8], rest: Rest, out: &mut [u8]) -> Option<Piece>
    ensures { (said_piece result ≡ piece map.now rest out.old) × (out.new ≡ piece_bytes map.now rest out.old) }
{
    let grid = rest.grid;
    if !is_usable(map, grid) {
        return None;
    }
    let end = put_cells(map, grid, rest.from, out);
    let mut left = None;
    if end.cell < grid::cell_count(grid) {
        left = Some(Rest {
            grid,
            from: end.cell,
        });
    }
    Some(Piece {
        len: end.at,
        rest: left,
    })
}

// Has each side 1 to 64 cells, and is the map long enough?
#[tactic(auto, unfolding(crate::specs::Listing::usable))]
fn is_usable(map: &[u8], g: Grid) -> bool
    ensures { result ≡ usable (length map.now) g }
{
    side_fits(g.nx)
        && side_fits(g.ny)
        && side_fits(g.nz)
        && map::map_length(grid::cell_count(g)) <= map.len()
}

// Is a side of 1 to 64 cells?
fn side_fits(n: usize) -> bool
    ensures { result ≡ side_fits n }
{
    1 <= n && n <= 64
}

// Puts the lines from cell `from` on, and answers where they end. A `while`, since a step passes over all cells up to the next filled one: no range counts
// them.
fn put_cells(map: &[u8], g: Grid, from: usize, out: &mut [u8]) -> Place
    requires { usable (length map.now) g ≡ true }
    ensures { Advances (line_of (is_filled map.now) g) (cell_count g) from 0 out.old result.cell result.at out.new × (result.cell ≡ stop_at (line_of (is_filled map.now) g) (length out.old) from (cell_count g - from)) }
{
    let all = grid::cell_count(g);
    let mut cell = from;
    let mut at: usize = 0;
    while cell < all {
        if out.len() - at < 9 {
            break;
        }
        let next = put_next(map, g, cell, out, at);
        cell = next.cell;
        at = next.at;
    }
    Place { cell, at }
}

// Passes over cells that are not filled, and puts the line of the next filled one, if there is one.
fn put_next(map: &[u8], g: Grid, cell: usize, out: &mut [u8], at: usize) -> Place
    requires { (usable (length map.now) g ≡ true) × (cell < cell_count g) × (at + line_most ≤ length out.old) }
    ensures { Advances (line_of (is_filled map.now) g) (cell_count g) cell at out.old result.cell result.at out.new × (cell < result.cell) }
{
    let all = grid::cell_count(g);
    let n = map::next_filled(map, cell, all);
    if all <= n {
        return Place { cell: n, at };
    }
    let row = n / g.nx;
    let behind = text::put_place(out, at, n % g.nx, row % g.ny, row / g.ny);
    Place {
        cell: n + 1,
        at: behind,
    }
}

// Puts "REFUSED number place" at the start of the output, and answers its length. Where the output has fewer than 64
// bytes it puts nothing, and answers 0, which is what it put.
pub fn put_refusal(limit: Limit, out: &mut [u8]) -> usize
    ensures { (result ≡ length (refusal_text (refusal_of limit) out.old)) × (out.new ≡ spliced out.old 0 (refusal_text (refusal_of limit) out.old)) }
{
    if out.len() < 64 {
        return 0;
    }
    let refusal = Refusal::from(limit);
    text::put_refused(out, refusal.number as usize, refusal.place)
}
