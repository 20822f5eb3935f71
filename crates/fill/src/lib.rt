// The fill: a frame file's triangles into the map of its grid.
#![tactic(auto)]

ghost use Rattle.std.specs.Prelude.{◌≡◌, ◌≤◌, ◌-◌, length};
ghost use Rattle.refusal.specs.Limit.{gives, said};
ghost use Rattle.grid.specs.Grid.{cell_count};
ghost use Rattle.map.specs.Map.{map_length};
ghost use Rattle.frame.specs.Questions.{checked};
ghost use Rattle.fill.specs.Fill.{filling, filled_bytes};
ghost use Rattle.fill.specs.Inner.{AddsRecords};

use frame::Frame;
use layout::Header;
use refusal::Limit;

// Puts questions 1 to 8, then replaces the map by the map of the file, and gives the number of its filled cells.
pub fn fill(file: &[u8], map: &mut [u8]) -> Result<usize, Limit>
    ensures { (said result ≡ filling file.now map.old) × (map.new ≡ filled_bytes file.now map.old) }
{
    let frame = Frame::check(file)?;
    fill_checked(&frame, map)
}

// The same of a file that has been checked: question 8, then the fill itself.
pub fn fill_checked(frame: &Frame, map: &mut [u8]) -> Result<usize, Limit>
    ensures { (said result ≡ filling frame.now.file.now map.old) × (map.new ≡ filled_bytes frame.now.file.now map.old) }
{
    let header = frame.header();
    let n = grid::cell_count(header.grid);
    let len = map::map_length(n);
    if map.len() < len {
        return Err(Limit::ShortMap);
    }
    map::clear(map, len);
    add_records(frame.file(), header, 0, header.count, map);
    Ok(map::count(map, n))
}

// Fills the cells of each triangle in turn, of `count` records from number `first` on. The boxes of the cells are the cells.
pub fn fill_records(frame: &Frame, first: usize, count: usize, map: &mut [u8])
    requires { (count ≤ frame.now.header.count - first) × (map_length (cell_count frame.now.header.grid) ≤ length map.old) }
    ensures { AddsRecords frame.now.file.now first count map.old map.new }
{
    add_records(frame.file(), frame.header(), first, count, map);
}

// The same of a file and its header. They come apart, and a whole fill calls it itself: a frame that is lent to a function that is not drawn in has to
// be copied whole, for which the controller's library would want a function more from outside.
fn add_records(file: &[u8], header: Header, first: usize, count: usize, map: &mut [u8])
    requires { (checked file.now ≡ gives header) × (count ≤ header.count - first) × (map_length (cell_count header.grid) ≤ length map.old) }
    ensures { AddsRecords file.now first count map.old map.new }
{
    let g = header.grid;
    let l = grid::lattice_of(g);
    for i in 0..count {
        let record = frame::record(file, first + i);
        triangles::fill_triangle(map, g, l, record.triangle);
    }
}
