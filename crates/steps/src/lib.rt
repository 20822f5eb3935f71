// The fill in steps, for a caller that has other work between them: begin, some records at a time, end.
#![tactic(auto)]

ghost use Rattle.std.specs.Prelude.{◌≡◌, IfOk};
ghost use Rattle.refusal.specs.Limit.{said};
ghost use Rattle.refusal.specs.Questions.{answered};
ghost use Rattle.frame.specs.File.{header_of};
ghost use Rattle.frame.specs.Frame.{said_check};
ghost use Rattle.fill.specs.Fill.{fill_questions};
ghost use Rattle.steps.specs.Steps.{beginning, begun_bytes, joining, joined_bytes, ending};

use frame::Frame;
use refusal::Limit;

// Puts questions 1 to 8, and empties the map of the file's grid. Answers the number of records.
pub fn begin(file: &[u8], map: &mut [u8]) -> Result<usize, Limit>
    ensures { (said result ≡ beginning file.now map.old) × (map.new ≡ begun_bytes file.now map.old) }
{
    let header = admit(file, map.len())?.header();
    map::clear(map, map::map_length(grid::cell_count(header.grid)));
    Ok(header.count)
}

// Puts questions 1 to 8, and adds the cells of `count` records from number `first` on, of those that the file has. Answers
// how many it has.
pub fn some(file: &[u8], map: &mut [u8], first: usize, count: usize) -> Result<usize, Limit>
    ensures { (said result ≡ joining file.now map.old first count) × (map.new ≡ joined_bytes file.now map.old first count) }
{
    let frame = admit(file, map.len())?;
    let n = count.min(frame.header().count.saturating_sub(first));
    fill::fill_records(&frame, first, n, map);
    Ok(n)
}

// Puts questions 1 to 8, and answers the number of filled cells of the file's grid.
pub fn end(file: &[u8], map: &[u8]) -> Result<usize, Limit>
    ensures { said result ≡ ending file.now map.now }
{
    let header = admit(file, map.len())?.header();
    Ok(map::count(map, grid::cell_count(header.grid)))
}

// Questions 1 to 8, of a file and a buffer with room for so many bytes.
fn admit(file: &[u8], room: usize) -> Result<Frame<'_>, Limit>
    ensures said { said_check result ≡ answered (fill_questions file.now room) (header_of file.now) }
    ensures same { IfOk result (λ frame. frame.file.now ≡ file.now) }
{
    let frame = Frame::check(file)?;
    if room < map::map_length(grid::cell_count(frame.header().grid)) {
        return Err(Limit::ShortMap);
    }
    Ok(frame)
}
