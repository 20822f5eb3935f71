// Makes a frame file from a scanner's file: the triangles of its faces, in whole millimetres, as the writer would write them.
#![tactic(auto)]

ghost use Rattle.std.specs.Prelude.{true, ◌++◌, ◌≡◌, length, take, drop};
ghost use Rattle.refusal.specs.Limit.{said};
ghost use Rattle.refusal.specs.Inner.{asked};
ghost use Rattle.layout.specs.Layout.{version1, record_start};
ghost use Rattle.layout_write.specs.Writing.{header_bytes};
ghost use Rattle.frame_write.specs.Write.{header_to_write, concat_below};
ghost use Rattle.ply.specs.Body.{triangle_at};
ghost use Rattle.scan.specs.Scan.{grid_fits, scanning, scan_bytes};
ghost use Rattle.scan.specs.Inner.{scan_questions, face_bytes, numbers_of, corner_numbers, Accepted, Faced};

use frame_write::GridValues;
use ply::{Corner, Ply};
use refusal::Limit;

// Writes the frame file of a grid and of a scanner's file to the start of `out`, and answers its length, or the first limit broken. No
// vertex is copied: each face's are read where they stand.
pub fn scan(ply: &[u8], grid: GridValues, out: &mut [u8]) -> Result<usize, Limit>
    ensures { (said result ≡ scanning grid ply.now (length out.old)) × (out.new ≡ scan_bytes grid ply.now out.old) }
{
    if !grid_fits(grid) {
        return Err(Limit::Unwritable);
    }
    let Some(taken) = Ply::read(ply) else {
        return Err(Limit::PlyForm);
    };
    check(&taken, out.len())?;
    Ok(put_file(&taken, grid, out))
}

// May the grid's values be written? The writer asks it of the header; the count that stands in for that of the faces fits its field.
fn grid_fits(grid: GridValues) -> bool
    ensures { result ≡ grid_fits grid }
{
    writable::header_fits(
        layout_write::version_1(),
        &frame_write::header_numbers(grid, 0),
    )
}

// Puts the questions to a file whose header has the form: of its vertices, of its faces, then of the room.
fn check(ply: &Ply, room: usize) -> Result<(), Limit>
    ensures { said result ≡ asked (scan_questions ply.now.file.now ply.now.form room) }
{
    ply.check_vertices()?;
    ply.check_faces()?;
    if room < layout::record_start(layout::version_1(), ply.form().faces) {
        return Err(Limit::ShortOutput);
    }
    Ok(())
}

// Writes the frame file of a scanner's file that passed all questions, and answers its length.
fn put_file(ply: &Ply, grid: GridValues, out: &mut [u8]) -> usize
    requires { (grid_fits grid ≡ true) × Accepted ply.now.file.now ply.now.form (length out.old) }
    ensures { (result ≡ record_start version1 ply.now.form.faces) × (out.new ≡ (header_bytes version1 (header_to_write grid ply.now.form.faces) ++ concat_below (face_bytes ply.now.file.now ply.now.form) ply.now.form.faces) ++ drop (record_start version1 ply.now.form.faces) out.old) }
{
    let faces = ply.form().faces;
    frame_write::put_head(grid, faces, out);
    put_faces(ply, out);
    layout::record_start(layout::version_1(), faces)
}

// Writes a record for each face, behind the header's place.
fn put_faces(ply: &Ply, out: &mut [u8])
    requires { Accepted ply.now.file.now ply.now.form (length out.old) }
    ensures { out.new ≡ take 12 out.old ++ (concat_below (face_bytes ply.now.file.now ply.now.form) ply.now.form.faces ++ drop (record_start version1 ply.now.form.faces) out.old) }
{
    let mut at = ply.faces_start();
    for i in 0..ply.form().faces {
        frame_write::put_at(out, i, &triangle(ply, at));
        at += 13;
    }
}

// The ten numbers of the triangle of the face at `at`: a list, as the writer takes a record.
fn triangle(ply: &Ply, at: usize) -> [i32; 10]
    requires { Faced ply.now.file.now ply.now.form at }
    ensures { result ≡ triangle_at ply.now.file.now ply.now.form at }
{
    let mut numbers = [0i32; 10];
    put_corners(ply, at, &mut numbers);
    numbers
}

// Puts the three corners of the face at `at` behind the kind. They are read in a loop, so that the compiler has one place to
// put the reading of a vertex.
fn put_corners(ply: &Ply, at: usize, numbers: &mut [i32])
    requires { Faced ply.now.file.now ply.now.form at × (length numbers.old ≡ 10) }
    ensures { numbers.new ≡ take 1 numbers.old ++ (concat_below (corner_numbers ply.now.file.now ply.now.form at) 3 ++ drop 10 numbers.old) }
{
    for j in 0..3 {
        let corner = ply.corner_at(at + 1 + 4 * j);
        let first = 1 + 3 * j;
        put_corner(&mut numbers[first..first + 3], corner);
    }
}

// Puts the three numbers of a corner. By `copy_from_slice` the ten numbers go through memory: a scan of 4,095 faces and 3,000 vertices took
// 1,456 thousand instructions, and 1,297 by three stores.
fn put_corner(part: &mut [i32], c: Corner)
    requires { length part.old ≡ 3 }
    ensures { part.new ≡ numbers_of c }
{
    part[0] = c.x;
    part[1] = c.y;
    part[2] = c.z;
}
