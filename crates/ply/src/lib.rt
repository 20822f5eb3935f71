// A scanner's file in the PLY format: its length, its vertices and its faces, and the corners of a face.
#![tactic(auto)]

ghost use Rattle.std.specs.Prelude.{◌≡◌, ◌+◌, ◌<◌, ◌≤◌, Some, eqb, length, IfSome};
ghost use Rattle.std.specs.Coded.{Coded-set, coded_option};
ghost use Rattle.refusal.specs.Limit.{said};
ghost use Rattle.refusal.specs.Inner.{asked};
ghost use Rattle.refusal.specs.Questions.{of_each};
ghost use Rattle.ply.specs.Body.{behind_face, face_from, face_place, body_fits, taken, vertex_question, index_at, is_index, good_face, face_question, corner_at};
ghost use Rattle.ply.specs.Inner.{Cornered};

use ply_header::Form;
use refusal::Limit;

// A file of the form that is taken, with at most 4,095 faces and a body of the right length, and what its header says.
#[derive(Clone, Copy)]
pub struct Ply<'a> {
    file: &'a [u8],
    form: Form,
    pub ghost whole: { taken file.now ≡ Some form } by { Coded-set (coded_option form-code) _ _ },
}

impl<'a> Ply<'a> {
    ghost use Rattle.ply.specs.Ply.{said_form};

    // The file, where header, number of faces and length are as they should be.
    pub fn read(file: &'a [u8]) -> Option<Ply<'a>>
        ensures said { said_form result ≡ taken file.now }
        ensures same { IfSome result (λ ply. ply.file.now ≡ file.now) }
    {
        let form = ply_header::read_header(file)?;
        if 4095 < form.faces {
            return None;
        }
        if !body_fits(file, form) {
            return None;
        }
        Some(Ply { file, form })
    }

    // What the header says.
    pub fn form(&self) -> Form
        ensures { result ≡ self.now.form }
    {
        self.form
    }

    // Puts the question of limit 14 to each vertex.
    pub fn check_vertices(&self) -> Result<(), Limit>
        ensures { said result ≡ asked (of_each (vertex_question self.now.file.now self.now.form) self.now.form.vertices) }
    {
        let form = self.form;
        let bytes = ply_vertex::size(form);
        let mut at = form.body;
        for k in 0..form.vertices {
            if !ply_vertex::is_placed(self.file, form, at) {
                return Err(Limit::PlyVertex(k));
            }
            at += bytes;
        }
        Ok(())
    }

    // Where the faces begin.
    pub fn faces_start(&self) -> usize
        ensures { result ≡ face_place self.now.file.now self.now.form 0 }
    {
        let form = self.form;
        form.body + form.vertices * ply_vertex::size(form)
    }

    // Puts the question of limit 15 to each face.
    pub fn check_faces(&self) -> Result<(), Limit>
        ensures { said result ≡ asked (of_each (face_question self.now.file.now self.now.form) self.now.form.faces) }
    {
        let mut at = self.faces_start();
        for k in 0..self.form.faces {
            if !is_good(self.file, self.form.vertices, at) {
                return Err(Limit::PlyFace(k));
            }
            at += 13;
        }
        Ok(())
    }

    // The corner whose index stands at `at`, of a file whose vertices passed.
    pub fn corner_at(&self, at: usize) -> Corner
        requires { Cornered self.now.file.now self.now.form at }
        ensures { result ≡ corner_at self.now.file.now self.now.form at }
    {
        corner_at(self.file, self.form, at)
    }
}

// A corner of a triangle, in whole millimetres.
#[derive(Clone, Copy, Debug, PartialEq, Eq)]
pub struct Corner {
    pub x: i32,
    pub y: i32,
    pub z: i32,
}

// The same of any bytes and form, where the index and the vertices are.
pub fn corner_at(file: &[u8], form: Form, at: usize) -> Corner
    requires { Cornered file.now form at }
    ensures { result ≡ corner_at file.now form at }
{
    let index = ply_vertex::word(file, at) as usize;
    let bytes = ply_vertex::size(form);
    let v = ply_vertex::vertex(file, form, form.body + index * bytes);
    Corner {
        x: rounding::whole(v.x),
        y: rounding::whole(v.y),
        z: rounding::whole(v.z),
    }
}

// Do so many faces from `at` on end exactly at the file's end?
fn faces_fit(s: &[u8], at: usize, faces: usize) -> bool
    ensures { result ≡ eqb (face_from s.now at faces) (length s.now) }
{
    let mut p = at;
    for _ in 0..faces {
        if s.len() <= p {
            return false;
        }
        p += 1 + 4 * usize::from(s[p]);
    }
    p == s.len()
}

// Do the vertices and the faces end exactly at the file's end?
fn body_fits(s: &[u8], f: Form) -> bool
    ensures { result ≡ body_fits s.now f }
{
    let bytes = ply_vertex::size(f);
    if s.len() < f.body {
        return false;
    }
    if (s.len() - f.body) / bytes < f.vertices {
        return false;
    }
    faces_fit(s, f.body + f.vertices * bytes, f.faces)
}

// Is the index at `at` that of one of n vertices? From 2^31 on it is negative.
fn is_index(s: &[u8], n: usize, at: usize) -> bool
    requires { at + 4 ≤ length s.now }
    ensures { result ≡ is_index n (index_at s.now at) }
{
    let index = ply_vertex::word(s, at);
    if index < 0x8000_0000 {
        return (index as usize) < n;
    }
    false
}

// Has the face at `at` three corners, each one of n vertices?
fn is_good(s: &[u8], n: usize, at: usize) -> bool
    requires { (at < length s.now) × (behind_face s.now at ≤ length s.now) }
    ensures { result ≡ good_face s.now n at }
{
    if s[at] != 3 {
        return false;
    }
    is_index(s, n, at + 1) && is_index(s, n, at + 5) && is_index(s, n, at + 9)
}
