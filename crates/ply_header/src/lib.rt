// The header of a PLY file, read line by line in one pass.
#![tactic(auto)]

ghost use Rattle.std.specs.Prelude.{true, false, [], ◌∷◌, ◌≡◌, ◌≤◌, length, drop};
ghost use Rattle.ply_header.specs.Text.{behind, past, past_comments, line, count_from, count, counted};
ghost use Rattle.ply_header.specs.Header.{scalar, axis, header};
ghost use Rattle.ply_header.specs.Inner.{roomy, comment_word, limited};

// The scalar types of PLY that a coordinate may have.
#[derive(Clone, Copy, Debug, PartialEq, Eq)]
pub enum Scalar {
    Float,
    Double,
    Int,
}

// What a header says.
#[derive(Clone, Copy, Debug, PartialEq, Eq)]
pub struct Form {
    pub x: Scalar,
    pub y: Scalar,
    pub z: Scalar,
    pub vertices: usize,
    pub faces: usize,
    // Where the vertices begin.
    pub body: usize,
}

// What a file's header says, where it has the one form that is taken. A count above the file's length, which no body matches,
// makes it another form.
pub fn read_header(s: &[u8]) -> Option<Form>
    ensures { result ≡ roomy (length s.now) (header s.now) }
{
    let at = read_word(s, 0, b"ply\n")?;
    let at = read_line(s, at, b"format binary_little_endian 1.0\n")?;
    let (vertices, at) = read_counted(s, at, b"element vertex ")?;
    let (x, at) = read_axis(s, at, b'x')?;
    let (y, at) = read_axis(s, at, b'y')?;
    let (z, at) = read_axis(s, at, b'z')?;
    let (faces, at) = read_counted(s, at, b"element face ")?;
    let at = read_line(s, at, b"property list uchar int vertex_indices\n")?;
    let body = read_line(s, at, b"end_header\n")?;
    Some(Form {
        x,
        y,
        z,
        vertices,
        faces,
        body,
    })
}

// The next line that is no comment, as a property of a name: its type, and the place behind it.
fn read_axis(s: &[u8], at: usize, name: u8) -> Option<(Scalar, usize)>
    ensures { result ≡ axis s.now at (name ∷ 10 ∷ []) }
{
    let at = read_line(s, at, b"property ")?;
    let (scalar, at) = read_scalar(s, at)?;
    let at = read_word(s, at, &[name, b'\n'])?;
    Some((scalar, at))
}

// A scalar type and the space behind it, and the place behind both.
fn read_scalar(s: &[u8], at: usize) -> Option<(Scalar, usize)>
    ensures { result ≡ scalar s.now at }
{
    if let Some(i) = read_word(s, at, b"float ") {
        return Some((Scalar::Float, i));
    }
    if let Some(i) = read_word(s, at, b"double ") {
        return Some((Scalar::Double, i));
    }
    if let Some(i) = read_word(s, at, b"int ") {
        return Some((Scalar::Int, i));
    }
    None
}

// The next line that is no comment, as a text and a count: the count, and the place behind it.
fn read_counted(s: &[u8], at: usize, text: &[u8]) -> Option<(usize, usize)>
    ensures { result ≡ limited (length s.now) (counted s.now at text.now) }
{
    let at = read_line(s, at, text)?;
    read_count(s, at)
}

// One digit or more, and a line feed: the number, and the place behind.
fn read_count(s: &[u8], at: usize) -> Option<(usize, usize)>
    ensures { result ≡ limited (length s.now) (count s.now at) }
{
    if s.get(at)?.is_ascii_digit() {
        read_digits(s, at)
    } else {
        None
    }
}

// Digits, and a line feed: the number, and the place behind.
fn read_digits(s: &[u8], at: usize) -> Option<(usize, usize)>
    ensures { result ≡ limited (length s.now) (count_from 0 at (drop at s.now)) }
{
    let mut v: usize = 0;
    for i in at..s.len() {
        let c = s[i];
        if c == b'\n' {
            return Some((v, i + 1));
        }
        if !c.is_ascii_digit() {
            return None;
        }
        if s.len() / 10 < v {
            return None;
        }
        v = v * 10 + usize::from(c - b'0');
        if s.len() < v {
            return None;
        }
    }
    None
}

// The place behind a text, where the next line that is no comment begins with it.
fn read_line(s: &[u8], at: usize, text: &[u8]) -> Option<usize>
    ensures { result ≡ line s.now at text.now }
{
    read_word(s, skip_comments(s, at), text)
}

// The place behind the comment lines that begin at a place. No `for`: where the next comment would begin is known when the last has ended.
fn skip_comments(s: &[u8], at: usize) -> usize
    ensures { result ≡ past_comments s.now at }
{
    let mut i = at;
    while let Some(j) = comment_word(s, i) {
        i = line_end(s, j);
    }
    i
}

// The place behind a comment's line feed, or else the file's end: there the next comment may begin.
fn line_end(s: &[u8], at: usize) -> usize
    requires { at ≤ length s.now }
    ensures bound { at ≤ result }
    ensures same { past s.now true at (drop at s.now) ≡ past s.now false result (drop result s.now) }
{
    for i in at..s.len() {
        if s[i] == b'\n' {
            return i + 1;
        }
    }
    s.len()
}

// The place behind the word `comment`, where a comment line begins at a place.
fn comment_word(s: &[u8], at: usize) -> Option<usize>
    ensures { result ≡ comment_word s.now at }
{
    let i = read_word(s, at, b"comment")?;
    let c = *s.get(i)?;
    let ends = c == b'\n' || c == b' ';
    ends.then_some(i)
}

// The place behind a text, where it stands at a place.
fn read_word(s: &[u8], at: usize, text: &[u8]) -> Option<usize>
    ensures { result ≡ behind s.now at text.now }
{
    let mut i = at;
    for c in text {
        if s.get(i)? != c {
            return None;
        }
        i += 1;
    }
    Some(i)
}
