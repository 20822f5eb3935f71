// Bit fields in a slice of bytes, the most significant bit first: a cursor that reads them and a pen that writes them.
//
// A field that is read may run over the end of the slice: the bits there are 0.
#![tactic(auto)]

ghost use Rattle.std.specs.Prelude.{List, ℕ, ◌≡◌, ◌+◌, ◌-◌, ◌*◌, ◌/◌, ◌%◌, ◌<◌, ◌≤◌, ◌^◌, get_or, length};
ghost use Rattle.integers.specs.Within.{Within};
ghost use Rattle.bits.specs.Field.{field_at, signed_at, twos_complement, complement_of};

// Bytes whose bits a cursor reads.
pub trait Source: Copy {
    // The bytes, and at how many places a word of four of them can be had.
    ghost bytes: { Self → List ℕ };

    ghost words: { Self → ℕ };

    // The four bytes from byte i on, as one number.
    fn word(self, i: usize) -> u32
        requires { i < words self }
        ensures { result ≡ field_at (bytes self) (i * 8) 32 };
}

// Bytes that a word may run over the end of: those past it are 0.
impl Source for &[u8] {
    ghost bytes = { λ s. s.now };

    ghost words = { λ s. 2 ^ 61 };

    fn word(self, i: usize) -> u32 {
        if i + 3 < self.len() {
            return whole_word(self, i);
        }
        u32::from_be_bytes([
            byte_at(self, i),
            byte_at(self, i + 1),
            byte_at(self, i + 2),
            byte_at(self, i + 3),
        ])
    }
}

// Bytes that hold every word that is asked for, so that no length is looked at.
#[derive(Clone, Copy)]
pub struct Inside<'a> {
    pub bytes: &'a [u8],
}

impl Source for Inside<'_> {
    ghost bytes = { λ s. s.bytes.now };

    ghost words = { λ s. length s.bytes.now - 3 };

    fn word(self, i: usize) -> u32 {
        whole_word(self.bytes, i)
    }
}

// Four bytes that are there, as one number: one look at the length serves all four.
fn whole_word(s: &[u8], i: usize) -> u32
    requires { i + 3 < length s.now }
    ensures { result ≡ field_at s.now (i * 8) 32 }
{
    u32::from_be_bytes([s[i], s[i + 1], s[i + 2], s[i + 3]])
}

// Byte i, or 0 past the end. No `get`: the pair of its tag and its pointer lies otherwise on a controller, and `firmware/retarget` refuses it.
fn byte_at(s: &[u8], i: usize) -> u8
    ensures { result ≡ get_or s.now i 0 }
{
    if i < s.len() { s[i] } else { 0 }
}

// A position in the bits of some bytes, counted from the first byte's highest bit.
#[derive(Clone, Copy)]
pub struct Cursor<S> {
    pub source: S,
    pub at: usize,
}

impl<S: Source> Cursor<S> {
    // The cursor at the first bit.
    pub fn new(source: S) -> Cursor<S>
        ensures { result ≡ record { source = source; at = 0 } }
    {
        Cursor { source, at: 0 }
    }

    // The unsigned field of `width` bits at the cursor, and the cursor behind it. Four bytes hold any 25 bits.
    // By value, and the position behind is handed back: a rule of the project (docs/DECISIONS.md, forms).
    pub fn take(mut self, width: usize) -> (u32, Cursor<S>)
        requires { (1 ≤ width) × (width ≤ 25) × (self.at + width < 2 ^ 64) × (self.at / 8 < S.words self.source) }
        ensures value { result.0 ≡ field_at (S.bytes self.source) self.at width }
        ensures behind { result.1 ≡ record self { at = self.at + width } }
    {
        let at = self.at;
        let word = self.source.word(at / 8);
        self.at = at + width;
        let field = (word >> (32 - at % 8 - width)) % (1u32 << width);
        (field, self)
    }

    // The signed field of `width` bits at the cursor, and the cursor behind it.
    pub fn take_signed(mut self, width: usize) -> (i64, Cursor<S>)
        requires { (1 ≤ width) × (width ≤ 25) × (self.at + width < 2 ^ 64) × (self.at / 8 < S.words self.source) }
        ensures value { result.0 ≡ signed_at (S.bytes self.source) self.at width }
        ensures behind { result.1 ≡ record self { at = self.at + width } }
    {
        let (field, behind) = self.take(width);
        self = behind;
        (sign_extend(field, width), self)
    }
}

// The number that `width` bits stand for as two's complement.
fn sign_extend(n: u32, width: usize) -> i64
    requires { (1 ≤ width) × (width ≤ 25) × (n < 2 ^ width) }
    ensures { result ≡ twos_complement width n }
{
    let half = 1u32 << (width - 1);
    if n < half {
        i64::from(n)
    } else {
        i64::from(n) - i64::from(half + half)
    }
}

// A bit writer: what has been written of a string of bits. So many whole bytes went out, and less than a byte more is held
// back.
#[derive(Clone, Copy)]
pub struct Pen {
    pub at: usize,
    pub bits: usize,
    pub held: u64,
    pub ghost few: { bits < 8 },
    pub ghost small: { held < 2 ^ bits },
}

impl Pen {
    ghost use Rattle.bits.specs.Inner.{Room, Put};

    // The pen at the first bit.
    pub fn new() -> Pen
        ensures { (result.at ≡ 0) × (result.bits ≡ 0) × (result.held ≡ 0) }
    {
        Pen {
            at: 0,
            bits: 0,
            held: 0,
        }
    }

    // Puts an unsigned field of `width` bits, and hands the pen behind it back. Whole bytes go out at once: the bits that are left count them, and a
    // `for` over their number is no plainer. By value, as the cursor: a rule of the project (docs/DECISIONS.md, forms).
    pub fn put(mut self, out: &mut [u8], width: usize, value: u64) -> Pen
        requires { Room out.old self width × (value < 2 ^ width) }
        ensures { Put out.old self width value out.new result }
    {
        let mut at = self.at;
        let mut bits = self.bits + width;
        let mut held = (self.held << width) + value;
        while bits >= 8 {
            bits -= 8;
            let byte = held >> bits;
            out[at] = byte as u8;
            at += 1;
            held = held % (1u64 << bits);
        }
        self = Pen { at, bits, held };
        self
    }

    // Puts a signed field of `width` bits.
    pub fn put_signed(self, out: &mut [u8], width: usize, value: i64) -> Pen
        requires { Room out.old self width × (1 ≤ width) × Within (2 ^ width) value }
        ensures { Put out.old self width (complement_of width value) out.new result }
    {
        self.put(out, width, complement(value, width))
    }
}

// A number as an unsigned one of `width` bits, in two's complement. No branch: a sign costs no more than none.
fn complement(x: i64, width: usize) -> u64
    requires { (width ≤ 25) × Within (2 ^ width) x }
    ensures { (result ≡ complement_of width x) × (result < 2 ^ width) }
{
    let whole = 1u64 << width;
    (x + whole as i64) as u64 % whole
}
