// The numbers of a PLY body, the lowest byte first, and its vertices.
#![tactic(auto)]

ghost use Rattle.std.specs.Prelude.{true, false, ◌≡◌, ◌+◌, ◌≤◌, length};
ghost use Rattle.bits.specs.Field.{twos_complement};
ghost use Rattle.rounding.specs.Rounding.{rounded_of, is_whole};
ghost use Rattle.rounding.specs.Widening.{widened_of};
ghost use Rattle.ply_vertex.specs.Vertex.{little_endian, width_of, number_at, size_of, vertex_at, placed};
ghost use Rattle.ply_vertex.specs.Inner.{nan_at};

use ply_header::{Form, Scalar};
use rounding::{Number, Vertex};

// The number of the four bytes from `at` on.
pub fn word(s: &[u8], at: usize) -> u32
    requires { at + 4 ≤ length s.now }
    ensures { result ≡ little_endian s.now at 4 }
{
    u32::from_le_bytes([s[at], s[at + 1], s[at + 2], s[at + 3]])
}

// The number of the eight bytes from `at` on.
fn long_word(s: &[u8], at: usize) -> u64
    requires { at + 8 ≤ length s.now }
    ensures { result ≡ little_endian s.now at 8 }
{
    u64::from(word(s, at)) + u64::from(word(s, at + 4)) * 4294967296
}

// The signed number of the four bytes from `at` on.
fn signed_word(s: &[u8], at: usize) -> i32
    requires { at + 4 ≤ length s.now }
    ensures { result ≡ twos_complement 32 (little_endian s.now at 4) }
{
    word(s, at).cast_signed()
}

// Does a pattern that is not a number stand at `at`? No operation may be done with its float before that is known.
fn is_nan(t: Scalar, s: &[u8], at: usize) -> bool
    requires { at + width_of t ≤ length s.now }
    ensures { result ≡ nan_at t s.now at }
{
    match t {
        Scalar::Float => 0x7f80_0000 < word(s, at) % 0x8000_0000,
        Scalar::Double => 0x7ff0_0000_0000_0000 < long_word(s, at) % 0x8000_0000_0000_0000,
        Scalar::Int => false,
    }
}

// The number of a type that stands at `at`.
fn number(t: Scalar, s: &[u8], at: usize) -> Number
    requires { (at + width_of t ≤ length s.now) × (nan_at t s.now at ≡ false) }
    ensures { result ≡ number_at t s.now at }
{
    match t {
        Scalar::Float => Number::Float(f32::from_bits(word(s, at))),
        Scalar::Double => Number::Double(f64::from_bits(long_word(s, at))),
        Scalar::Int => Number::Int(signed_word(s, at)),
    }
}

// Is the number at `at` finite, and in the range once rounded?
fn is_whole(t: Scalar, s: &[u8], at: usize) -> bool
    requires { at + width_of t ≤ length s.now }
    ensures { result ≡ is_whole (rounded_of (widened_of (number_at t s.now at))) }
{
    !is_nan(t, s, at) && rounding::is_whole(rounding::widen(number(t, s, at)))
}

// How many bytes a number of a type has.
fn width(t: Scalar) -> usize
    ensures { (result ≡ width_of t) × (4 ≤ result) × (result ≤ 8) }
{
    match t {
        Scalar::Float => 4,
        Scalar::Double => 8,
        Scalar::Int => 4,
    }
}

// How many bytes a vertex has.
pub fn size(f: Form) -> usize
    ensures { (result ≡ size_of f) × (12 ≤ result) × (result ≤ 24) }
{
    width(f.x) + width(f.y) + width(f.z)
}

// Is each number of the vertex at `at`? They stand one behind the other.
pub fn is_placed(s: &[u8], f: Form, at: usize) -> bool
    requires { at + size_of f ≤ length s.now }
    ensures { result ≡ placed (vertex_at s.now f at) }
{
    let second = at + width(f.x);
    let third = second + width(f.y);
    is_whole(f.x, s, at) && is_whole(f.y, s, second) && is_whole(f.z, s, third)
}

// The vertex at `at`, where each of its numbers is.
pub fn vertex(s: &[u8], f: Form, at: usize) -> Vertex
    requires { (at + size_of f ≤ length s.now) × (placed (vertex_at s.now f at) ≡ true) }
    ensures { result ≡ vertex_at s.now f at }
{
    let second = at + width(f.x);
    let third = second + width(f.y);
    rounding::widened(
        number(f.x, s, at),
        number(f.y, s, second),
        number(f.z, s, third),
    )
}
