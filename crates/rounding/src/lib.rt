// Measured numbers: a number of a scanner's file of any of three types, widened without loss to an `f64`, and rounded to the
// nearest whole number.
#![tactic(auto)]

ghost use Rattle.std.specs.Prelude.{◌≡◌, true};
ghost use Rattle.rounding.specs.Rounding.{rounded_of, Says, is_whole, millimetres};
ghost use Rattle.rounding.specs.Widening.{SameValue, widened_of, widened_vertex};
ghost use Rattle.rounding.specs.Inner.{refused_as};

// A number of a file, of the type that its property says.
#[derive(Clone, Copy)]
pub enum Number {
    Float(f32),
    Double(f64),
    Int(i32),
}

// A vertex, in millimetres.
#[derive(Clone, Copy)]
pub struct Vertex {
    pub x: f64,
    pub y: f64,
    pub z: f64,
}

// Why a number rounds to no whole number from -8,192 to 8,191.
#[derive(Clone, Copy, Debug, PartialEq, Eq)]
pub enum Unrounded {
    NotFinite,
    OutOfRange,
}

// The same number as an `f64`. An infinity stays one, and what is not a number stays so.
pub fn widen(n: Number) -> f64
    ensures { (result ≡ widened_of n) × SameValue n result }
{
    match n {
        Number::Float(x) => f64::from(x),
        Number::Double(x) => x,
        Number::Int(k) => f64::from(k),
    }
}

// The vertex of three numbers.
pub fn widened(x: Number, y: Number, z: Number) -> Vertex
    ensures { (result ≡ widened_vertex x y z) × SameValue x result.x × SameValue y result.y × SameValue z result.z }
{
    let wide_x = widen(x);
    let wide_y = widen(y);
    let wide_z = widen(z);
    Vertex {
        x: wide_x,
        y: wide_y,
        z: wide_z,
    }
}

// Why a number that rounds to none of the range is refused.
fn refused(x: f64) -> Unrounded
    ensures { result ≡ refused_as x }
{
    if x.is_finite() {
        Unrounded::OutOfRange
    } else {
        Unrounded::NotFinite
    }
}

// The nearest whole number, a half to the even one, of a number that rounds to one of the range. The sum lies from 2^52 to 2^53, where
// an `f64` counts by ones: the addition itself rounds it, a half to the even number. 3 × 2^51 is even, so that what is left is too.
pub fn whole(x: f64) -> i32
    requires { is_whole (rounded_of x) ≡ true }
    ensures { result ≡ millimetres (rounded_of x) }
{
    let sum = x + 6755399441055744.0;
    (sum as i64 - 6755399441055744) as i32
}

// The nearest whole number, a half to the even one, where it is one from -8,192 to 8,191.
pub fn nearest(x: f64) -> Result<i32, Unrounded>
    ensures { (result ≡ rounded_of x) × Says x result }
{
    if x >= -8192.5 && x < 8191.5 {
        Ok(whole(x))
    } else {
        Err(refused(x))
    }
}

// Is there such a number?
pub fn is_whole(x: f64) -> bool
    ensures { result ≡ is_whole (rounded_of x) }
{
    nearest(x).is_ok()
}
