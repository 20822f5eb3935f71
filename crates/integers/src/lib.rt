// Whole numbers: bounds on their size, and the laws that the proofs of signed code stand on; and the one function that the standard library's own
// does not replace.
#![tactic(auto)]

ghost use Rattle.std.specs.Prelude.{pos, ◌<ℤ◌};
ghost use Rattle.integers.specs.Inner.{Floor};

// x / d rounded down, where `/` rounds toward 0: the place of x among steps of size d. No `div_euclid`: it asks for the sign of d too. So a fill of small
// triangles took 12 % more instructions, and the controller's library wanted an unsigned division from outside as well.
pub fn floor_div(x: i64, d: i64) -> i64
    requires { pos 0 <ℤ d }
    ensures { Floor x d result }
{
    let q = x / d;
    let m = x % d;
    if m < 0 { q - 1 } else { q }
}
