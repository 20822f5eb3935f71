// A block of columns.
ghost use Rattle.std.specs.Prelude.{◌<◌, ◌≤◌};

// The columns from u0 on and below u1 on one axis, and from v0 on and below v1 on the other. The numbers are at most 64, so that a block
// takes four bytes.
#[derive(Clone, Copy)]
pub struct Block {
    pub u0: u8,
    pub u1: u8,
    pub v0: u8,
    pub v1: u8,
    pub ghost some_u: { u0 < u1 },
    pub ghost some_v: { v0 < v1 },
    pub ghost most_u: { u1 ≤ 64 },
    pub ghost most_v: { v1 ≤ 64 },
}
