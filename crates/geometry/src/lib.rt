// Points and triangles with whole-number coordinates.
#![tactic(auto)]

// A point, or a vector. How large its numbers are stands in the contracts, and not in the type: normals and differences are points too, and larger.
#[derive(Clone, Copy)]
pub struct Point {
    pub x: i64,
    pub y: i64,
    pub z: i64,
}

// A triangle by its corners (vertices). They may coincide or stand in one line.
#[derive(Clone, Copy)]
pub struct Triangle {
    pub v0: Point,
    pub v1: Point,
    pub v2: Point,
}
