// May these values be written? The tests of a header's numbers and of a list of triangles.
#![tactic(auto)]

ghost use Rattle.std.specs.Prelude.{true, ◌≡◌, ◌*◌, ◌≤◌, ◌^◌, pos, length};
ghost use Rattle.layout.specs.Layout.{field, plain, signed, header_fields};
ghost use Rattle.layout.specs.Values.{header_from};
ghost use Rattle.layout_write.specs.Writing.{between, can_hold_all};
ghost use Rattle.writable.specs.Fits.{header_fits, all_below, triangle_fits, triangle_numbers};
ghost use Rattle.writable.specs.Inner.{bounds_of_field, bounds_of, each_between, all_between, kinds_between};

use geometry::Point;
use grid::Grid;
use layout_write::WritableLayout;

// The least and the greatest number that a field can hold.
#[derive(Clone, Copy)]
pub struct Bounds {
    pub low: i64,
    pub high: i64,
}

// Can a header's fields hold its numbers, is the edge above 0, and does the grid end within the farthest coordinate?
pub fn header_fits(layout: WritableLayout, numbers: &[i32]) -> bool
    requires { length numbers.now ≡ 10 }
    ensures { result ≡ header_fits layout.shape numbers.now }
{
    if !each_between(&header_bounds(layout), numbers) {
        return false;
    }
    if numbers[4] <= 0 {
        return false;
    }
    frame::extent_fits(layout.shape.farthest, grid_of(layout, numbers))
}

// The grid of a header's numbers.
fn grid_of(layout: WritableLayout, numbers: &[i32]) -> Grid
    requires { can_hold_all (header_fields layout.shape) numbers.now ≡ true }
    ensures { result ≡ (header_from numbers.now).grid }
{
    let origin = Point {
        x: i64::from(numbers[5]),
        y: i64::from(numbers[6]),
        z: i64::from(numbers[7]),
    };
    Grid {
        nx: numbers[1] as usize,
        ny: numbers[2] as usize,
        nz: numbers[3] as usize,
        edge: i64::from(numbers[4]),
        origin,
    }
}

// What each field of a header can hold.
fn header_bounds(layout: WritableLayout) -> [Bounds; 10]
    ensures { result ≡ bounds_of (header_fields layout.shape) }
{
    let cells = Bounds { low: 1, high: 64 };
    let coordinate = signed_bounds(layout.shape.coordinate);
    let twelve_bits = plain_bounds(12);
    [
        plain_bounds(4),
        cells,
        cells,
        cells,
        plain_bounds(layout.shape.edge),
        coordinate,
        coordinate,
        coordinate,
        twelve_bits,
        twelve_bits,
    ]
}

// 2 to the power of a field's width.
fn power(width: usize) -> i64
    requires { width ≤ 25 }
    ensures { result ≡ pos (2 ^ width) }
{
    i64::from(1u32 << width)
}

// What a plain field of a width can hold.
fn plain_bounds(width: usize) -> Bounds
    requires { width ≤ 25 }
    ensures { result ≡ bounds_of_field (field plain width) }
{
    Bounds {
        low: 0,
        high: power(width) - 1,
    }
}

// What a signed field of a width can hold.
fn signed_bounds(width: usize) -> Bounds
    requires { (1 ≤ width) × (width ≤ 25) }
    ensures { result ≡ bounds_of_field (field signed width) }
{
    let half = power(width - 1);
    Bounds {
        low: -half,
        high: half - 1,
    }
}

// Does each number lie within its own bounds?
fn each_between(bounds: &[Bounds], numbers: &[i32]) -> bool
    ensures { result ≡ each_between bounds.now numbers.now }
{
    bounds
        .iter()
        .zip(numbers)
        .all(|(bound, x)| between(*bound, i64::from(*x)))
}

// Does x lie within bounds, both included?
fn between(bounds: Bounds, x: i64) -> bool
    ensures { result ≡ between bounds.low bounds.high x }
{
    bounds.low <= x && x <= bounds.high
}

// Can records hold these triangles, and is each kind below 3? All numbers are put to the test that a coordinate is, which a
// kind passes too, so that the test has one loop with no way out, which the compiler makes fast.
pub fn triangles_fit(layout: WritableLayout, triangles: &[i32], count: usize) -> bool
    requires { length triangles.now ≡ count * 10 }
    ensures { result ≡ all_below (λ i. triangle_fits layout.shape (triangle_numbers triangles.now i)) count }
{
    all_between(signed_bounds(layout.shape.coordinate), triangles) && kinds_fit(triangles, count)
}

// Does every number lie within the bounds?
fn all_between(bounds: Bounds, numbers: &[i32]) -> bool
    ensures { result ≡ all_between bounds.low bounds.high numbers.now }
{
    let mut good = true;
    for x in numbers {
        good &= between(bounds, i64::from(*x));
    }
    good
}

// Is the kind of each triangle 0, 1 or 2? By numbers, and not over the list: it looks at each tenth of them.
fn kinds_fit(triangles: &[i32], count: usize) -> bool
    requires { length triangles.now ≡ count * 10 }
    ensures { result ≡ kinds_between triangles.now count }
{
    let kinds = Bounds { low: 0, high: 2 };
    for i in 0..count {
        if !between(kinds, i64::from(triangles[i * 10])) {
            return false;
        }
    }
    true
}
