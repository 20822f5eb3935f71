// The route test on points that are structs.
#![tactic(auto)]

ghost use Rattle.std.specs.Prelude.{◌≡◌, take};
ghost use Rattle.refusal.specs.Limit.{said};
ghost use Rattle.demand.specs.Route.{route_answer};
ghost use Rattle.demand.specs.Demand.{DemandOf, FirstOf};
ghost use Rattle.points.specs.Points.{numbers_of};

use demand::Finding;
use refusal::Limit;

// A point of a route.
#[derive(Clone, Copy)]
pub struct Point {
    pub x: i16,
    pub y: i16,
    pub z: i16,
}

// Tests a route as `route::test_route` does on the points' numbers in order. Those of 65 points are copied at most: 65
// meet question 9 as any more would. The array is of a fixed size, since there is no heap.
pub fn test_points(file: &[u8], map: &[u8], points: &[Point]) -> Result<Finding, Limit>
    ensures { (said result ≡ route_answer file.now map.now (numbers_of points.now)) × DemandOf file.now map.now (numbers_of points.now) (said result) × FirstOf file.now map.now (numbers_of points.now) (said result) }
{
    let count = points.len().min(65);
    let mut numbers = [0i16; 195];
    for i in 0..count {
        let p = points[i];
        numbers[3 * i] = p.x;
        numbers[3 * i + 1] = p.y;
        numbers[3 * i + 2] = p.z;
    }
    route::test_route(file, map, &numbers[..3 * count])
}

// The same of the first `count` points of an array, or of all 128: for callers that hold their points by value.
pub fn test_first_points(
    file: &[u8],
    map: &[u8],
    points: [Point; 128],
    count: usize,
) -> Result<Finding, Limit>
    ensures { (said result ≡ route_answer file.now map.now (numbers_of (take count points))) × DemandOf file.now map.now (numbers_of (take count points)) (said result) × FirstOf file.now map.now (numbers_of (take count points)) (said result) }
{
    let end = count.min(128);
    test_points(file, map, &points[..end])
}
