// The route test: is a route free of the filled cells of a map?
#![tactic(auto)]

ghost use Rattle.std.specs.Prelude.{◌≡◌, ◌≤◌, ◌<◌, ◌^◌, length};
ghost use Rattle.refusal.specs.Limit.{said};
ghost use Rattle.refusal.specs.Questions.{answered, of_each};
ghost use Rattle.refusal.specs.Inner.{asked};
ghost use Rattle.grid.specs.Grid.{cell_count};
ghost use Rattle.grid.specs.Usable.{UsableGrid};
ghost use Rattle.map.specs.Map.{map_length, is_filled};
ghost use Rattle.demand.specs.Route.{point_count, points_of, point_at, tested, point_question, route_answer};
ghost use Rattle.demand.specs.Demand.{DemandOf, FirstOf};
ghost use Rattle.demand.specs.Inner.{ReadyRoute, last_questions};

use demand::Finding;
use frame::Frame;
use geometry::Point;
use grid::Grid;
use refusal::Limit;

// A route in the grid of an accepted file: x, y and z of its points in turn.
#[derive(Clone, Copy)]
struct Route<'a> {
    g: Grid,
    numbers: &'a [i16],
    ghost usable: { UsableGrid (2 ^ 13) (2 ^ 8) g },
}

// Puts questions 1 to 10, then tests the legs of the route in turn. The points are x, y and z in turn.
pub fn test_route(file: &[u8], map: &[u8], numbers: &[i16]) -> Result<Finding, Limit>
    ensures { (said result ≡ route_answer file.now map.now numbers.now) × DemandOf file.now map.now numbers.now (said result) × FirstOf file.now map.now numbers.now (said result) }
{
    let frame = Frame::check(file)?;
    let route = Route {
        g: frame.header().grid,
        numbers,
    };
    route.test(map)
}

impl Route<'_> {
    // Questions 8 to 10, then the legs.
    fn test(&self, map: &[u8]) -> Result<Finding, Limit>
        ensures { said result ≡ answered (last_questions self.now.g (length map.now) self.now.numbers.now) (tested (is_filled map.now) self.now.g (points_of self.now.numbers.now)) }
    {
        self.check(map.len())?;
        Ok(self.test_legs(map))
    }

    // Questions 8 to 10, of a map with `len` bytes.
    fn check(&self, len: usize) -> Result<(), Limit>
        ensures { said result ≡ asked (last_questions self.now.g len self.now.numbers.now) }
    {
        let n = grid::cell_count(self.g);
        if len < map::map_length(n) {
            return Err(Limit::ShortMap);
        }
        let count = self.numbers.len() / 3;
        if count < 2 {
            return Err(Limit::PointCount);
        }
        if 64 < count {
            return Err(Limit::PointCount);
        }
        if self.numbers.len() % 3 != 0 {
            return Err(Limit::PointCount);
        }
        self.check_points(count)
    }

    // Question 10, of the first `count` points.
    fn check_points(&self, count: usize) -> Result<(), Limit>
        requires { count ≤ point_count self.now.numbers.now }
        ensures { said result ≡ asked (of_each (point_question self.now.g (points_of self.now.numbers.now)) count) }
    {
        for i in 0..count {
            if !grid::is_inside(self.g, self.point(i)) {
                return Err(Limit::PointOutside(i));
            }
        }
        Ok(())
    }

    // Point m of the route.
    fn point(&self, m: usize) -> Point
        requires { m < point_count self.now.numbers.now }
        ensures { result ≡ point_at (points_of self.now.numbers.now) m }
    {
        Point {
            x: i64::from(self.numbers[3 * m]),
            y: i64::from(self.numbers[3 * m + 1]),
            z: i64::from(self.numbers[3 * m + 2]),
        }
    }

    // Tests the legs in turn, up to the first that touches a filled cell.
    fn test_legs(&self, map: &[u8]) -> Finding
        requires { (map_length (cell_count self.now.g) ≤ length map.now) × ReadyRoute self.now.g self.now.numbers.now }
        ensures { result ≡ tested (is_filled map.now) self.now.g (points_of self.now.numbers.now) }
    {
        let legs = self.numbers.len() / 3 - 1;
        for m in 0..legs {
            if let Some(cell) = first_hit::first_hit(
                self.g,
                map,
                self.point(m),
                self.point(m + 1),
            ) {
                return Finding::Blocked { leg: m, cell };
            }
        }
        Finding::Free
    }
}
