// Runs of cells in a row or a column, cut by linear forms of the cell's number.
#![tactic(auto)]

ghost use Rattle.std.specs.Prelude.{pos, ◌≤ℤ◌};
ghost use Rattle.runs.specs.Run.{FormHolds, FormFails, Stepping, Splits, passes, SteppingIn, Narrows, in_slab, SlabReady};

use grid::CellRange;

// The first cell of a run at which step × k + at is not negative, or the run's end. The form does not fall.
// No `for`: over a range the compiler turned these loops, of few turns, into vectors: a slab took 151 instructions in place of 129, and 15 times the code.
fn raised(first: usize, end: usize, step: i64, at: i64) -> usize
    requires { Stepping first end step at × (pos 0 ≤ℤ step) }
    ensures { Splits first end (FormFails step at) (FormHolds step at) result }
{
    let mut k = first;
    let mut x = step * first as i64 + at;
    while k < end {
        if 0 <= x {
            return k;
        }
        x += step;
        k += 1;
    }
    k
}

// The end of the cells of a run at which step × k + at is not negative. The form does not rise. No `for` either.
fn lowered(first: usize, end: usize, step: i64, at: i64) -> usize
    requires { Stepping first end step at × (step ≤ℤ pos 0) }
    ensures { Splits first end (FormHolds step at) (FormFails step at) result }
{
    let mut k = end;
    let mut x = step * end as i64 + at;
    while first < k {
        if step <= x {
            return k;
        }
        x -= step;
        k -= 1;
    }
    k
}

// The part of a run at which step × k + at is not negative.
pub fn by_form(run: CellRange, step: i64, at: i64) -> CellRange
    requires { SteppingIn run step at }
    ensures { Narrows run (passes step at) result }
{
    if step < 0 {
        CellRange {
            end: lowered(run.first, run.end, step, at),
            ..run
        }
    } else {
        CellRange {
            first: raised(run.first, run.end, step, at),
            ..run
        }
    }
}

// The part of a run at which step × k + at is from 0 to `reach`, where it does not fall. It is sought from a hint, which may be any cell of
// the run or its end: no search leaves the run, so that a hint far off costs no more than the run is long.
pub fn by_slab(run: CellRange, hint: usize, step: i64, at: i64, reach: i64) -> CellRange
    requires { SlabReady run hint step at reach }
    ensures { Narrows run (in_slab step at reach) result }
{
    let up = raised(hint, run.end, step, at);
    let first = lowered(run.first, up, -step, -at - 1);
    let end = raised(first, run.end, step, at - reach - 1);
    CellRange { first, end }
}
