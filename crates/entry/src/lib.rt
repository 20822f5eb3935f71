// Where along a leg a box is entered: the entry parameter of the slab method, as an exact fraction of the leg.
#![tactic(auto)]

ghost use Rattle.std.specs.Prelude.{[], ◌∷◌, ◌≡◌, ◌≤◌};
ghost use Rattle.integers.specs.Within.{Withins};
ghost use Rattle.geometry.specs.Bounds.{index_max, BoundedPoint};
ghost use Rattle.grid.specs.Usable.{UsableLattice};
ghost use Rattle.entry.specs.Entry.{over, earlier, later};
ghost use Rattle.entry.specs.Parts.{BoundedRatio, BoundedApproach};
ghost use Rattle.entry.specs.Inner.{entry_bounds, axis_entry, axis_entry_of, entries_of, entry_by, layer_entry, entry_at};

use geometry::Point;
use grid::Lattice;
use std::marker::Model;

// num / den, where den is positive: a fraction of a leg, 0 at its start and 1 at its end.
#[derive(Clone, Copy)]
pub struct Fraction {
    pub num: i64,
    pub den: i64,
}

// The numbers of a fraction are so small that two of them are compared within 64 bits.
impl Model for Fraction {
    ghost use Rattle.entry.specs.Ratio.{Ratio};
    ghost use Rattle.entry.specs.Parts.{BoundedRatio};

    ghost Value = { Ratio };

    ghost view = { λ f. record { num = f.num; den = f.den } };

    ghost invariant = { λ f. BoundedRatio (record { num = f.num; den = f.den }) };

    ghost inverse = { λ r. record { num = r.num; den = r.den } };
}

// On an axis, a leg comes to the box with number i at the fraction (num + slope × i) / den.
#[derive(Clone, Copy)]
pub struct AxisEntry {
    pub num: i64,
    pub slope: i64,
    pub den: i64,
}

// The numbers are so small that the fractions of a grid's boxes are, and the denominator is positive.
impl Model for AxisEntry {
    ghost use Rattle.entry.specs.Parts.{Approach, BoundedApproach};

    ghost Value = { Approach };

    ghost view = { λ e. record { num = e.num; slope = e.slope; den = e.den } };

    ghost invariant = { λ e. BoundedApproach (record { num = e.num; slope = e.slope; den = e.den }) };

    ghost inverse = { λ a. record { num = a.num; slope = a.slope; den = a.den } };
}

// The same on each axis.
#[derive(Clone, Copy)]
pub struct Entries {
    pub x: AxisEntry,
    pub y: AxisEntry,
    pub z: AxisEntry,
}

impl Fraction {
    // The fraction num / den.
    pub fn new(num: i64, den: i64) -> Fraction
        requires { BoundedRatio (record { num = num; den = den }) }
        ensures { result ≡ over num den }
    {
        Fraction { num, den }
    }

    // Is this fraction less than g? By cross-multiplication, so that nothing is rounded. It is no PartialOrd: that wants
    // numbers of which neither is less to be equal, and 1/2 and 2/4 are not as structs.
    pub fn is_earlier(self, g: Fraction) -> bool
        ensures { result ≡ earlier self g }
    {
        self.num * g.den < g.num * self.den
    }

    // The later of this fraction and of the one at which the leg comes, on an axis, to box i.
    pub fn later_by(self, e: AxisEntry, i: usize) -> Fraction
        requires { i ≤ index_max }
        ensures { result ≡ later self (entry_by e i) }
    {
        let g = e.at(i);
        if self.is_earlier(g) { g } else { self }
    }
}

impl AxisEntry {
    // The fractions (num + slope × i) / den.
    pub fn new(num: i64, slope: i64, den: i64) -> AxisEntry
        requires { BoundedApproach (record { num = num; slope = slope; den = den }) }
        ensures { result ≡ axis_entry num slope den }
    {
        AxisEntry { num, slope, den }
    }

    // On an axis, how the leg from a to b comes to the boxes that begin at `first`, `first` + `step` and so on: going up at
    // their low side, going down at their high side; else it is there from the start.
    fn of_leg(a: i64, b: i64, first: i64, step: i64, extent: i64) -> AxisEntry
        requires { Withins entry_bounds (a ∷ b ∷ first ∷ step ∷ extent ∷ []) }
        ensures { result ≡ axis_entry_of a b first step extent }
    {
        if a < b {
            return AxisEntry {
                num: first - a,
                slope: step,
                den: b - a,
            };
        }
        if b < a {
            return AxisEntry {
                num: a - (first + extent),
                slope: -step,
                den: a - b,
            };
        }
        AxisEntry {
            num: 0,
            slope: 0,
            den: 1,
        }
    }

    // The fraction at which the leg comes to box i.
    fn at(self, i: usize) -> Fraction
        requires { i ≤ index_max }
        ensures { result ≡ entry_by self i }
    {
        Fraction {
            num: self.num + self.slope * i as i64,
            den: self.den,
        }
    }
}

impl Entries {
    // How the leg from a to b comes to the boxes of a lattice, on each axis.
    pub fn of_leg(a: Point, b: Point, l: Lattice) -> Entries
        requires { BoundedPoint a × BoundedPoint b × UsableLattice l }
        ensures { result ≡ entries_of l a b }
    {
        let first = l.first;
        let step = l.step;
        let extent = l.extent;
        let x = AxisEntry::of_leg(a.x, b.x, first.x, step, extent);
        let y = AxisEntry::of_leg(a.y, b.y, first.y, step, extent);
        let z = AxisEntry::of_leg(a.z, b.z, first.z, step, extent);
        Entries { x, y, z }
    }

    // The fraction at which the leg has started and has come to layer k.
    pub fn to_layer(&self, k: usize) -> Fraction
        requires { k ≤ index_max }
        ensures { result ≡ layer_entry self.now k }
    {
        Fraction::new(0, 1).later_by(self.z, k)
    }

    // The fraction at which the leg enters the box of cell (i, j, k): it has started, and has come to the box on every axis.
    pub fn at(&self, i: usize, j: usize, k: usize) -> Fraction
        requires { (i ≤ index_max) × (j ≤ index_max) × (k ≤ index_max) }
        ensures { result ≡ entry_at self.now i j k }
    {
        self.to_layer(k).later_by(self.y, j).later_by(self.x, i)
    }
}
