// Refusals: the limits that an input may break, and the number and the place that a refused call says.
#![tactic(auto)]

ghost use Rattle.std.specs.Prelude.{◌≡◌};
ghost use Rattle.refusal.specs.Limit.{numbered, refusal_of};

// A limit that an input breaks, named by what is wrong with it: the error of every call that puts questions.
#[derive(Clone, Copy, Debug, PartialEq, Eq)]
pub enum Limit {
    ShortHeader,
    Version,
    ZeroEdge,
    ReservedBits,
    Extent,
    FileLength,
    UnusedKind(usize),
    ShortMap,
    PointCount,
    PointOutside(usize),
    ShortOutput,
    Unwritable,
    PlyForm,
    PlyVertex(usize),
    PlyFace(usize),
    CellOutside,
}

// What a refused call says: the number of the first limit broken, and the place.
#[derive(Clone, Copy, Debug, PartialEq, Eq)]
pub struct Refusal {
    pub number: u32,
    pub place: usize,
}

// A refusal with this number and this place.
fn numbered(number: u32, place: usize) -> Refusal
    ensures { result ≡ numbered number place }
{
    Refusal { number, place }
}

impl From<Limit> for Refusal {
    ghost from_gives = { λ limit refusal. refusal ≡ refusal_of limit };

    // The number and the place of a limit.
    fn from(limit: Limit) -> Refusal
        ensures { result ≡ refusal_of limit }
    {
        match limit {
            Limit::ShortHeader => numbered(1, 0),
            Limit::Version => numbered(2, 0),
            Limit::ZeroEdge => numbered(3, 0),
            Limit::ReservedBits => numbered(4, 0),
            Limit::Extent => numbered(5, 0),
            Limit::FileLength => numbered(6, 0),
            Limit::UnusedKind(i) => numbered(7, i),
            Limit::ShortMap => numbered(8, 0),
            Limit::PointCount => numbered(9, 0),
            Limit::PointOutside(m) => numbered(10, m),
            Limit::ShortOutput => numbered(11, 0),
            Limit::Unwritable => numbered(12, 0),
            Limit::PlyForm => numbered(13, 0),
            Limit::PlyVertex(k) => numbered(14, k),
            Limit::PlyFace(f) => numbered(15, f),
            Limit::CellOutside => numbered(16, 0),
        }
    }
}
