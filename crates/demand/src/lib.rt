// Routes, what a route test finds, and demand 3: definitions and theorems, and the finding's type.
#![tactic(auto)]

// What a route test finds: no leg of the route touches a filled cell; or the first leg that does, and the filled cell that
// this leg reaches first.
#[derive(Clone, Copy, Debug, PartialEq, Eq)]
pub enum Finding {
    Free,
    Blocked { leg: usize, cell: usize },
}
