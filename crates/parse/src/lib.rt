// Numbers in base ten, from text: what a person typed.
#![tactic(auto)]

ghost use Rattle.std.specs.Prelude.{◌≡◌, ℤ, Result};
ghost use Rattle.std.specs.Result.{result_ok};
ghost use Rattle.parse.specs.Parse.{figures, number_in};

// The number that a word says: figures, at most 16 behind zeros in front, with a minus sign before them or none.
pub fn number_in(word: &[u8]) -> Option<i64>
    ensures { result ≡ number_in word.now }
{
    match word.strip_prefix(b"-") {
        Some(size) => figures(size, true),
        None => figures(word, false),
    }
}

// The number that a word says, where the type holds it.
pub fn number_as<T: TryFrom<i64>>(word: &[u8]) -> Option<T>
where
    T::Error: Drop,
    ensures none { number_in word.now ≡ None → result ≡ None }
    ensures some { (z : ℤ) → number_in word.now ≡ Some z → (r : Result T T.Error) × T.TryFrom.try_from_gives z r × (result ≡ result_ok r) }
{
    T::try_from(number_in(word)?).ok()
}

// The number that figures say, with its sign. Rust's own `parse` also takes a plus sign and more than 16 figures.
fn figures(s: &[u8], negative: bool) -> Option<i64>
    ensures { result ≡ figures negative s.now }
{
    if s.is_empty() {
        return None;
    }
    let mut n: u64 = 0;
    for c in s {
        if !c.is_ascii_digit() || 1_000_000_000_000_000 <= n {
            return None;
        }
        n = n * 10 + u64::from(*c - b'0');
    }
    let size = n as i64;
    Some(if negative { -size } else { size })
}
