// A call's answer, packed into one number of 64 bits.
#![tactic(auto)]

ghost use Rattle.std.specs.Prelude.{◌≡◌, ◌<◌};
ghost use Rattle.refusal.specs.Limit.{refusal_of, said};
ghost use Rattle.pack.specs.Pack.{packed, packed_refusal, packed_count};

use refusal::{Limit, Refusal};

// From the top: 8 bits for the tag, 8 for the number, 16 for the leg and 32 for the rest. The tag is a number, as C callers read it: the clause holds of
// each below 256, also of those that no call answers, as 6 in the edit free_tagged_6 of `stall`.
pub fn pack(tag: u64, number: usize, leg: usize, low: usize) -> u64
    requires { tag < 256 }
    ensures { result ≡ packed tag number leg low }
{
    let above = tag * 256 + (number % 256) as u64;
    let below = (leg % 65536) as u64 * 4294967296 + (low % 4294967296) as u64;
    above * 281474976710656 + below
}

// A refusal's number and place, packed.
pub fn pack_limit(limit: Limit) -> u64
    ensures { result ≡ packed_refusal (refusal_of limit).number (refusal_of limit).place }
{
    let refusal = Refusal::from(limit);
    pack(1, refusal.number as usize, 0, refusal.place)
}

// A count or a length, packed, or the refusal.
pub fn pack_count(answer: Result<usize, Limit>) -> u64
    ensures { result ≡ packed_count (said answer) }
{
    match answer {
        Ok(n) => pack(0, 0, 0, n),
        Err(limit) => pack_limit(limit),
    }
}
