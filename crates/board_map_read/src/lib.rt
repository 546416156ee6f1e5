// What the map tells: trailing zeros find the lowest free slot, counts of ones give the slots in use. It relies on types alone.
#![tactic(auto)]

ghost use Rattle.std.specs.Prelude.{◌≡◌, ◌+◌, ◌*◌, ◌-◌, ◌<◌, get_or, None, Some, IfSome, IfNone};
ghost use Rattle.std.specs.Int.Count.{count_trailing_zeros};
ghost use Rattle.common.specs.Choice.{but};
ghost use Rattle.board_slots.specs.Slots.{SLOTS};
ghost use Rattle.board_slots.specs.Map.{ALL, lowest_zero, ones_of};

use board_slots::Map;

// The first part that has a zero, which has the lowest one.
fn with_a_zero(parts: &[u64; 4]) -> Option<usize>
    ensures within { IfSome result (λ k. k < 4) }
    ensures first { IfSome result (λ k. but SLOTS (lowest_zero parts.now) ≡ Some (64 * k + count_trailing_zeros 64 (ALL - get_or parts.now k 0))) }
    ensures none { IfNone result (but SLOTS (lowest_zero parts.now) ≡ None) }
{
    parts.iter().position(|part| *part != u64::MAX)
}

// The slot of the lowest zero of the part k.
fn slot_in(k: usize, part: u64) -> usize
    requires { k < 4 }
    ensures { result ≡ 64 * k + count_trailing_zeros 64 (ALL - part) }
{
    64 * k + (u64::MAX - part).trailing_zeros() as usize
}

// The lowest slot whose bit is zero.
#[tactic(auto, unfolding(board_slots::specs::Map::lowest_zero))]
pub fn lowest(m: Map) -> Option<usize>
    ensures { result ≡ but SLOTS (lowest_zero m.parts) }
{
    let k = with_a_zero(&m.parts)?;
    Some(slot_in(k, m.parts[k]))
}

// The ones of four parts.
fn ones_in(parts: &[u64; 4]) -> u64
    ensures { result ≡ ones_of parts.now }
{
    parts.iter().map(|part| part.count_ones() as u64).sum()
}

// How many bits are one.
pub fn count(m: Map) -> u64
    ensures { result ≡ ones_of m.parts }
{
    ones_in(&m.parts)
}
