// A map of four u64 over the table of slots: made of a table, and marked where a slot changes. It relies on the contract of `agent_request` alone.
#![tactic(auto)]

ghost use Rattle.std.specs.Prelude.{◌≡◌, ◌≤◌, length};
ghost use Rattle.board_slots.specs.Map.{bits_of, map_of, plus, marked_of};

use agent_request::Request;
use board_slots::{Board, Map};

// The bits of 64 slots or fewer, the first slot's lowest.
fn bits(slots: &[Request]) -> u64
    requires { length slots.now ≤ 64 }
    ensures { result ≡ bits_of slots.now }
{
    let mut bits = 0u64;
    for (j, q) in slots.iter().enumerate() {
        if agent_request::in_use(*q) {
            bits += 1 << j;
        }
    }
    bits
}

// The map of a table.
pub fn map_of(b: Board) -> Map
    ensures { result.parts ≡ map_of b.slots }
{
    Map {
        parts: std::array::from_fn(|k| bits(&b.slots[64 * k..64 * k + 64])),
    }
}

// The map with k added to the part of a slot. By its index: `get_mut` left a goal about the lent array open.
fn plus(mut m: Map, i: usize, k: u64) -> Map
    ensures { result.parts ≡ plus m.parts i k }
{
    let part = i / 64;
    if part < m.parts.len() {
        m.parts[part] = m.parts[part].wrapping_add(k);
    }
    m
}

// The map after the request of slot i changed: at most the slot's own bit changes.
#[tactic(auto, unfolding(board_slots::specs::Map::marked_of))]
pub fn marked(m: Map, i: usize, before: Request, after: Request) -> Map
    ensures { result.parts ≡ marked_of m.parts i before after }
{
    let one = 1u64 << (i % 64);
    match (agent_request::in_use(before), agent_request::in_use(after)) {
        (false, true) => plus(m, i, one),
        (true, false) => plus(m, i, one.wrapping_neg()),
        _ => m,
    }
}
