// Which slot a call visits. It relies on the contract of `board_map_read` alone.
#![tactic(auto)]

ghost use Rattle.std.specs.Prelude.{◌≡◌};
ghost use Rattle.board_rules.specs.Visit.{aim_of, within_board};

use board_call::Call;
use board_slots::Map;

// A slot number as it stands, and slot 0 for one above 255. No TryFrom: it would be no shorter, and the choice
// at 256 is the definition's.
fn within(i: u64) -> usize
    ensures { result ≡ within_board i }
{
    if i < 256 { i as usize } else { 0 }
}

// The slot that a call visits. A slot and no Option: where none is named or free it is slot 0, and its visit refuses (docs/DECISIONS.md, 18).
#[tactic(auto, using(crate::proofs::Aims::lowest_aimed), unfolding(board_rules::specs::Visit::aim_of))]
pub fn aim(c: Call, m: Map) -> usize
    ensures { result ≡ aim_of c m.parts }
{
    match c {
        Call::Open(_, _) => board_map_read::lowest(m).unwrap_or(0),
        Call::Step(slot) | Call::Release(slot) => within(slot),
        Call::Show(_) => 0,
    }
}
