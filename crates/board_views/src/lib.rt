// What can be seen of a board without a change: the word of a record, and how many slots are in use. It relies on the contracts of
// `board_map_kept` and `board_map_read` alone.
#![tactic(auto)]

ghost use Rattle.std.specs.Prelude.{◌≡◌};
ghost use Rattle.board_slots.specs.Slots.{used_slots};
ghost use Rattle.board_rules.specs.Board.{shown_of};

use board_rules::{Answer, Refusal};
use board_slots::Board;

// The word of a record. It looks at no slot.
#[tactic(auto, unfolding(board_rules::specs::Board::shown_of))]
pub fn show(words: &[u64], record: u64) -> Answer
    ensures { result ≡ shown_of «record» words.now }
{
    match words.get(record as usize) {
        Some(word) if record < 4096 => Answer::Shown(*word),
        _ => Answer::Refused(Refusal::NoRecord.into()),
    }
}

// How many slots are in use.
#[tactic(auto, using(board_slots::proofs::Promises::map_counts_used))]
pub fn used(b: Board) -> u64
    ensures { result ≡ used_slots b.slots }
{
    board_map_read::count(board_map_kept::map_of(b))
}
