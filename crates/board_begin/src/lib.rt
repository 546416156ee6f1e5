// A fresh board, and a board begun: all lent words 0, all slots free and of node 0, no node fenced. It relies on the contract of `agent_request` alone.
#![tactic(auto)]

ghost use Rattle.std.specs.Prelude.{◌≡◌};
ghost use Rattle.board_slots.specs.Slots.{fresh_slots};
ghost use Rattle.board_nodes.specs.Site.{fresh_nodes, no_fences, begun_at};
ghost use Rattle.board_nodes.specs.Leaves.{Leaves, lent_to};

use board_rules::{Answer, Played, Refusal};
use board_slots::Board;

// All slots free and of node 0, and no node fenced.
pub fn fresh() -> Board
    ensures slots { result.slots ≡ fresh_slots }
    ensures nodes { result.nodes ≡ fresh_nodes }
    ensures fenced { result.fenced ≡ no_fences }
{
    let free = agent_request::free();
    Board {
        slots: [free; 256],
        nodes: [0u8; 256],
        fenced: [false; 256],
    }
}

// Sets all lent words to 0 and all slots free, and takes the fences away; 9 for 0 words or more than 4,096.
pub fn begin(b: Board, words: &mut [u64]) -> Played
    ensures { Leaves (begun_at (lent_to b words.old)) result words.new }
{
    let n = words.len();
    if n == 0 || 4096 < n {
        return Played {
            board: b,
            answer: Answer::Refused(Refusal::NoWordsOrTooMany.into()),
        };
    }
    words.fill(0);
    Played {
        board: fresh(),
        answer: Answer::Begun,
    }
}
