// The repair of a board: passes until one brings nothing on, at most as many as the lent log has room for. A repair that was cut off is taken up again
// by another call on the board that it left (`PassesTakenUpAgain`). It relies on the contract of `repair_pass` alone.
#![tactic(auto)]

ghost use Rattle.repair_all.specs.Repairs.{Repairs};

use board_slots::Board;

// A board after passes, how many cares they made, and whether the last of them brought nothing on.
// No Result: the board and the cares hold either way.
#[derive(Clone, Copy)]
pub struct Repaired {
    pub board: Board,
    pub cares: usize,
    pub done: bool,
}

// Passes over all slots, each of at most 768 bytes of the log: 3 for a care, one behind the other from the start on.
pub fn repair(mut b: Board, words: &mut [u64], log: &mut [u8]) -> Repaired
    ensures { Repairs b words.old log.old result words.new log.new }
{
    let mut cares: usize = 0;
    let mut done = false;
    for _ in 0..log.len() / 768 {
        let made = repair_pass::pass(b, words, log, cares * 3);
        b = made.board;
        cares += made.cares;
        if !made.progress {
            done = true;
            break;
        }
    }
    Repaired {
        board: b,
        cares,
        done,
    }
}
