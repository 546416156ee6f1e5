// The programs' whole jobs: a schedule played on a fresh board of 64 words, in as many runs as the report's buffer needs; and the same followed by the
// repair of that board. No contract can say what is written; all that matters is done by `run_play` and `repair_all`.
#![tactic(auto)]

ghost use Rattle.std.specs.Prelude.{◌≡◌};
ghost use Rattle.program_job.specs.Totals.{and_of};

use board_slots::Board;
use run_play::Ran;
use run_rules::Ending;
use std::io::Stdout;

// The ending that is the program's own (rule 8.3): an input over 65,536 bytes.
const TOO_LONG: u8 = 13;

// What runs came to together: records, bytes taken and verbs.
#[derive(Clone, Copy, Default)]
pub struct Totals {
    pub records: u64,
    pub bytes: u64,
    pub verbs: u64,
}

impl Totals {
    // With what one more run came to.
    pub fn and(self, ran: &Ran) -> Totals
        ensures { result ≡ and_of self ran.now }
    {
        Totals {
            records: self.records.wrapping_add(ran.records as u64),
            bytes: self.bytes.wrapping_add(ran.bytes as u64),
            verbs: self.verbs.wrapping_add(ran.verbs as u64),
        }
    }

    // Prints the last line, with the ending's number: 13 is no ending of a run.
    pub fn end_line(self, out: Stdout, ending: u8) {
        program_print::end_line(out, ending.into(), self.records, self.bytes, self.verbs);
    }
}

// Plays a schedule on a fresh board over lent words, prints its lines, and gives the board back. Over 65,536 bytes it plays nothing and prints
// only the last line, with 13.
fn played(out: Stdout, words: &mut [u64], input: &[u8]) -> Option<Board> {
    if 65536 < input.len() {
        Totals::default().end_line(out, TOO_LONG);
        return None;
    }
    let mut board = board_begin::begin(board_begin::fresh(), words).board;
    let mut report = [0u8; 6144];
    let mut totals = Totals::default();
    for _ in 0..65536u32 {
        let place = totals.bytes as usize;
        let ran = run_play::run(board, words, input, place, 512, &mut report);
        program_print::entry_lines(out, totals.records, &report, ran.records);
        totals = totals.and(&ran);
        board = ran.board;
        if !matches!(ran.ending, Ending::Spent | Ending::NoRoom) {
            totals.end_line(out, ran.ending.into());
            break;
        }
    }
    Some(board)
}

// Plays a schedule on a fresh board of 64 words and prints its lines; over 65,536 bytes only the last line, with 13.
pub fn play_lines(out: Stdout, input: &[u8]) {
    played(out, &mut [0u64; 64], input);
}

// The same, and then a line for each care of the repair of the board that it left, ten passes at a time; after 13 nothing more. No repair has more
// than 769 passes (`RepairEnds`).
pub fn repair_lines(out: Stdout, input: &[u8]) {
    let mut words = [0u64; 64];
    let Some(mut board) = played(out, &mut words, input) else {
        return;
    };
    let mut log = [0u8; 7680];
    for _ in 0..77u32 {
        let repaired = repair_all::repair(board, &mut words, &mut log);
        program_print::care_lines(out, &log, repaired.cares);
        if repaired.done {
            return;
        }
        board = repaired.board;
    }
}
