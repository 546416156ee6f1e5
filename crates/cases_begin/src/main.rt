// Node 3 is fenced. A begin without words is refused and leaves the fence; one with words takes it away. No schedule has a begin. What it prints is
// compared with what an independent implementation computes.
#![tactic(auto)]

use board_slots::Board;
use program_job::Totals;
use run_play::Ran;
use std::io::Stdout;

// Plays a schedule of at most three records, prints their lines, counted on from what was played before, and adds what it came to.
fn shown(out: Stdout, totals: &mut Totals, b: Board, words: &mut [u64], schedule: &[u8]) -> Ran {
    let mut report = [0u8; 36];
    let ran = run_play::run(b, words, schedule, 0, 3, &mut report);
    program_print::entry_lines(out, totals.records, &report, ran.records);
    *totals = totals.and(&ran);
    ran
}

fn main(rt: HostRuntime) {
    let out = rt.stdout();
    let mut words = [0u64; 64];
    let mut totals = Totals::default();
    // node 3 is fenced; it opens
    let first = [6u8, 3, 5, 0, 0, 0, 3];
    // nodes 3 and 4 open
    let second = [5u8, 0, 0, 0, 3, 5, 0, 0, 0, 4];
    // node 3 opens, and steps slot 0; record 0 is shown
    let third = [5u8, 0, 0, 0, 3, 2, 0, 4, 0, 0];
    let begun = board_begin::begin(board_begin::fresh(), &mut words);
    let a = shown(out, &mut totals, begun.board, &mut words, &first);
    let refused = board_begin::begin(a.board, &mut []);
    let b = shown(out, &mut totals, refused.board, &mut words, &second);
    let accepted = board_begin::begin(b.board, &mut words);
    let c = shown(out, &mut totals, accepted.board, &mut words, &third);
    totals.end_line(out, c.ending.into());
}
