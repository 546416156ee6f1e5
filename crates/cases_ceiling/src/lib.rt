// Drives one record through runs to the ceiling: no schedule that a program reads is long enough for that. One record is opened, asked for and
// released 32,767 times, and then a second schedule is played on the same board and printed. Four programs of one line call this crate, each
// with a stored output of its own.
#![tactic(auto)]

use program_job::Totals;
use std::io::Stdout;

// Plays the second schedule after 32,767 tickets of a mode, the byte that an open has, were given and released on record 0.
pub fn after_almost_all_tickets(out: Stdout, mode: u8, second: &[u8]) {
    let mut words = [0u64; 64];
    let mut board = board_begin::begin(board_begin::fresh(), &mut words).board;
    let ticket = [1u8, 0, 0, mode, 2, 0, 3, 0];
    let mut report = [0u8; 12288];
    let mut totals = Totals::default();
    for _ in 0..32767u32 {
        let ran = run_play::run(board, &mut words, &ticket, 0, 3, &mut report);
        totals = totals.and(&ran);
        board = ran.board;
    }
    let ran = run_play::run(board, &mut words, second, 0, 1024, &mut report);
    program_print::entry_lines(out, totals.records, &report, ran.records);
    totals = totals.and(&ran);
    totals.end_line(out, ran.ending.into());
}

// The ceiling of one mode: the last ticket, two requests of both modes turned away, clearing due, not yet clear while a withdrawal is owed,
// cleared, and the record in use again.
pub fn ceiling(out: Stdout, mode: u8) {
    let other = u8::from(mode == 0);
    let second = [
        1u8, 0, 0, mode, 2, 0, 1, 0, 0, mode, 2, 1, 1, 0, 0, other, 2, 2, 4, 0, 0, 3, 0, 2, 0, 2,
        1, 2, 0, 2, 2, 4, 0, 0, 2, 0, 4, 0, 0, 1, 0, 0, mode, 2, 0, 1, 0, 0, other, 2, 1, 3, 0, 2,
        1, 3, 1, 4, 0, 0,
    ];
    after_almost_all_tickets(out, mode, &second);
}

// The most that a counter reaches: the last ticket held, and 255 readers turned away.
pub fn most(out: Stdout) {
    let mut second = [0u8; 1542];
    let (shown, turned_away) = second.split_at_mut(9);
    shown.copy_from_slice(&[1, 0, 0, 0, 2, 0, 4, 0, 0]);
    for (slot, calls) in (1..=255u8).zip(turned_away.chunks_exact_mut(6)) {
        calls.copy_from_slice(&[1, 0, 0, 0, 2, slot]);
    }
    second[1539] = 4;
    after_almost_all_tickets(out, 0, &second);
}

// Whoever has to clear is lost: node 1 holds the last ticket and is fenced, its slots are cared for, and the record is in use again.
pub fn lost_clearer(out: Stdout) {
    let second = [
        5u8, 0, 0, 0, 1, 2, 0, 5, 0, 0, 0, 2, 2, 1, 5, 0, 0, 1, 1, 2, 2, 6, 1, 7, 0, 7, 0, 3, 0, 2,
        0, 2, 2, 7, 2, 7, 0, 2, 1, 4, 0, 0, 7, 0, 4, 0, 0, 5, 0, 0, 1, 1, 5, 0, 0, 1, 2, 2, 0, 3,
        0, 4, 0, 0,
    ];
    after_almost_all_tickets(out, 0, &second);
}
