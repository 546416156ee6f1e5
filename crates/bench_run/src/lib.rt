// The benchmark's way into a run, for a caller in C: a fresh board, begun over the lent words, plays the whole schedule. It relies on the
// contracts of `board_begin` and `run_play` alone.
#![tactic(auto)]

ghost use Rattle.bench_run.specs.Bench.{Benched};

// Begins a fresh board over the words, plays the schedule from its first byte, and returns how many verbs were sent.
#[unsafe(no_mangle)]
pub extern "C" fn brancove_bench_run(words: &mut [u64], schedule: &[u8], report: &mut [u8]) -> u64
    ensures { Benched words.old schedule.now report.old result words.new report.new }
{
    let begun = board_begin::begin(board_begin::fresh(), words);
    let ran = run_play::run(begun.board, words, schedule, 0, 1099511627776, report);
    ran.verbs as u64
}
