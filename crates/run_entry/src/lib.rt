// Report entries: 12 bytes for a played record. It relies on types alone.
#![tactic(auto)]

ghost use Rattle.std.specs.Prelude.{◌≡◌};
ghost use Rattle.run_entry.specs.Entry.{put_of};

use board_rules::Said;

// Writes an entry at a place of the report; where it does not fit nothing is written.
// By a place, as `put_of` is: an entry that does not fit is left out.
#[tactic(auto, using(crate::proofs::Stores::stored, crate::proofs::Stores::misses), unfolding(crate::specs::Entry::entry_of))]
pub fn put(report: &mut [u8], at: usize, d: Said)
    ensures { report.new ≡ put_of report.old at d }
{
    if at > report.len() || report.len() - at < 12 {
        return;
    }
    report[at..at + 4].copy_from_slice(&[d.number, d.outcome, d.slot, 0]);
    report[at + 4..at + 12].copy_from_slice(&d.value.to_le_bytes());
}
