// A run of a schedule, in definitions and laws, and what it can end with. `run_play` computes it.
#![tactic(auto)]

ghost use Rattle.std.specs.Prelude.{◌≡◌};
ghost use Rattle.run_rules.specs.Endings.{ending_number};

// What a run ends with, each under its number (rule 7.2).
#[derive(Clone, Copy, PartialEq, Eq, Debug)]
pub enum Ending {
    Complete = 0,
    Cut = 7,
    Unknown = 8,
    Spent = 11,
    NoRoom = 12,
}

impl From<Ending> for u8 {
    ghost from_gives = { λ e n. n ≡ ending_number e };

    fn from(e: Ending) -> u8 {
        e as u8
    }
}
