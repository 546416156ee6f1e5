// Which numbers are records, and a request that stays as it is, refused. It relies on types alone.
#![tactic(auto)]

ghost use Rattle.std.specs.Prelude.{◌≡◌};
ghost use Rattle.board_rules.specs.declared.Answer.TheVariants.{Refused};
ghost use Rattle.board_rules.specs.Records.{is_record_of};
ghost use Rattle.board_rules.specs.Sent.{seen_as};

use agent_request::Request;
use board_rules::{Answer, Seen};

// Whether a number is a record of so many lent words.
pub fn is_record(r: u64, lent: usize) -> bool
    ensures { result ≡ is_record_of r lent }
{
    r < lent as u64 && r < 4096
}

// The request as it was, and the number of the refusal: any number, since a `Refusal` in its place would ask more of callers.
pub fn refused(q: Request, n: u8) -> Seen
    ensures { result ≡ seen_as q (Refused n) }
{
    Seen {
        request: q,
        answer: Answer::Refused(n),
    }
}
