// A run: plays the records of a schedule one by one and reports each in 12 bytes. The board is in one local and its map in another, so that
// no record copies the table. A step that goes on waiting, which changes nothing of the board and no word, is reported and counted without a visit;
// an open goes its own way, without what only the other calls need. It relies on the contracts of the crates that it calls alone.
#![tactic(auto)]

ghost use Rattle.std.specs.Prelude.{◌≡◌};
ghost use Rattle.agent_rules.specs.declared.Answer.TheVariants.{Waiting};
ghost use Rattle.board_call.specs.declared.Call.TheVariants.{Step};
ghost use Rattle.board_rules.specs.Answers.{said_of};
ghost use Rattle.board_rules.specs.declared.Answer.TheVariants.{Told};
ghost use Rattle.run_entry.specs.Entry.{put_of};
ghost use Rattle.run_play.specs.Comes.{Comes};

use board_call::Call;
use board_rules::Found;
use board_slots::Board;
use run_rules::Ending;
use run_turn::Turned;
use schedule_bytes::Next;

// What a run came to.
#[derive(Clone, Copy)]
pub struct Ran {
    pub ending: Ending,
    pub records: usize,
    pub bytes: usize,
    pub verbs: usize,
    pub board: Board,
}

// Writes the entry of a step of slot n that goes on waiting, by a place, as `put_of` does.
fn put_waiting(report: &mut [u8], at: usize, n: usize, ahead: u64)
    ensures { report.new ≡ put_of report.old at (said_of (Step n) (Told (Waiting ahead))) }
{
    run_entry::put(
        report,
        at,
        board_numbers::tell(
            Call::Step(n as u64),
            board_rules::Answer::Told(agent_rules::Answer::Waiting(ahead)),
        ),
    );
}

// Plays the schedule from a place on, within an allowance of records and the room of the report. Schedule and place are two: who runs on is told by
// `Ran` how many bytes were taken. It stays above 40 lines: a function for a part
// of its loop would take the board and copy it, and one for the two tests ahead costs each step a fifth more instructions. Tried: the stores of both
// ways behind them, once, cost an open a fifth more and a step an eighth (docs/PERFORMANCE.md).
#[tactic(auto, using(board_rules::proofs::Visits::aim_small, board_visit_waiting::proofs::Waits::stepped_is))]
pub fn run(
    b: Board,
    words: &mut [u64],
    s: &[u8],
    at: usize,
    allowance: usize,
    report: &mut [u8],
) -> Ran
    ensures ran { Comes b words.old s.now at allowance report.old
        result words.new report.new }
{
    let mut cur = b;
    let mut map = board_map_kept::map_of(b);
    let mut place = at;
    let mut records: usize = 0;
    let mut verbs: usize = 0;
    // A loop: it counts no index, each record gives the next place.
    let ending = loop {
        let next = schedule_bytes::next_at(s, place);
        let room = report.len() - records * 12;
        if let Some(ending) = run_halts::halted(next, records == allowance, room) {
            break ending;
        }
        let Next::Record(o, after) = next else {
            break run_halts::left_by(next);
        };
        let k = records * 12;
        records += 1;
        place = after;
        if let Some(n) = board_visit_waiting::stepped(o) {
            let shut = cur.fenced[cur.nodes[n] as usize];
            if let Some(ahead) = board_visit_waiting::still_ahead(shut, cur.slots[n], words) {
                put_waiting(report, k, n, ahead);
                verbs += 1;
                continue;
            }
        }
        let c = board_gate::reported_as(o);
        let i = board_visit_aim::aim(c, map);
        let q = cur.slots[i]; // read ahead of the node: behind it, each step that goes on waiting takes 5 instructions more
        let node = cur.nodes[i];
        let g = board_gate::watched_node(o, node) as usize;
        let found = Found {
            slot: i,
            request: q,
            shut: cur.fenced[g],
        };
        let Call::Open(record, mode) = c else {
            let Turned {
                request,
                verbs: sent,
            } = run_turn::turn(o, found, words, report, k);
            cur.slots[i] = request;
            cur.nodes[i] = board_gate::kept_node(o, q, request, node);
            cur.fenced[g] = board_gate::fence_after(o, found.shut);
            map = board_map_kept::marked(map, i, q, request);
            verbs += sent;
            continue;
        };
        let opened = run_turn::open_turn(record, mode, found, words, report, k);
        cur.slots[i] = opened;
        cur.nodes[i] = board_gate::kept_node(o, q, opened, node);
        map = board_map_kept::marked(map, i, q, opened);
    };
    Ran {
        ending,
        records,
        bytes: place - at,
        verbs,
        board: cur,
    }
}
