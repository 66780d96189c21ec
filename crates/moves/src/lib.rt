// What a push moves: the children of its target, and the entries that the log gains.
#![tactic(auto)]

ghost use Rattle.std.specs.Prelude.{◌≡◌, length, map};
ghost use Rattle.rules.specs.Tree.{path_of};
ghost use Rattle.rules.specs.State.{entries};
ghost use Rattle.rules.specs.Proposals.{adopted, before};
ghost use Rattle.moves.specs.Moves.{written};

use paths::path_of;
use records::{at, is_entry};
use rules::Record;

// Every child of the target becomes a child of the new record.
#[tactic(auto, using(crate::proofs::Adoption::child_more, crate::proofs::Adoption::other_more))]
pub fn adopt(records: &mut [Record], target: u8, new: u8)
    ensures { records.new ≡ map (adopted target new) records.old }
{
    for r in records.iter_mut() {
        if r.parent == target {
            r.parent = new;
        }
    }
}

// How many commands and changes are among the first `steps` records of the path of record i, before it comes to record `stop`?
pub fn gains(records: &[Record], steps: usize, stop: usize, i: usize) -> usize
    ensures { result ≡ length (entries records.now (before stop (path_of records.now steps i))) }
{
    path_of(records, steps, i)
        .take_while(|&j| j != stop)
        .filter(|&j| is_entry(at(records, j)))
        .count()
}

// Writes those entries to the log: the newest just before place `end`, and each further one before it. What falls past the log is left out.
#[tactic(auto, using(crate::proofs::Written::walk_small, crate::proofs::Written::rest_small, crate::proofs::Written::written_past))]
pub fn write_gained(
    log: &mut [u32],
    end: usize,
    records: &[Record],
    steps: usize,
    stop: usize,
    i: u8,
)
    ensures { log.new ≡ written log.old end (entries records.now (before stop (path_of records.now steps i))) }
{
    // A loop, not `gains`' chain: that a number fits in a u32 follows from the parent that was read before it.
    let mut place = end;
    for j in path_of(records, steps, usize::from(i)) {
        if j == stop || place == 0 {
            break;
        }
        if is_entry(at(records, j)) {
            place -= 1;
            if place < log.len() {
                log[place] = j as u32;
            }
        }
    }
}
