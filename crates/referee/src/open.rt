// Opening: a fresh table of a set.
ghost use Rattle.rules.specs.Proposals.{opened};
ghost use Rattle.referee.specs.View.{view, seen};
ghost use Rattle.rules.specs.State.{fresh};
ghost use Rattle.std.specs.Prelude.{◌≡◌};

use super::{Outcome, Table};
use rules::{Answer, Kind, Record, Refusal};

// The fresh table of a set: record 0 alone, no log, all clocks 0.
fn fresh(set: u16) -> Table
    ensures { view result ≡ fresh set }
{
    let mut records = [records::blank(); 256];
    records[0] = Record {
        parent: 0,
        caller: 16,
        time: 0,
        version: 0,
        members: set,
        kind: Kind::Commit { voters: set },
    };
    Table {
        clocks: [0; 16],
        records,
        count: 1,
        log: [0; 256],
        length: 0,
    }
}

impl Table {
    // Opens with a set. Refused, it hands back the fresh table of set 1 beside its number.
    pub fn open(set: u16) -> Outcome
        ensures { seen result ≡ opened set }
    {
        if set == 0 {
            return Outcome {
                state: fresh(1),
                answer: Answer::Refused(Refusal::EmptySet),
            };
        }
        Outcome {
            state: fresh(set),
            answer: Answer::Accepted(0),
        }
    }
}
