// The referee: a table of records by value, and the proposals as methods that hand the state back with the answer beside it.
// Any state and any values get the answer or the numbered refusal that rules defines; a refusal hands back the very same struct.
#![tactic(auto)]

ghost use Rattle.std.specs.Prelude.{◌≡◌};
ghost use Rattle.rules.specs.State.{is_table};
ghost use Rattle.referee.specs.View.{view, outcome, placed, revoted};

mod entry; // entry.rt: invoke and reconfigure
mod open; // open.rt: opening
mod pull; // pull.rt: pull
mod push; // push.rt: push
mod reading; // reading.rt: readings
mod tested; // tested.rt: a state that passed the test

use rules::{Answer, Record, Refusal};

// Clocks, records and log. `count` and `length` say how many places of the last two are in use: document 01's list of forms has the
// table by value, with 256 places for each.
#[derive(Clone, Copy)]
pub struct Table {
    pub clocks: [u32; 16],
    pub records: [Record; 256],
    pub count: usize,
    pub log: [u32; 256],
    pub length: usize,
}

// The state handed back and the answer beside it.
#[derive(Clone, Copy)]
pub struct Outcome {
    pub state: Table,
    pub answer: Answer,
}

// What a proposal does where nothing refuses it: the state afterwards, and the number of the record added; none where the vote is short.
type Done = (Table, Option<u8>);

impl Table {
    // Is the state a table?
    pub fn is_table(self) -> bool
        ensures { result ≡ is_table (view self) }
    {
        self.tested().is_ok()
    }

    // The outcome of a proposal: what was done, or the state as it was beside the refusal.
    fn answered(self, done: Result<Done, Refusal>) -> Outcome
        ensures { result ≡ outcome self done }
    {
        let (state, answer) = match done {
            Ok((after, Some(n))) => (after, Answer::Accepted(n)),
            Ok((after, None)) => (after, Answer::Short),
            Err(refusal) => (self, Answer::Refused(refusal)),
        };
        Outcome { state, answer }
    }

    // The state after every voter's clock became the time.
    fn voted(self, voters: u16, time: u32) -> Table
        ensures { result ≡ revoted voters time self }
    {
        Table {
            clocks: nodes::moved(voters, time, self.clocks),
            ..self
        }
    }

    // A record added, with the next number; 12 where no place is left.
    fn add(self, r: Record) -> Result<Done, Refusal>
        ensures { result ≡ placed r self }
    {
        let n = u8::try_from(self.count).map_err(|_| Refusal::TableFull)?;
        let mut after = self;
        after.records[self.count] = r;
        after.count += 1;
        Ok((after, Some(n)))
    }
}
