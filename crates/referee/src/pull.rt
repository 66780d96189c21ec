// Pull: a node calls an election under the latest record that any of its voters holds.
ghost use Rattle.std.specs.Prelude.{◌≡◌};
ghost use Rattle.rules.specs.Proposals.{pull};
ghost use Rattle.referee.specs.View.{view, seen, outcome, Meets};
ghost use Rattle.referee.specs.Tested.{tested};
ghost use Rattle.referee.specs.Rest.{elected_on};

use super::tested::{Tested, node};
use super::{Done, Outcome, Table};
use rules::{Kind, Record, Refusal};

impl Table {
    pub fn pull(self, caller: u32, voters: u16, time: u32) -> Outcome
        ensures { Meets self (pull (view self) caller voters time) result }
    {
        self.answered(self.pulled(caller, voters, time))
    }

    // Refusals 16, 2, 3 and 5, and the base, which falls back to record 0. Its number is below 256, which is proved at the cast.
    #[tactic(auto, using(rules::proofs::Searches::base_small), unfolding(rules::specs::Proposals::pull, rules::specs::Proposals::pull_on, crate::specs::Rest::elected_on))]
    fn pulled(&self, caller: u32, voters: u16, time: u32) -> Result<Done, Refusal>
        ensures { seen (outcome self.now result) ≡ pull (view self.now) caller voters time }
    {
        let table = self.tested()?;
        let caller = node(caller)?;
        if !nodes::has(voters, usize::from(caller)) {
            return Err(Refusal::CallerAbsent);
        }
        if nodes::some_at_or_past(voters, time, table.clocks) {
            return Err(Refusal::ClockPast);
        }
        let Some((i, b)) = searches::base(table.records, voters) else {
            return table.elect(0, records::at(table.records, 0), caller, voters, time);
        };
        table.elect(i as u8, b, caller, voters, time)
    }
}

impl Tested<'_> {
    // The rest of a pull, under base b, whose number is i: refusals 4 and 12, and the vote.
    #[tactic(auto, using(crate::proofs::Structs::placed_voted, crate::proofs::Structs::view_voted), unfolding(crate::specs::Rest::elected_on))]
    fn elect(self, i: u8, b: Record, caller: u8, voters: u16, time: u32) -> Result<Done, Refusal>
        ensures { seen (outcome self.entry.table.now result) ≡ elected_on (tested self.entry) i b caller voters time }
    {
        if !nodes::within(voters, b.members) {
            return Err(Refusal::Stranger);
        }
        let after = self.table.voted(voters, time);
        if !nodes::quorum(voters, b.members) {
            return Ok((after, None));
        }
        after.add(Record {
            parent: i,
            caller,
            time,
            version: 0,
            members: b.members,
            kind: Kind::Election { voters },
        })
    }
}
