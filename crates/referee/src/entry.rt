// Invoke and reconfigure: a leader adds an entry under its head, a command or a change of members.
ghost use Rattle.std.specs.Prelude.{◌≡◌};
ghost use Rattle.rules.specs.Proposals.{invoke, reconfigure};
ghost use Rattle.referee.specs.View.{view, seen, outcome, Meets};
ghost use Rattle.referee.specs.Tested.{tested};
ghost use Rattle.referee.specs.Rest.{grown_on, changed_on};

use super::tested::{Tested, node};
use super::{Done, Outcome, Table};
use rules::{Kind, Record, Refusal};

impl Table {
    pub fn invoke(self, caller: u32, number: u32) -> Outcome
        ensures { Meets self (invoke (view self) caller number) result }
    {
        self.answered(self.invoked(caller, number))
    }

    // Refusals 16, 2 and 6, and the growth.
    #[tactic(auto, unfolding(rules::specs::Proposals::invoke, rules::specs::Proposals::invoke_on, crate::specs::Rest::grown_on))]
    fn invoked(&self, caller: u32, number: u32) -> Result<Done, Refusal>
        ensures { seen (outcome self.now result) ≡ invoke (view self.now) caller number }
    {
        let table = self.tested()?;
        let caller = node(caller)?;
        let (i, h) = table.head(caller)?;
        table.grow(i, h, caller, h.members, Kind::Command { number })
    }

    pub fn reconfigure(self, caller: u32, new: u16) -> Outcome
        ensures { Meets self (reconfigure (view self) caller new) result }
    {
        self.answered(self.reconfigured(caller, new))
    }

    // Refusals 16, 2, 1 and 6, and the change.
    #[tactic(auto, using(crate::proofs::Heads::reconfigure_rest), unfolding(rules::specs::Proposals::reconfigure, rules::specs::Proposals::reconfigure_on, rules::specs::Nodes::empty))]
    fn reconfigured(&self, caller: u32, new: u16) -> Result<Done, Refusal>
        ensures { seen (outcome self.now result) ≡ reconfigure (view self.now) caller new }
    {
        let table = self.tested()?;
        let caller = node(caller)?;
        if new == 0 {
            return Err(Refusal::EmptySet);
        }
        let (i, h) = table.head(caller)?;
        table.change(i, h, caller, new)
    }
}

// A record and its number come as two arguments, as the definitions of `Rest` take them.
impl Tested<'_> {
    // The rest of a reconfigure, under head h, whose number is i: refusals 3, 9, 10 and 11, and the growth.
    #[tactic(auto, using(paths::proofs::Whole::open_whole, paths::proofs::Whole::commit_whole), unfolding(crate::specs::Rest::changed_on))]
    fn change(self, i: u8, h: Record, caller: u8, new: u16) -> Result<Done, Refusal>
        ensures { seen (outcome self.entry.table.now result) ≡ changed_on (tested self.entry) i h caller new }
    {
        if !nodes::has(new, usize::from(caller)) {
            return Err(Refusal::CallerAbsent);
        }
        if !nodes::next(h.members, new) {
            return Err(Refusal::NotNext);
        }
        if paths::open_change(self.records, self.records.len(), usize::from(i)) {
            return Err(Refusal::OpenChange);
        }
        if !paths::commit_of_time(self.records, self.records.len(), h.time, usize::from(i)) {
            return Err(Refusal::NoCommitYet);
        }
        self.grow(i, h, caller, new, Kind::Change)
    }

    // The growth of a branch under head h, whose number is i: refusals 13 and 12, and the entry.
    #[tactic(auto, using(crate::proofs::Structs::placed_same), unfolding(crate::specs::Rest::grown_on))]
    fn grow(self, i: u8, h: Record, caller: u8, members: u16, kind: Kind) -> Result<Done, Refusal>
        ensures { seen (outcome self.entry.table.now result) ≡ grown_on (tested self.entry) i h caller members kind }
    {
        let version = h.version.checked_add(1).ok_or(Refusal::VersionsOut)?;
        self.table.add(Record {
            parent: i,
            caller,
            time: h.time,
            version,
            members,
            kind,
        })
    }
}
