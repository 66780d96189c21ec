// Push: a leader puts a commit between a target and the records under it.
ghost use Rattle.std.specs.Prelude.{◌≡◌, ◌+◌, ◌≤◌, ◌<◌, length, reverse};
ghost use Rattle.rules.specs.Tree.{path};
ghost use Rattle.rules.specs.State.{entries};
ghost use Rattle.rules.specs.Proposals.{push, before};
ghost use Rattle.referee.specs.View.{view, seen, outcome, extended, regrouped, Meets};
ghost use Rattle.referee.specs.Tested.{tested};
ghost use Rattle.referee.specs.Rest.{target_of, pushed_on, committed_on};

use super::tested::{Tested, node};
use super::{Done, Outcome, Table};
use rules::{Kind, Record, Refusal};

impl Table {
    pub fn push(self, caller: u32, voters: u16, target: u32) -> Outcome
        ensures { Meets self (push (view self) caller voters target) result }
    {
        self.answered(self.pushed(caller, voters, target))
    }

    // Refusals 16, 2, 6 and 7, and the rest.
    #[tactic(auto, using(crate::proofs::Targets::pushed_on_lem, crate::proofs::Targets::target_small), unfolding(rules::specs::Proposals::push, rules::specs::Proposals::push_on, crate::specs::Rest::pushed_on, crate::specs::Rest::committed_on))]
    fn pushed(&self, caller: u32, voters: u16, target: u32) -> Result<Done, Refusal>
        ensures { seen (outcome self.now result) ≡ push (view self.now) caller voters target }
    {
        let table = self.tested()?;
        let caller = node(caller)?;
        table.head(caller)?;
        let (target, t) = table.target(caller, target)?;
        table.push_on(t, caller, voters, target)
    }

    // The state after the log gained the commands and changes on the path from record `last` down to the target.
    #[tactic(auto, using(paths::proofs::Whole::path_whole, crate::proofs::Commits::extended_by))]
    fn gained(self, records: &[Record], last: usize, target: u8) -> Table
        requires fits { self.length + length (entries records.now (before last (path records.now target))) ≤ 256 }
        ensures { result ≡ extended (reverse (entries records.now (before last (path records.now target)))) self }
    {
        let steps = records.len();
        let end = self.length + moves::gains(records, steps, last, usize::from(target));
        let mut after = self;
        moves::write_gained(&mut after.log, end, records, steps, last, target);
        after.length = end;
        after
    }

    // The state after every child of the target became a child of a new record. Of `[..n]` the proof knows nothing afterwards, of `[0..n]` it does.
    #[tactic(auto, using(records::proofs::Places::used_small))]
    fn adopted(self, target: u8, new: u8) -> Table
        ensures { result ≡ regrouped target new self }
    {
        let n = records::used(self.count);
        let mut after = self;
        moves::adopt(&mut after.records[0..n], target, new);
        after
    }
}

impl Tested<'_> {
    // The target's number and record: a command or change of this caller, with the time of its clock; 7 where it is none.
    #[tactic(auto, unfolding(rules::specs::Proposals::bad_target))]
    fn target(self, caller: u8, target: u32) -> Result<(u8, Record), Refusal>
        ensures { result ≡ target_of (tested self.entry) caller target }
    {
        let target = u8::try_from(target).map_err(|_| Refusal::BadTarget)?;
        let Some(&t) = self.records.get(usize::from(target)) else {
            return Err(Refusal::BadTarget);
        };
        if !records::is_entry(t)
            || !records::called(t, usize::from(caller))
            || t.time != self.clock(caller)
        {
            return Err(Refusal::BadTarget);
        }
        Ok((target, t))
    }

    // The rest of a push of the target, whose record is t: refusals 8, 3, 4 and 5, and the vote.
    #[tactic(auto, using(crate::proofs::Structs::view_voted), unfolding(crate::specs::Rest::pushed_on))]
    fn push_on(self, t: Record, caller: u8, voters: u16, target: u8) -> Result<Done, Refusal>
        requires target_known { target < length self.records.now }
        ensures { seen (outcome self.entry.table.now result) ≡ pushed_on (tested self.entry) t caller voters target }
    {
        if searches::superseded(self.records, usize::from(caller), t) {
            return Err(Refusal::Superseded);
        }
        if !nodes::has(voters, usize::from(caller)) {
            return Err(Refusal::CallerAbsent);
        }
        if !nodes::within(voters, t.members) {
            return Err(Refusal::Stranger);
        }
        if nodes::some_past(voters, t.time, self.clocks) {
            return Err(Refusal::ClockPast);
        }
        if nodes::quorum(voters, t.members) {
            return self.commit(t, caller, voters, target);
        }
        Ok((self.table.voted(voters, t.time), None))
    }

    // A push that a majority votes for: refusals 17 and 12, and the commit.
    #[tactic(auto, using(paths::proofs::Whole::among_whole, crate::proofs::Commits::gain_fits, crate::proofs::Commits::moved_seen), unfolding(crate::specs::Rest::committed_on, rules::specs::Tree::latest_commit, rules::specs::State::full, rules::specs::State::places))]
    fn commit(self, t: Record, caller: u8, voters: u16, target: u8) -> Result<Done, Refusal>
        requires target_known { target < length self.records.now }
        ensures { seen (outcome self.entry.table.now result) ≡ committed_on (tested self.entry) t caller voters target }
    {
        let last = searches::number_of(searches::last_commit(self.records));
        if !paths::on_path(self.records, self.records.len(), last, usize::from(target)) {
            return Err(Refusal::OffBranch);
        }
        let n = u8::try_from(self.records.len()).map_err(|_| Refusal::TableFull)?;
        self.table
            .gained(self.records, last, target)
            .adopted(target, n)
            .voted(voters, t.time)
            .add(Record {
                parent: target,
                caller,
                time: t.time,
                version: t.version,
                members: t.members,
                kind: Kind::Commit { voters },
            })
    }
}
