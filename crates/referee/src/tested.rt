// A state that passed the test: its records and its log's entries, and who leads.
ghost use Rattle.std.specs.Prelude.{◌≡◌, ◌≤◌, true, length, MatchResult};
ghost use Rattle.rules.specs.State.{is_table};
ghost use Rattle.referee.specs.View.{view, Fails};
ghost use Rattle.referee.specs.Rest.{node_of};

use super::Table;
use rules::{Record, Refusal};

// A state that passed the test: its clocks, its records in use and its log's entries.
#[derive(Clone, Copy)]
pub(super) struct Tested<'a> {
    pub(super) table: &'a Table,
    pub(super) clocks: [u32; 16],
    pub(super) records: &'a [Record],
    pub(super) log: &'a [u32],
    ghost sound: { is_table (view table.now) ≡ true },
    ghost places: { length table.now.records ≡ 256 },
    ghost pages: { length table.now.log ≡ 256 },
    ghost few: { length records.now ≤ 256 },
    ghost short: { length log.now ≤ 256 },
    ghost all_clocks: { clocks ≡ (view table.now).clocks },
    ghost in_use: { records.now ≡ (view table.now).records },
    ghost entries: { log.now ≡ (view table.now).log },
}

// The node that a caller's number stands for; 2 where it is over 15. After the test the cast is proved to fit.
pub(super) fn node(caller: u32) -> Result<u8, Refusal>
    ensures { result ≡ node_of caller }
{
    if caller > 15 {
        return Err(Refusal::NoSuchCaller);
    }
    Ok(caller as u8)
}

impl Table {
    // The state as a table; 16 where it is none.
    #[tactic(auto, using(tables::proofs::Tested::too_many, tables::proofs::Tested::too_long, crate::proofs::Structs::view_is))]
    pub(super) fn tested(&self) -> Result<Tested<'_>, Refusal>
        ensures { MatchResult result (λ w. w.table.now ≡ self.now) (Fails (view self.now)) }
    {
        let records = self.records.get(..self.count).ok_or(Refusal::NoTable)?;
        let log = self.log.get(..self.length).ok_or(Refusal::NoTable)?;
        if !tables::is_table(self.clocks, records, log) {
            return Err(Refusal::NoTable);
        }
        Ok(Tested {
            table: self,
            clocks: self.clocks,
            records,
            log,
        })
    }
}

impl<'a> Tested<'a> {
    ghost use Rattle.rules.specs.Clocks.{clock};
    ghost use Rattle.referee.specs.Tested.{tested};
    ghost use Rattle.referee.specs.Rest.{head_of};

    // The clock of a node.
    pub(super) fn clock(self, node: u8) -> u32
        ensures { result ≡ clock (tested self.entry).clocks node }
    {
        self.clocks.get(usize::from(node)).copied().unwrap_or(0)
    }

    // The head of a node, with its number, which is proved to be below 256; 6 where the node doesn't lead.
    #[tactic(auto, using(crate::proofs::Heads::leads_none, crate::proofs::Heads::leads_by, rules::proofs::Searches::called_small))]
    pub(super) fn head(self, caller: u8) -> Result<(u8, Record), Refusal>
        ensures { result ≡ head_of (tested self.entry) caller }
    {
        let Some((i, h)) = searches::last_called(self.records, usize::from(caller)) else {
            return Err(Refusal::NotLeading);
        };
        if h.time != self.clock(caller) {
            return Err(Refusal::NotLeading);
        }
        Ok((i as u8, h))
    }
}
