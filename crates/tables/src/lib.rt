// The test for a table. Each clause is a function; none takes more steps than there are records, times the sixteen nodes.
#![tactic(auto)]

ghost use Rattle.std.specs.Prelude.{◌≡◌, reverse};
ghost use Rattle.rules.specs.Tree.{path};
ghost use Rattle.rules.specs.State.{entries, same, is_opening, shaped, all_shaped, timely, all_timely, is_table};
ghost use Rattle.tables.specs.Table.{concerns, commits_in, commits_along};

use paths::path;
use records::{above, at, called, holds, is_commit, is_entry};
use rules::{Kind, Record};
use searches::{last_commit, number_of};

// Is the record as opening with its own non-empty member set makes it? `==` with such a record would name the same fields.
#[tactic(auto, unfolding(rules::specs::State::is_opening, rules::specs::Nodes::empty))]
fn is_opening(r: Record) -> bool
    ensures { result ≡ is_opening r }
{
    r.parent == 0
        && r.caller == 16
        && r.time == 0
        && r.version == 0
        && r.kind == Kind::Commit { voters: r.members }
        && r.members != 0
}

// Is a record other than record 0 well shaped?
#[tactic(auto, unfolding(rules::specs::State::shaped, rules::specs::Nodes::nodes, rules::specs::Nodes::empty))]
fn shaped(records: &[Record], r: Record) -> bool
    ensures { result ≡ shaped records.now r }
{
    let parent = usize::from(r.parent);
    r.caller < 16 && r.members != 0 && parent < records.len() && above(r, at(records, parent))
}

// Is every record but record 0 well shaped?
fn all_shaped(records: &[Record]) -> bool
    ensures { result ≡ all_shaped records.now }
{
    records
        .iter()
        .enumerate()
        .all(|(i, &r)| i == 0 || shaped(records, r))
}

// Does the node hold record r, whose number is i, or did it call it?
#[tactic(auto, unfolding(crate::specs::Table::concerns))]
fn concerns(i: usize, r: Record, node: usize) -> bool
    ensures { result ≡ concerns i r node }
{
    holds(i, r, node) || called(r, node)
}

// Is no clock of a node that holds or called the record less than its time?
fn timely(clocks: [u32; 16], i: usize, r: Record) -> bool
    ensures { result ≡ timely clocks i r }
{
    clocks
        .iter()
        .enumerate()
        .all(|(node, &clock)| r.time <= clock || !concerns(i, r, node))
}

// Is that so of every record?
fn all_timely(clocks: [u32; 16], records: &[Record]) -> bool
    ensures { result ≡ all_timely clocks records.now }
{
    records
        .iter()
        .enumerate()
        .all(|(i, &r)| timely(clocks, i, r))
}

// How many commits are there?
fn commits_in(records: &[Record]) -> usize
    ensures { result ≡ commits_in records.now }
{
    records.iter().filter(|&&r| is_commit(r)).count()
}

// How many commits are on the path of record i?
fn commits_along(records: &[Record], i: usize) -> usize
    ensures { result ≡ commits_along records.now (path records.now i) }
{
    path(records, i)
        .filter(|&j| is_commit(at(records, j)))
        .count()
}

// Is the log the commands and changes on the path of record i, oldest first? It is read backwards on the way up.
// There is no From of a u32 to a usize.
fn log_along(log: &[u32], records: &[Record], i: usize) -> bool
    ensures { result ≡ same log.now (reverse (entries records.now (path records.now i))) }
{
    path(records, i)
        .filter(|&j| is_entry(at(records, j)))
        .eq(log.iter().rev().map(|&n| n as usize))
}

// Do clocks, records and log make a table?
#[tactic(auto, using(std::proofs::lemmas::Bool::Decides::nat_tests, crate::proofs::Tested::by_count))]
pub fn is_table(clocks: [u32; 16], records: &[Record], log: &[u32]) -> bool
    ensures { result ≡ is_table (record { clocks = clocks; records = records.now; log = log.now }) }
{
    if !(1..=256).contains(&records.len())
        || !is_opening(at(records, 0))
        || !all_shaped(records)
        || !all_timely(clocks, records)
    {
        return false;
    }
    let last = number_of(last_commit(records));
    commits_along(records, last) == commits_in(records) && log_along(log, records, last)
}
