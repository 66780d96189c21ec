// One record, or two: its kind, who holds it, which is above the other.
#![tactic(auto)]

ghost use Rattle.std.specs.Prelude.{◌≡◌};
ghost use Rattle.rules.specs.Records.{blank, at, is_commit, is_change, is_entry, above, holds, called};
ghost use Rattle.rules.specs.Tree.{later};
ghost use Rattle.records.specs.Used.{used};

use rules::{Kind, Record};

// What a place holds before a record is put there.
pub fn blank() -> Record
    ensures { result ≡ blank }
{
    Record {
        parent: 0,
        caller: 0,
        time: 0,
        version: 0,
        members: 0,
        kind: Kind::Election { voters: 0 },
    }
}

// The record that has a number; a blank one where none has it.
pub fn at(records: &[Record], i: usize) -> Record
    ensures { result ≡ at records.now i }
{
    records.get(i).copied().unwrap_or(blank())
}

pub fn is_commit(r: Record) -> bool
    ensures { result ≡ is_commit r }
{
    matches!(r.kind, Kind::Commit { .. })
}

pub fn is_change(r: Record) -> bool
    ensures { result ≡ is_change r }
{
    matches!(r.kind, Kind::Change)
}

// A command or a change?
pub fn is_entry(r: Record) -> bool
    ensures { result ≡ is_entry r }
{
    matches!(r.kind, Kind::Command { .. } | Kind::Change)
}

// Is a above b: by time, then by version, then a commit above a record that is no commit?
pub fn above(a: Record, b: Record) -> bool
    ensures { result ≡ above a b }
{
    (a.time, a.version, is_commit(a)) > (b.time, b.version, is_commit(b))
}

// Does the node hold record r, whose number is i?
#[tactic(auto, unfolding(rules::specs::Records::holds, rules::specs::Records::called))]
pub fn holds(i: usize, r: Record, node: usize) -> bool
    ensures { result ≡ holds i r node }
{
    match r.kind {
        _ if i == 0 => true,
        Kind::Commit { voters } => nodes::has(voters, node),
        Kind::Election { .. } | Kind::Command { .. } | Kind::Change => called(r, node),
    }
}

// Did the node call the record?
#[tactic(auto, unfolding(rules::specs::Records::called))]
pub fn called(r: Record, node: usize) -> bool
    ensures { result ≡ called r node }
{
    usize::from(r.caller) == node
}

// The later of what was found and record r with number i. Of equal ones the first found stays.
pub fn later(best: Option<(usize, Record)>, i: usize, r: Record) -> Option<(usize, Record)>
    ensures { result ≡ later best i r }
{
    match best {
        Some((_, b)) if !above(r, b) => best,
        _ => Some((i, r)),
    }
}

// How many of the 256 places are in use.
#[tactic(auto, using(crate::proofs::Places::used_is))]
pub fn used(count: usize) -> usize
    ensures { result ≡ used count }
{
    count.min(256)
}
