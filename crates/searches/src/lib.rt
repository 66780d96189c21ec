// Searches among the records in use: a base, a head, the latest commit, a commit that supersedes a target.
#![tactic(auto)]

ghost use Rattle.std.specs.Prelude.{◌≡◌, Bool};
ghost use Rattle.rules.specs.declared.Record.{Record};
ghost use Rattle.rules.specs.Tree.{number_of, latest, base, last_called, last_commit};
ghost use Rattle.rules.specs.Proposals.{supersedes, superseded};
ghost use Rattle.searches.specs.Tests.{Answers};

use records::{called, holds, is_commit, later};
use rules::Record;

// The number of what was found; 0 where nothing was, as the definition has it.
pub fn number_of(found: Option<(usize, Record)>) -> usize
    ensures { result ≡ number_of found }
{
    found.map_or(0, |(i, _)| i)
}

// The latest record held by any voter. Labelled nested loops: document 01's list of forms names them.
#[tactic(auto, using(rules::proofs::Held::held_by_one, rules::proofs::Held::held_by_none), unfolding(rules::specs::Tree::base, rules::specs::Tree::latest))]
pub fn base(records: &[Record], voters: u16) -> Option<(usize, Record)>
    ensures { result ≡ base records.now voters }
{
    let mut best = None;
    'records: for (i, &r) in records.iter().enumerate() {
        for node in 0..16 {
            if nodes::has(voters, node) && holds(i, r, node) {
                best = later(best, i, r);
                continue 'records;
            }
        }
    }
    best
}

// The latest of the records that pass a test.
#[tactic(auto, unfolding(rules::specs::Tree::latest))]
fn latest<F: Fn(Record) -> bool>(records: &[Record], wanted: F) -> Option<(usize, Record)>
    requires { F.IsAlwaysCallable wanted }
    ensures { (test : Record → Bool) → Answers (F.post wanted) test records.now → result ≡ latest (λ i r. test r) records.now }
{
    let mut best = None;
    for (i, &r) in records.iter().enumerate() {
        if wanted(r) {
            best = later(best, i, r);
        }
    }
    best
}

// The latest record that the node called.
pub fn last_called(records: &[Record], node: usize) -> Option<(usize, Record)>
    ensures { result ≡ last_called records.now node }
{
    latest(records, |r| called(r, node))
}

// The latest commit.
pub fn last_commit(records: &[Record]) -> Option<(usize, Record)>
    ensures { result ≡ last_commit records.now }
{
    latest(records, is_commit)
}

// Is the record a commit of this caller and the target's time, with a version at or past the target's?
#[tactic(auto, unfolding(rules::specs::Proposals::supersedes))]
fn supersedes(r: Record, caller: usize, t: Record) -> bool
    ensures { result ≡ supersedes r caller t }
{
    is_commit(r) && called(r, caller) && r.time == t.time && t.version <= r.version
}

// Has a commit of this caller and the target's time a version at or past the target's?
pub fn superseded(records: &[Record], caller: usize, t: Record) -> bool
    ensures { result ≡ superseded records.now caller t }
{
    records.iter().any(|&r| supersedes(r, caller, t))
}
