// Walks up a path, from a record by parents to record 0. A walk meets at most `steps` records, so none goes on for ever; with as many steps
// as there are records it is the record's path.
#![tactic(auto)]

ghost use Rattle.std.specs.Prelude.{◌≡◌, length};
ghost use Rattle.std.specs.Iterator.{YieldsFirst, item_count};
ghost use Rattle.rules.specs.Tree.{path_of, path, among, open_along, commit_along};
ghost use Rattle.paths.specs.Onward.{onward};

use records::{at, is_change, is_commit};
use rules::Record;

// A walk up a path: how many records it may still meet, and the number of the next.
#[derive(Drop)]
pub struct Walk<'a> {
    records: &'a [Record],
    steps: usize,
    next: usize,
}

impl<'a> Iterator for Walk<'a> {
    type Item = usize;

    ghost next_gives = { YieldsFirst onward };

    ghost remaining = { item_count onward };

    fn next(&mut self) -> Option<usize> {
        if self.steps == 0 {
            return None;
        }
        let i = self.next;
        self.next = usize::from(at(self.records, i).parent);
        self.steps = if i == 0 { 0 } else { self.steps - 1 };
        Some(i)
    }
}

// At most `steps` records from record i by parents to record 0, both included: for any number of steps, what a search along it finds.
pub fn path_of(records: &[Record], steps: usize, i: usize) -> Walk<'_>
    ensures meets { onward result ≡ path_of records.now steps i }
    ensures begins { result ≡ record { records = records.entry; steps = steps; next = i } }
{
    Walk {
        records,
        steps,
        next: i,
    }
}

// The path of record i.
#[tactic(auto, unfolding(rules::specs::Tree::path))]
pub fn path(records: &[Record], i: usize) -> Walk<'_>
    ensures meets { onward result ≡ path records.now i }
    ensures begins { result ≡ record { records = records.entry; steps = length records.now; next = i } }
{
    path_of(records, records.len(), i)
}

// Is record a among the first `steps` records of the path of record i?
pub fn on_path(records: &[Record], steps: usize, a: usize, i: usize) -> bool
    ensures { result ≡ among a (path_of records.now steps i) }
{
    path_of(records, steps, i).any(|j| a == j)
}

// Have these records an open change? The search leaves the path at the first commit or change it meets.
// A loop broken with its value: document 01's list of forms names it.
pub fn open_change(records: &[Record], steps: usize, i: usize) -> bool
    ensures { result ≡ open_along records.now (path_of records.now steps i) }
{
    let mut up = path_of(records, steps, i);
    let open = loop {
        let Some(j) = up.next() else {
            break false;
        };
        let r = at(records, j);
        if is_commit(r) {
            break false;
        }
        if is_change(r) {
            break true;
        }
    };
    open
}

// Have these records a commit of this time?
pub fn commit_of_time(records: &[Record], steps: usize, time: u32, i: usize) -> bool
    ensures { result ≡ commit_along records.now time (path_of records.now steps i) }
{
    path_of(records, steps, i)
        .map(|j| at(records, j))
        .any(|r| is_commit(r) && r.time == time)
}
