// Shows each refusal coming out of the built code: by proposals, by states built by hand, and by readings.
#![tactic(auto)]

use referee::{Outcome, Table};
use rules::{Answer, Kind, Record, Refusal};
use std::io;
use std::io::Stdout;

// Prints what was tried and what was answered.
fn show(out: Stdout, tried: &str, o: Outcome) -> io::Result<()> {
    match o.answer {
        Answer::Accepted(n) => println!(out; "{tried}: A {n}"),
        Answer::Short => println!(out; "{tried}: U"),
        Answer::Refused(refusal) => refused(out, tried, refusal),
    }
}

fn refused(out: Stdout, tried: &str, refusal: Refusal) -> io::Result<()> {
    let n = lines::number(refusal);
    println!(out; "{tried}: X {n}")
}

// A reading: what the number is, as "time ", and the number; or its refusal.
fn tell(out: Stdout, tried: &str, what: &str, reading: Result<u32, Refusal>) -> io::Result<()> {
    match reading {
        Ok(n) => println!(out; "{tried}: {what}{n}"),
        Err(refusal) => refused(out, tried, refusal),
    }
}

// Opening, and the refusals of a fresh table.
fn at_first(out: Stdout) -> io::Result<()> {
    show(out, "open with no node", Table::open(0))?;
    let opened = Table::open(7);
    show(out, "open with nodes 0 to 2", opened)?;
    let t = opened.state;
    show(out, "pull by caller 16", t.pull(16, 1, 1))?;
    show(out, "pull by a caller that doesn't vote", t.pull(0, 6, 1))?;
    show(out, "pull for time 0", t.pull(0, 3, 0))?;
    show(out, "pull with a stranger", t.pull(0, 9, 1))?;
    show(out, "pull with one of three", t.pull(0, 1, 1))?;
    show(out, "invoke by no leader", t.invoke(0, 500))?;
    tell(out, "record 0", "time ", t.record(0).map(|r| r.time))?;
    tell(out, "record 1 of one", "time ", t.record(1).map(|r| r.time))
}

// A leader before its first commit.
fn elected(out: Stdout, t: Table) -> io::Result<()> {
    let won = t.pull(0, 3, 1);
    show(out, "pull with two of three", won)?;
    let led = won.state;
    show(out, "push of an election", led.push(0, 3, 1))?;
    show(out, "change to no node", led.reconfigure(0, 0))?;
    show(
        out,
        "change to a set without the caller",
        led.reconfigure(0, 6),
    )?;
    show(out, "change by two nodes", led.reconfigure(0, 31))?;
    show(out, "change before a commit", led.reconfigure(0, 15))
}

// A leader that committed, and what can be read then.
fn committed(out: Stdout, t: Table) -> io::Result<()> {
    let pushed = t.push(0, 3, 2);
    show(out, "push with two of three", pushed)?;
    let after = pushed.state;
    show(out, "push of it again", after.push(0, 3, 2))?;
    let changed = after.reconfigure(0, 15);
    show(out, "change by one node", changed)?;
    let open = changed.state;
    show(out, "a second change", open.reconfigure(0, 31))?;
    tell(out, "length of the log", "", after.log_length())?;
    tell(out, "entry 0 of the log", "", after.log_entry(0))?;
    tell(out, "entry 1 of one", "", after.log_entry(1))?;
    tell(out, "clock of node 1", "", after.clock(1))?;
    tell(out, "clock of node 16", "", after.clock(16))
}

// The log copied to a lent buffer: further places keep what they had.
fn copied(out: Stdout, t: Table) -> io::Result<()> {
    let mut none = [0u32; 0];
    tell(out, "log copied to no place", "", t.copy_log(&mut none))?;
    let mut two = [9u32; 2];
    tell(out, "log copied to two places", "", t.copy_log(&mut two))?;
    let [first, second] = two;
    println!(out; "the first then holds {first}")?;
    println!(out; "the second still holds {second}")
}

fn record(parent: u8, caller: u8, time: u32, version: u8, kind: Kind) -> Record {
    Record {
        parent,
        caller,
        time,
        version,
        members: 7,
        kind,
    }
}

// A table whose head has the last version.
fn last_version(out: Stdout, t: Table) -> io::Result<()> {
    let mut hand = t;
    hand.records[1] = record(0, 0, 1, 255, Kind::Command { number: 0 });
    hand.count = 2;
    hand.clocks[0] = 1;
    show(out, "invoke after version 255", hand.invoke(0, 1))?;
    show(out, "the same with its clock behind", damaged_clock(hand))
}

fn damaged_clock(t: Table) -> Outcome {
    let mut hand = t;
    hand.clocks[0] = 0;
    hand.invoke(0, 1)
}

// A table whose latest commit is on another branch than the target.
fn other_branch(out: Stdout, t: Table) -> io::Result<()> {
    let mut hand = t;
    hand.records[1] = record(0, 1, 1, 1, Kind::Command { number: 0 });
    hand.records[2] = record(1, 1, 1, 1, Kind::Commit { voters: 2 });
    hand.records[3] = record(0, 0, 2, 0, Kind::Election { voters: 5 });
    hand.records[4] = record(3, 0, 2, 1, Kind::Command { number: 0 });
    hand.count = 5;
    hand.clocks[0] = 2;
    hand.clocks[1] = 1;
    hand.log[0] = 1;
    hand.length = 1;
    show(
        out,
        "push off the branch of the latest commit",
        hand.push(0, 5, 4),
    )?;
    hand.records[5] = record(4, 0, 2, 1, Kind::Commit { voters: 1 });
    hand.count = 6;
    show(out, "two branches of commits", hand.invoke(0, 1))
}

// States that are no tables.
fn damaged(out: Stdout, t: Table) -> io::Result<()> {
    let mut hand = t;
    hand.count = 0;
    show(out, "no record", hand.pull(0, 3, 1))?;
    hand.count = 300;
    show(out, "300 records", hand.pull(0, 3, 1))?;
    hand.count = 1;
    hand.length = 300;
    show(out, "300 entries", hand.pull(0, 3, 1))?;
    hand.length = 1;
    show(out, "an entry too many", hand.pull(0, 3, 1))?;
    tell(out, "reading it", "", hand.log_length())?;
    hand.length = 0;
    hand.records[1] = record(2, 0, 1, 0, Kind::Election { voters: 3 });
    hand.records[2] = record(1, 0, 1, 0, Kind::Election { voters: 3 });
    hand.count = 3;
    show(out, "parents in a ring", hand.pull(0, 3, 1))?;
    hand.count = 1;
    hand.records[0] = record(0, 0, 0, 0, Kind::Commit { voters: 7 });
    show(out, "record 0 altered", hand.pull(0, 3, 1))
}

fn main(rt: HostRuntime) -> io::Result<()> {
    let out = rt.stdout();
    at_first(out)?;
    let t = Table::open(7).state;
    elected(out, t)?;
    let led = t.pull(0, 3, 1).state;
    let entered = led.invoke(0, 500).state;
    committed(out, entered)?;
    copied(out, entered.push(0, 3, 2).state)?;
    last_version(out, t)?;
    other_branch(out, t)?;
    damaged(out, t)?;
    filled(out, entered)
}

// The table after so many entries that it is full.
fn fill(t: Table) -> Table {
    let mut full = t;
    for _ in 0..256 {
        full = full.invoke(0, 1).state;
    }
    full
}

// A full table takes no entry; a short vote needs no place.
fn filled(out: Stdout, t: Table) -> io::Result<()> {
    let full = fill(t);
    show(out, "invoke on a full table", full.invoke(0, 1))?;
    show(out, "a short vote on it", full.pull(1, 2, 2))
}
