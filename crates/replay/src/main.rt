// Proposals from standard input, a line each, and their answers to standard output. At the end, the log.
// Its memory is fixed, whatever the input: no part of it is on the heap.
#![tactic(auto)]

ghost use Rattle.std.specs.Prelude.{◌≤◌};

use lines::Line;
use referee::{Outcome, Table};
use rules::{Answer, Proposal};
use std::io;
use std::io::{Read, Stdout, Write};

// Lines of output that wait to be written: the first bytes of the buffer, `length` of them.
#[derive(Drop)]
struct Output {
    bytes: [u8; 65536],
    length: usize,
    ghost within: { length ≤ 65536 },
}

#[tactic(auto, using(std::proofs::lemmas::Grind::common_steps, lines::proofs::Laid::put_within))]
impl Output {
    fn put_answer(&mut self, answer: Answer) {
        self.length += lines::print(answer, &mut self.bytes[self.length..]);
    }

    fn put_bad(&mut self) {
        self.length += lines::print_bad(&mut self.bytes[self.length..]);
    }

    fn put_log(&mut self, log: &[u32]) {
        self.length += lines::print_log(log, &mut self.bytes[self.length..]);
    }

    fn write(&mut self, mut stdout: Stdout) -> io::Result<()> {
        let length = self.length;
        self.length = 0;
        stdout.write_all(&self.bytes[..length])
    }
}

// The present table, none before the first accepted opening, and the line begun, `length` bytes of it so far.
#[derive(Drop)]
struct Session {
    table: Option<Table>,
    line: [u8; 64],
    length: usize,
    ghost within: { length ≤ 64 },
}

impl Session {
    // An accepted opening begins a fresh table; a refused one leaves the present one.
    fn open(&mut self, set: u16, out: &mut Output) {
        let Outcome { state, answer } = Table::open(set);
        if let Answer::Accepted(_) = answer {
            self.table = Some(state);
        }
        out.put_answer(answer);
    }

    fn propose(&mut self, proposal: Proposal, out: &mut Output) {
        let Some(table) = self.table else {
            out.put_bad();
            return;
        };
        let Outcome { state, answer } = proposed(table, proposal);
        self.table = Some(state);
        out.put_answer(answer);
    }

    // The line's end: its answer goes to the output, and a new line begins.
    fn answer(&mut self, out: &mut Output) {
        let asked = lines::parse(&self.line[..self.length]);
        self.length = 0;
        match asked {
            Some(Line::Open(set)) => self.open(set, out),
            Some(Line::Propose(proposal)) => self.propose(proposal, out),
            None => out.put_bad(),
        }
    }

    // One byte more. Of a line that is too long the first 64 bytes are kept, which are too many.
    fn take(&mut self, byte: u8, out: &mut Output) {
        if byte == b'\n' {
            self.answer(out);
        } else if self.length < 64 {
            self.line[self.length] = byte;
            self.length += 1;
        }
    }

    // A part of the input, byte by byte.
    fn feed(&mut self, input: &[u8], out: &mut Output) {
        for &byte in input {
            self.take(byte, out);
        }
    }

    // The end of the input: a line without its newline counts.
    fn finish(&mut self, out: &mut Output) {
        if self.length > 0 {
            self.answer(out);
        }
    }

    // The present table's log, the last line of the output.
    fn put_log(&mut self, out: &mut Output) {
        let Some(table) = self.table else {
            out.put_log(&[]);
            return;
        };
        let mut entries = [0u32; 256];
        if let Ok(n) = table.copy_log(&mut entries)
            && let Some(log) = entries.get(..n as usize)
        {
            out.put_log(log);
        }
    }
}

// The table after a proposal, and the answer.
fn proposed(t: Table, proposal: Proposal) -> Outcome {
    match proposal {
        Proposal::Pull {
            caller,
            voters,
            time,
        } => t.pull(caller, voters, time),
        Proposal::Invoke { caller, number } => t.invoke(caller, number),
        Proposal::Reconfigure { caller, members } => t.reconfigure(caller, members),
        Proposal::Push {
            caller,
            voters,
            target,
        } => t.push(caller, voters, target),
    }
}

// Reads the input part by part and writes the answers of each. A read that fails ends the input; a write that fails, the program.
fn main(rt: HostRuntime) {
    let mut input = [0u8; 4096];
    let mut out = Output {
        bytes: [0u8; 65536],
        length: 0,
    };
    let mut session = Session {
        table: None,
        line: [0u8; 64],
        length: 0,
    };
    // A proved loop has to end, and nothing says that the input does: no run comes to this many parts.
    for _ in 0..u64::MAX {
        match rt.stdin().read(&mut input) {
            Ok(0) | Err(_) => break,
            Ok(n) => session.feed(&input[..n], &mut out),
        }
        if out.write(rt.stdout()).is_err() {
            return;
        }
    }
    session.finish(&mut out);
    // The log is written even where the answer before it could not be.
    let _ = out.write(rt.stdout());
    session.put_log(&mut out);
    let _ = out.write(rt.stdout());
}
