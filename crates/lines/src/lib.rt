// The lines of document 01's replay program: what a line of input asks, and the bytes of each line of output.
#![tactic(auto)]

mod read; // read.rt: words, numerals and the parts of a line
mod write; // write.rt: bytes put into a lent buffer

ghost use Rattle.std.specs.Prelude.{◌≡◌};
ghost use Rattle.rules.specs.Refusals.{numbered};
ghost use Rattle.lines.specs.Words.{words};
ghost use Rattle.lines.specs.Numbers.{largest, largest_set};
ghost use Rattle.lines.specs.Parts.{one, two, three};
ghost use Rattle.lines.specs.Parse.{open_with, pull_of, invoke_of, reconfigure_of, push_of, lettered, parsed};
ghost use Rattle.lines.specs.Print.{answer_line, bad_line, log_line, outcome, put};

use rules::{Answer, Proposal, Refusal};

// What a line of input asks: to open with a set, or a proposal.
#[derive(Clone, Copy)]
pub enum Line {
    Open(u16),
    Propose(Proposal),
}

// `O set`, after the letter's space.
#[tactic(auto, using(crate::proofs::Parts::one_set))]
fn open_with(rest: &[u8]) -> Option<Line>
    ensures { result ≡ open_with (one largest_set (words rest.now)) }
{
    let set = read::only(rest)?;
    Some(Line::Open(u16::try_from(set).ok()?))
}

// The three numbers of `P` and `C`: the one in the middle is a set. Each of the two makes its own proposal of them.
#[tactic(auto, using(crate::proofs::Parts::three_set))]
fn with_set(rest: &[u8]) -> Option<(u32, u16, u32)>
    ensures { result ≡ three largest largest_set largest (words rest.now) }
{
    let (first, set, last) = read::triple(rest)?;
    Some((first, u16::try_from(set).ok()?, last))
}

// `P caller set time`.
fn pull(rest: &[u8]) -> Option<Line>
    ensures { result ≡ pull_of (three largest largest_set largest (words rest.now)) }
{
    let (caller, voters, time) = with_set(rest)?;
    Some(Line::Propose(Proposal::Pull {
        caller,
        voters,
        time,
    }))
}

// `I caller command`.
fn invoke(rest: &[u8]) -> Option<Line>
    ensures { result ≡ invoke_of (two largest largest (words rest.now)) }
{
    let (caller, number) = read::pair(rest)?;
    Some(Line::Propose(Proposal::Invoke { caller, number }))
}

// `R caller set`.
#[tactic(auto, using(crate::proofs::Parts::two_set))]
fn reconfigure(rest: &[u8]) -> Option<Line>
    ensures { result ≡ reconfigure_of (two largest largest_set (words rest.now)) }
{
    let (caller, set) = read::pair(rest)?;
    let members = u16::try_from(set).ok()?;
    Some(Line::Propose(Proposal::Reconfigure { caller, members }))
}

// `C caller set target`.
fn push(rest: &[u8]) -> Option<Line>
    ensures { result ≡ push_of (three largest largest_set largest (words rest.now)) }
{
    let (caller, voters, target) = with_set(rest)?;
    Some(Line::Propose(Proposal::Push {
        caller,
        voters,
        target,
    }))
}

// A letter with parts after it.
#[tactic(auto, unfolding(crate::specs::Parse::lettered))]
fn lettered(letter: u8, rest: &[u8]) -> Option<Line>
    ensures { result ≡ lettered letter (words rest.now) }
{
    match letter {
        b'O' => open_with(rest),
        b'P' => pull(rest),
        b'I' => invoke(rest),
        b'R' => reconfigure(rest),
        b'C' => push(rest),
        _ => None,
    }
}

// What does a line ask, if it is of the form? These are its bytes before the newline.
#[tactic(auto, using(crate::proofs::Letters::by_letters))]
pub fn parse(line: &[u8]) -> Option<Line>
    ensures { result ≡ parsed line.now }
{
    if line.len() > 63 {
        return None;
    }
    match line {
        [b'O'] => Some(Line::Open(7)),
        [letter, b' ', rest @ ..] => lettered(*letter, rest),
        _ => None,
    }
}

// Document 01's number of a refusal, which stands at its name.
pub fn number(refusal: Refusal) -> u32
    ensures { result ≡ numbered refusal }
{
    refusal as u32
}

// The line of an answer, at the front of the buffer. Answers how many bytes it has, or 0 where it doesn't fit.
// The buffer is lent, and `put` says each byte of it: the replay program's memory is fixed.
pub fn print(answer: Answer, out: &mut [u8]) -> usize
    ensures { outcome out.new result ≡ put (answer_line answer) 0 out.old }
{
    match answer {
        Answer::Accepted(n) => write::put_numbered(b'A', u32::from(n), out),
        Answer::Short => write::put_letter(b'U', out),
        Answer::Refused(refusal) => write::put_numbered(b'X', number(refusal), out),
    }
}

// The answer to a bad line, likewise.
pub fn print_bad(out: &mut [u8]) -> usize
    ensures { outcome out.new result ≡ put bad_line 0 out.old }
{
    write::put_letter(b'B', out)
}

// The last line, with the log's length and entries, likewise.
#[tactic(auto, using(std::proofs::lemmas::Grind::common_steps, crate::proofs::Digits::digits_count, crate::proofs::Laid::put_whole, crate::proofs::Printed::log_none, crate::proofs::Printed::log_put))]
pub fn print_log(log: &[u32], out: &mut [u8]) -> usize
    ensures { outcome out.new result ≡ put (log_line log.now) 0 out.old }
{
    let entries = log.len() as u64;
    let count = write::width(entries);
    if out.len() < count + 3 {
        return 0;
    }
    let room = out.len() - count - 3;
    if !write::fits(log, room) {
        return 0;
    }
    out[0] = b'L';
    let next = write::put_number(entries, 1, out);
    let end = write::put_numbers(log, next, out);
    out[end] = b'\n';
    end + 1
}
