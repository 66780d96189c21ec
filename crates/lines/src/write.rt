// Bytes put into a lent buffer: all of them where they fit, else none. Each function answers the place after them, or the place where
// they should have begun: so says `put`.
ghost use Rattle.std.specs.Prelude.{◌≡◌, [], leb, length};
ghost use Rattle.lines.specs.Numbers.{digits};
ghost use Rattle.lines.specs.Print.{line, spaced, spaced_all, outcome, put};

// How many digits has a number? The loop divides; there is nothing to go over.
#[tactic(auto, using(crate::proofs::Digits::digits_one, crate::proofs::Digits::digits_longer))]
pub fn width(n: u64) -> usize
    ensures { result ≡ length (digits n) }
{
    let mut rest = n;
    let mut count: usize = 1;
    while rest >= 10 {
        rest /= 10;
        count += 1;
    }
    count
}

// Do numbers with a space before each have room?
pub fn fits(numbers: &[u32], room: usize) -> bool
    ensures { result ≡ leb (length (spaced_all numbers.now)) room }
{
    let mut free = room;
    for &n in numbers {
        let count = width(u64::from(n));
        if free <= count {
            return false;
        }
        free -= count + 1;
    }
    true
}

// A number with the space before it, at a place of the buffer, from its last digit on. Answers the place after it.
// The loop divides; each digit is proved to fit in a byte.
#[tactic(auto, using(crate::proofs::Laid::put_none, crate::proofs::Laid::put_whole, crate::proofs::Digits::digits_longer, crate::proofs::Laid::first_laid))]
pub fn put_number(n: u64, at: usize, out: &mut [u8]) -> usize
    ensures { outcome out.new result ≡ put (spaced n) at out.old }
{
    let count = width(n);
    if at >= out.len() {
        return at;
    }
    if count >= out.len() - at {
        return at;
    }
    let mut rest = n;
    let mut place = at + count;
    while rest >= 10 {
        out[place] = b'0' + (rest % 10) as u8;
        rest /= 10;
        place -= 1;
    }
    out[place] = b'0' + rest as u8;
    out[at] = b' ';
    at + count + 1
}

// Numbers with a space before each, at a place of the buffer. Answers the place after them.
#[tactic(auto, using(crate::proofs::Laid::put_none, crate::proofs::Printed::numbers_put))]
pub fn put_numbers(numbers: &[u32], at: usize, out: &mut [u8]) -> usize
    ensures { outcome out.new result ≡ put (spaced_all numbers.now) at out.old }
{
    if at > out.len() {
        return at;
    }
    if !fits(numbers, out.len() - at) {
        return at;
    }
    let mut place = at;
    for &n in numbers {
        place = put_number(u64::from(n), place, out);
    }
    place
}

// The line of a letter and a number, at the front of the buffer.
#[tactic(auto, using(std::proofs::lemmas::Grind::common_steps, crate::proofs::Digits::digits_count, crate::proofs::Laid::put_whole, crate::proofs::Printed::numbered_none, crate::proofs::Printed::numbered_put))]
pub fn put_numbered(letter: u8, n: u32, out: &mut [u8]) -> usize
    ensures { outcome out.new result ≡ put (line letter (spaced n)) 0 out.old }
{
    let number = u64::from(n);
    let count = width(number);
    if out.len() < count + 3 {
        return 0;
    }
    out[0] = letter;
    let end = put_number(number, 1, out);
    out[end] = b'\n';
    end + 1
}

// The line of a letter alone.
#[tactic(auto, using(crate::proofs::Laid::put_whole, crate::proofs::Laid::put_none))]
pub fn put_letter(letter: u8, out: &mut [u8]) -> usize
    ensures { outcome out.new result ≡ put (line letter []) 0 out.old }
{
    if out.len() < 2 {
        return 0;
    }
    out[1] = b'\n';
    out[0] = letter;
    2
}
