// Words, numerals and the parts of a line.
ghost use Rattle.std.specs.Prelude.{◌≡◌, [], ◌∷◌, IfSome, IsNone};
ghost use Rattle.std.specs.List.{position};
ghost use Rattle.lines.specs.Words.{space, words};
ghost use Rattle.lines.specs.Numbers.{largest, digits_within, read};
ghost use Rattle.lines.specs.Parts.{one, two, three};

// How many bytes stand before the first space, where there is one?
fn front(bytes: &[u8]) -> Option<usize>
    ensures { result ≡ position space bytes.now }
{
    bytes.iter().position(|&byte| byte == b' ')
}

// The part before the first space and what stands after it, where there is a space.
#[tactic(auto, using(crate::proofs::Words::words_whole, crate::proofs::Words::words_split))]
fn split_once(rest: &[u8]) -> Option<(&[u8], &[u8])>
    ensures apart { IfSome result (λ parts. words rest.now ≡ parts.0.now ∷ words parts.1.now) }
    ensures whole { IsNone result → words rest.now ≡ rest.now ∷ [] }
{
    let end = front(rest)?;
    Some((&rest[..end], &rest[end + 1..]))
}

// The number that digits stand for, where there are only digits and it is at most the largest.
#[tactic(auto, using(crate::proofs::Numbers::digits_other, crate::proofs::Numbers::digits_over, crate::proofs::Numbers::digits_end))]
fn digits(word: &[u8]) -> Option<u32>
    ensures { result ≡ digits_within largest word.now }
{
    let mut value: u32 = 0;
    for &byte in word {
        if !byte.is_ascii_digit() {
            return None;
        }
        value = value.checked_mul(10)?.checked_add(u32::from(byte - b'0'))?;
    }
    Some(value)
}

// The number that a word is, where it is a numeral.
#[tactic(auto, using(crate::proofs::Numbers::by_numeral))]
fn numeral(word: &[u8]) -> Option<u32>
    ensures { result ≡ read largest word.now }
{
    match word {
        [] | [b'0', _, ..] => None,
        _ => digits(word),
    }
}

// The only part, a number.
#[tactic(auto, using(crate::proofs::Parts::one_long))]
pub fn only(rest: &[u8]) -> Option<u32>
    ensures { result ≡ one largest (words rest.now) }
{
    match split_once(rest) {
        Some(_) => None,
        None => numeral(rest),
    }
}

// Two parts, each a number.
#[tactic(auto, using(crate::proofs::Parts::two_split))]
pub fn pair(rest: &[u8]) -> Option<(u32, u32)>
    ensures { result ≡ two largest largest (words rest.now) }
{
    let (first, others) = split_once(rest)?;
    Some((numeral(first)?, only(others)?))
}

// Three parts, each a number.
#[tactic(auto, using(crate::proofs::Parts::three_split))]
pub fn triple(rest: &[u8]) -> Option<(u32, u32, u32)>
    ensures { result ≡ three largest largest largest (words rest.now) }
{
    let (first, others) = split_once(rest)?;
    let number = numeral(first)?;
    let (second, third) = pair(others)?;
    Some((number, second, third))
}
