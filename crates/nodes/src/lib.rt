// Sets of nodes and the sixteen clocks. Each function equals its definition in rules, for every input.
#![tactic(auto)]

ghost use Rattle.std.specs.Prelude.{◌≡◌};
ghost use Rattle.rules.specs.Nodes.{has, size, majority, one_step, subset};
ghost use Rattle.rules.specs.Scheme.{quorum, within, next};
ghost use Rattle.rules.specs.Clocks.{moved, some_at_or_past, some_past};

// Is the node in the set? A number over 15 is in no set.
#[tactic(auto, using(crate::proofs::Digits::has_digit, crate::proofs::Digits::has_over), unfolding(rules::specs::Nodes::nodes))]
pub fn has(set: u16, node: usize) -> bool
    ensures { result ≡ has set node }
{
    node < 16 && (set >> node) % 2 == 1
}

// How many nodes are in the set?
#[tactic(auto, using(crate::proofs::Digits::size_is))]
pub fn size(set: u16) -> u32
    ensures { result ≡ size set }
{
    set.count_ones()
}

// Are the voters a majority of the members?
#[tactic(auto, using(crate::proofs::Digits::size_is, crate::proofs::Digits::shared_is), unfolding(rules::specs::Nodes::majority))]
pub fn majority(voters: u16, members: u16) -> bool
    ensures { result ≡ majority voters members }
{
    members.count_ones() < 2 * (voters & members).count_ones()
}

// Do the sets differ in exactly one node?
#[tactic(auto, using(crate::proofs::Digits::differing_is), unfolding(rules::specs::Nodes::one_step))]
pub fn one_step(members: u16, new: u16) -> bool
    ensures { result ≡ one_step members new }
{
    (members ^ new).count_ones() == 1
}

// Is every node of the first set in the second?
#[tactic(auto, using(crate::proofs::Digits::size_is, crate::proofs::Digits::shared_is, crate::proofs::Digits::subset_is))]
pub fn subset(voters: u16, members: u16) -> bool
    ensures { result ≡ subset voters members }
{
    (voters & members).count_ones() == voters.count_ones()
}

// What the scheme of members decides: may these voters decide, are they members, may the new set follow?
#[tactic(auto, unfolding(rules::specs::Scheme::quorum))]
pub fn quorum(voters: u16, members: u16) -> bool
    ensures { result ≡ quorum voters members }
{
    majority(voters, members)
}

#[tactic(auto, unfolding(rules::specs::Scheme::within))]
pub fn within(voters: u16, members: u16) -> bool
    ensures { result ≡ within voters members }
{
    subset(voters, members)
}

#[tactic(auto, unfolding(rules::specs::Scheme::next))]
pub fn next(members: u16, new: u16) -> bool
    ensures { result ≡ next members new }
{
    one_step(members, new)
}

// The clocks after every voter's became the time. One array by value: document 01's list of forms names it.
#[tactic(auto, using(rules::proofs::Clocks::moved_all))]
pub fn moved(voters: u16, time: u32, clocks: [u32; 16]) -> [u32; 16]
    ensures { result ≡ moved voters time clocks }
{
    let mut after = clocks;
    for (node, clock) in after.iter_mut().enumerate() {
        if has(voters, node) {
            *clock = time;
        }
    }
    after
}

// Is a voter's clock at or past the limit?
fn some_reaches(voters: u16, limit: u64, clocks: [u32; 16]) -> bool
    ensures { result ≡ some_at_or_past voters limit clocks }
{
    clocks.iter().enumerate().any(|(node, &clock)| has(voters, node) && limit <= u64::from(clock))
}

// Is a voter's clock at or past the time?
pub fn some_at_or_past(voters: u16, time: u32, clocks: [u32; 16]) -> bool
    ensures { result ≡ some_at_or_past voters time clocks }
{
    some_reaches(voters, u64::from(time), clocks)
}

// Is a voter's clock past the time?
#[tactic(auto, unfolding(rules::specs::Clocks::some_at_or_past, rules::specs::Clocks::some_past))]
pub fn some_past(voters: u16, time: u32, clocks: [u32; 16]) -> bool
    ensures { result ≡ some_past voters time clocks }
{
    some_reaches(voters, u64::from(time) + 1, clocks)
}
