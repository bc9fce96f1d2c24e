// Sets of roles, or of permissions, as 64-bit words: number k is a member where the bit k is 1.
ghost use Rattle.std.specs.Prelude.{◌≡◌, ℕ, ◌^◌, ◌<◌, ◌≤◌, true, if◌then◌else◌, MatchOption, bit_or, count_ones, nat_lt};
ghost use Rattle.std.specs.Iterator.{at_most};
ghost use Rattle.terms.specs.Sets.{In, Difference, Lowest, NextMember};

// A set of roles, numbers from 0 to 63. A set is a word and not a type of its own: callers lend tables of such words, and give
// and get them in every call.
pub type RoleSet = u64;

// A set of permissions, numbers from 0 to 63.
pub type PermissionSet = u64;

// Whether the number is a member; none above 63 is.
pub fn contains(members: u64, number: u32) -> bool
    ensures yes { result ≡ true → In number members }
    ensures no { In number members → result ≡ true }
{
    number < 64 && (members >> number) & 1 == 1
}

// The set with the number as one more member; a number above 63 leaves it as it is.
pub fn with_member(members: u64, number: u32) -> u64
    ensures { result ≡ (if nat_lt number 64 then bit_or members (2 ^ number) else members) }
{
    if number < 64 {
        members | (1u64 << number)
    } else {
        members
    }
}

// The members of the first set that are not members of the second.
pub fn difference(members: u64, other: u64) -> u64
    ensures { Difference members other result }
{
    members ^ (members & other)
}

// The lowest member, if there is one.
pub fn lowest(members: u64) -> Option<u32>
    ensures { MatchOption result (members ≡ 0) (λ k. Lowest k members) }
{
    if members == 0 {
        return None;
    }
    Some(members.trailing_zeros())
}

// What is left of a set, of which the lowest member comes next.
#[derive(Clone, Copy)]
pub struct Members {
    left: u64,
}

impl Members {
    // The members of a set, lowest first.
    pub fn of(set: u64) -> Members
        ensures { result.left ≡ set }
    {
        Members { left: set }
    }
}

impl Iterator for Members {
    type Item = u32;

    ghost next_gives = { λ s r t. NextMember s.left r t.left };

    ghost remaining = { λ s. at_most (count_ones s.left) };

    fn next(&mut self) -> Option<u32> {
        let member = lowest(self.left)?;
        self.left &= self.left - 1;
        Some(member)
    }
}
