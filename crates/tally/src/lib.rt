// Counts of comparisons: how many came out as expected, and how many did not.
#![tactic(auto)]

ghost use Rattle.std.specs.Prelude.{◌≡◌, ◌++◌, not, Some, codes, decimal};
ghost use Rattle.tally.specs.Counting.{counted};

use std::fmt;

// How many comparisons came out as expected.
#[derive(Drop)]
pub struct Tally {
    right: u64,
    wrong: u64,
}

impl Tally {
    // Nothing is compared yet.
    pub fn new() -> Tally
        ensures right { result.right ≡ 0 }
        ensures wrong { result.wrong ≡ 0 }
    {
        Tally { right: 0, wrong: 0 }
    }

    // Counts one comparison, as right where both sides were the same.
    pub fn note(&mut self, same: bool)
        ensures right { self.new.right ≡ counted same self.old.right }
        ensures wrong { self.new.wrong ≡ counted (not same) self.old.wrong }
    {
        if same {
            self.right = self.right.saturating_add(1);
        } else {
            self.wrong = self.wrong.saturating_add(1);
        }
    }
}

impl fmt::Display for Tally {
    ghost output = { λ t. Some (decimal t.right ++ (codes " right, " ++ (decimal t.wrong ++ codes " wrong"))) };

    fn fmt<W: fmt::Write>(&self, f: &mut fmt::Formatter<W>) -> fmt::Result {
        let right = self.right;
        let wrong = self.wrong;
        write!(f, "{right} right, {wrong} wrong")
    }
}
