// Bit rows: a register in a lent table of words, one 64-bit word for a user, the first 4,096 words at most.
#![tactic(auto)]

ghost use Rattle.std.specs.Prelude.{◌≡◌, ℕ, ◌^◌, ◌<◌, [], ◌∷◌, MatchOption, drop, slice_index};
ghost use Rattle.register.specs.Pairs.{row as row_at, pairs as pair_count, having};
ghost use Rattle.bit_rows.specs.Table.{rows_of, model_of, Inside, Outside, wide_sound};

mod counts;

use crate::counts::Rows;
use register::{Register, RegisterFault};
use terms::sets::{contains, with_member};

// The table, with the number of pairs and of each role's members, which making counts and each change keeps.
#[derive(Drop)]
pub struct BitRows<'a> {
    words: &'a mut [u64],
    pairs: u32,
    members: [u32; 64],
    ghost counted: { pairs ≡ pair_count (rows_of words.now) },
    ghost each: { (r : ℕ) → r < 64 → slice_index members r ≡ having r (rows_of words.now) },
    ghost wide: { (u : ℕ) → row_at (rows_of words.now) u < 2 ^ 64 },
}

impl<'a> BitRows<'a> {
    // A register over the table; the words found in it are its pairs.
    pub fn new(table: &'a mut [u64]) -> BitRows<'a>
        ensures words { result.words.now ≡ table.old }
        ensures lent { result.words.ghost_name ≡ table.entry.ghost_name }
    {
        let rows = Rows::of(table);
        let pairs = rows.pairs();
        let members = rows.each_role();
        BitRows {
            words: table,
            pairs,
            members,
        }
    }

    // The rows in use.
    fn rows(&self) -> Rows<'_>
        ensures { result.words.now ≡ rows_of self.now.words.now }
    {
        Rows::of(self.words)
    }

    // The user's row, where there may be a pair of him and the role.
    fn row_for(&self, user: u32, role: u32) -> Option<u64>
        ensures { MatchOption result (Outside self.now.words.now user role) (λ row. Inside self.now.words.now user role row) }
    {
        let rows = self.rows();
        if user < rows.users() && role < 64 {
            Some(rows.row(user))
        } else {
            None
        }
    }
}

impl<'a> Register for BitRows<'a> {
    ghost model = { λ s. model_of s.words.now };

    ghost kept = { λ s. record { spare = drop 4096 s.words.now; lenders = s.words.ghost_name ∷ [] } };

    ghost sound = { λ s. wide_sound s.words.now s.wide };

    fn users(&self) -> u32 {
        self.rows().users()
    }

    fn places(&self) -> u32 {
        self.rows().places()
    }

    fn seats(&self, role: u32) -> u32 {
        if role < 64 { 4096 } else { 0 }
    }

    fn pairs(&self) -> u32 {
        self.pairs // counted at making, and kept by each change
    }

    fn members(&self, role: u32) -> u32 {
        self.members.get(role as usize).copied().unwrap_or(0)
    }

    fn row(&self, user: u32) -> u64 {
        self.rows().row(user)
    }

    // The check takes an impl of `Register` that calls a function generic in `Register` for a cycle, so each register makes these
    // tests itself; a function of the eight numbers that they ask for would be no plainer than they are.
    fn add(&mut self, user: u32, role: u32) -> Result<(), RegisterFault> {
        let Some(row) = self.row_for(user, role) else {
            return Err(RegisterFault::NoSuchPair);
        };
        if contains(row, role) {
            return Ok(());
        }
        if self.members[role as usize] >= 4096 {
            return Err(RegisterFault::SeatsFull(role));
        }
        if self.pairs >= self.rows().places() {
            return Err(RegisterFault::PlacesFull);
        }
        self.words[user as usize] = with_member(row, role);
        self.members[role as usize] += 1;
        self.pairs += 1;
        Ok(())
    }

    fn remove(&mut self, user: u32, role: u32) -> bool {
        let Some(row) = self.row_for(user, role) else {
            return false;
        };
        if !contains(row, role) {
            return false;
        }
        self.words[user as usize] = row ^ (1u64 << role);
        self.members[role as usize] -= 1;
        self.pairs -= 1;
        true
    }

    fn clear(&mut self) {
        let users = self.words.len().min(4096);
        self.words[..users].fill(0);
        self.members = [0; 64];
        self.pairs = 0;
    }
}
