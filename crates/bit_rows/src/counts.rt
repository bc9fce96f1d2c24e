// The rows in a table of words, and counting the pairs and the members in them, when a register is made.
ghost use Rattle.std.specs.Prelude.{◌≡◌, ℕ, ◌*◌, ◌^◌, ◌<◌, ◌≤◌, ◌&&◌, ◌==◌, length, nat_lt, slice_index};
ghost use Rattle.register.specs.Pairs.{row, pairs, members};
ghost use Rattle.terms.specs.Sets.{bit};
ghost use Rattle.bit_rows.specs.Table.{rows_of};

use std::array;
use terms::sets::contains;

// The words of a table that are rows, one for a user.
#[derive(Drop)]
pub(crate) struct Rows<'a> {
    words: &'a [u64],
    ghost few: { length words.now ≤ 4096 },
    ghost wide: { (u : ℕ) → row words.now u < 2 ^ 64 },
}

impl<'a> Rows<'a> {
    pub(crate) fn of(table: &'a [u64]) -> Rows<'a>
        ensures { result.words.now ≡ rows_of table.now }
    {
        Rows {
            words: &table[..table.len().min(4096)],
        }
    }

    // The number of users.
    pub(crate) fn users(&self) -> u32
        ensures { result ≡ length self.now.words.now }
    {
        self.words.len() as u32
    }

    // The number of places, one for each user and role.
    pub(crate) fn places(&self) -> u32
        ensures { result ≡ 64 * length self.now.words.now }
    {
        64 * self.users()
    }

    // The roles of a user, who has none where there is no row for him.
    pub(crate) fn row(&self, user: u32) -> u64
        ensures { result ≡ row self.now.words.now user }
    {
        self.words.get(user as usize).copied().unwrap_or(0)
    }

    // The number of pairs.
    pub(crate) fn pairs(&self) -> u32
        ensures { result ≡ pairs self.now.words.now }
    {
        self.words.iter().map(|row| row.count_ones()).sum()
    }

    // The number of a role's members; a role above 63 has none. A sum, since a filter would branch at each row.
    pub(crate) fn members(&self, role: u32) -> u32
        ensures { result ≡ members self.now.words.now role }
    {
        self.words
            .iter()
            .map(|row| has_role(*row, role) as u32)
            .sum()
    }

    // The number of members of each role.
    pub(crate) fn each_role(&self) -> [u32; 64]
        ensures { (k : ℕ) → k < 64 → slice_index result k ≡ members self.now.words.now k }
    {
        array::from_fn(|role| self.members(role as u32))
    }
}

// Whether a row has the role.
fn has_role(row: u64, role: u32) -> bool
    ensures { result ≡ (nat_lt role 64 && (bit row role == 1)) }
{
    contains(row, role)
}
