// A register of an integrator's own: one lent flag for each user and role. It is made of the trait alone.
#![tactic(auto)]

ghost use Rattle.std.specs.Prelude.{◌≡◌, ◌*◌, ◌≤◌, [], ◌∷◌, ◌++◌, false, MatchOption, length, drop, replicate};
ghost use Rattle.register.specs.Pairs.{pairs, members};
ghost use Rattle.flag_table.specs.Flags.{rows_of, users_in, in_use, flags_of, word, model_of, spare_of, Inside, Outside};
ghost use Rattle.flag_table.specs.Sound.{flags_sound};

use register::{Register, RegisterFault};

// The flag of user u and role r is at 64 * u + r; every role has the same number of seats.
#[derive(Drop)]
pub struct FlagTable<'a> {
    flags: &'a mut [bool],
    seats: u32,
}

impl<'a> FlagTable<'a> {
    // A register over the flags; those that are set are its pairs.
    pub fn new(flags: &'a mut [bool], seats: u32) -> FlagTable<'a>
        ensures flags { result.flags.now ≡ flags.old }
        ensures lent { result.flags.ghost_name ≡ flags.entry.ghost_name }
        ensures seats { result.seats ≡ seats }
    {
        FlagTable { flags, seats }
    }

    // As many users as have all their flags.
    fn user_count(&self) -> u32
        ensures { result ≡ users_in self.now.flags.now }
    {
        (self.flags.len() / 64).min(4096) as u32
    }

    // The flags in use.
    fn used(&self) -> &[bool]
        ensures flags { result.now ≡ in_use self.now.flags.now }
        ensures few { length result.now ≤ 64 * 4096 }
    {
        &self.flags[..64 * self.user_count() as usize]
    }

    // The place of a pair's flag, where there may be a pair of the user and the role.
    fn place(&self, user: u32, role: u32) -> Option<usize>
        ensures { MatchOption result (Outside self.now.flags.now user role) (λ place. Inside self.now.flags.now user role place) }
    {
        if user < self.user_count() && role < 64 {
            Some((64 * user + role) as usize)
        } else {
            None
        }
    }

    // The user's flags; none where he is not below the number of users.
    fn flags_of(&self, user: u32) -> &[bool]
        ensures flags { result.now ≡ flags_of self.now.flags.now user }
        ensures few { length result.now ≤ 64 }
    {
        if user >= self.user_count() {
            return &[];
        }
        let start = 64 * user as usize;
        &self.flags[start..start + 64]
    }

    // The number of flags that are set. A sum, since a filter would branch at each flag.
    fn pair_count(&self) -> u32
        ensures { result ≡ pairs (rows_of self.now.flags.now) }
    {
        self.used().iter().map(|held| *held as u32).sum()
    }

    // The number of users whose flag for the role is set; no flag is for a role above 63.
    fn member_count(&self, role: u32) -> u32
        ensures { result ≡ members (rows_of self.now.flags.now) role }
    {
        if role > 63 {
            return 0; // without a walk over the users
        }
        self.used()
            .chunks_exact(64)
            .map(|flags| flags.get(role as usize).copied().unwrap_or(false) as u32)
            .sum()
    }
}

impl<'a> Register for FlagTable<'a> {
    ghost model = { λ s. model_of s.flags.now s.seats };

    ghost kept = { λ s. record { spare = spare_of s.flags.now; lenders = s.flags.ghost_name ∷ [] } };

    ghost sound = { λ s. flags_sound s.flags.now s.seats };

    fn users(&self) -> u32 {
        self.user_count()
    }

    fn places(&self) -> u32 {
        64 * self.user_count()
    }

    fn seats(&self, role: u32) -> u32 {
        if role < 64 { self.seats } else { 0 }
    }

    fn pairs(&self) -> u32 {
        self.pair_count()
    }

    fn members(&self, role: u32) -> u32 {
        self.member_count(role)
    }

    fn row(&self, user: u32) -> u64 {
        word_of(self.flags_of(user))
    }

    // The check takes an impl of `Register` that calls a function generic in `Register` for a cycle, so each register makes these
    // tests itself; a function of the eight numbers that they ask for would be no plainer than they are.
    fn add(&mut self, user: u32, role: u32) -> Result<(), RegisterFault> {
        let Some(flag) = self.place(user, role) else {
            return Err(RegisterFault::NoSuchPair);
        };
        if self.flags[flag] {
            return Ok(());
        }
        if self.member_count(role) >= self.seats {
            return Err(RegisterFault::SeatsFull(role));
        }
        if self.pair_count() >= 64 * self.user_count() {
            return Err(RegisterFault::PlacesFull);
        }
        self.flags[flag] = true;
        Ok(())
    }

    fn remove(&mut self, user: u32, role: u32) -> bool {
        let Some(flag) = self.place(user, role) else {
            return false;
        };
        if !self.flags[flag] {
            return false;
        }
        self.flags[flag] = false;
        true
    }

    fn clear(&mut self) {
        let used = 64 * self.user_count() as usize;
        unset(self.flags, used);
    }
}

// The roles whose flags are set.
fn word_of(flags: &[bool]) -> u64
    requires { length flags.now ≤ 64 }
    ensures { result ≡ word flags.now }
{
    flags
        .iter()
        .rev()
        .fold(0, |row, held| (row << 1) | *held as u64)
}

// Takes the first so many flags away. In the body of `clear` the proof would lack all but the length of the flags after the
// `fill`, which it follows through a field only where the struct has an invariant; `FlagTable` needs none.
fn unset(flags: &mut [bool], count: usize)
    requires { count ≤ length flags.old }
    ensures { flags.new ≡ replicate count false ++ drop count flags.old }
{
    flags[..count].fill(false);
}
