// What changes make of one user's roles.
ghost use Rattle.std.specs.Prelude.{◌≡◌, ℕ, ◌<◌, ◌⊎◌, ◌↔◌, List, length};
ghost use Rattle.terms.specs.Sets.{In};
ghost use Rattle.register.specs.Pairs.{row};
ghost use Rattle.changes.specs.Ends.{changed_row, row_after, ended};
ghost use Rattle.changes.specs.Latest.{Stands, Unwithdrawn};

use super::Change;
use terms::sets::{RoleSet, contains, with_member};

impl Change {
    // The roles that the change leaves a user with these roles.
    fn made_of(self, user: u32, roles: RoleSet) -> RoleSet
        ensures { result ≡ changed_row user self roles }
    {
        match self {
            Change::Assignment(who, role) if who == user => with_member(roles, role),
            Change::Withdrawal(who, role) if who == user && contains(roles, role) && role < 64 => {
                roles ^ (1u64 << role)
            }
            _ => roles,
        }
    }
}

// The roles of a user after the changes, in order, if he had these before. A role is his then exactly if the latest change of
// him and it is an assignment, or he had it and no change withdraws it.
pub fn row_after(changes: &[Change], user: u32, roles: RoleSet) -> RoleSet
    ensures value { result ≡ row_after user changes.now roles }
    ensures exactly { (k : ℕ) → k < 64 → In k result ↔ (Stands user k changes.now ⊎ (In k roles × Unwithdrawn user k changes.now)) }
    ensures ended { (t : List ℕ) → user < length t → row t user ≡ roles → row (ended t changes.now) user ≡ result }
{
    changes
        .iter()
        .fold(roles, |after, change| change.made_of(user, after))
}
