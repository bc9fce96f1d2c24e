// Changes checked in their turns, each against the table that those before it leave.
ghost use Rattle.std.specs.Prelude.{◌≡◌, MatchOption};
ghost use Rattle.std.specs.Option.{option_map};
ghost use Rattle.std.specs.Result.{result_err};
ghost use Rattle.changes.specs.Ends.{user_of};
ghost use Rattle.changes.specs.Turns.{shown_turn, change_rows, AllTaken, FirstRefused};

use super::rows::row_after;
use super::{Change, ChangeFault, TurnFault};
use register::Register;
use terms::sets::{RoleSet, contains};

impl Change {
    // The user whose roles the change is about.
    pub fn user(self) -> u32
        ensures { result ≡ user_of self }
    {
        match self {
            Change::Assignment(user, _) | Change::Withdrawal(user, _) => user,
        }
    }

    // Checks the change where there are so many users, and its user has these roles.
    pub fn checked(self, users: u32, roles: RoleSet) -> Result<(), ChangeFault>
        ensures { option_map shown_turn (result_err result) ≡ change_rows users roles self }
    {
        let (Change::Assignment(user, role) | Change::Withdrawal(user, role)) = self;
        if user >= users {
            return Err(ChangeFault::NoUser);
        }
        if role > 63 {
            return Err(ChangeFault::NoRole);
        }
        match (self, contains(roles, role)) {
            (Change::Assignment(..), true) => Err(ChangeFault::Held),
            (Change::Withdrawal(..), false) => Err(ChangeFault::NotHeld),
            _ => Ok(()),
        }
    }
}

// The first change that is refused in its turn, over the register's pairs, if one is.
pub fn first_refused<R: Register>(register: &R, changes: &[Change]) -> Option<TurnFault>
    ensures { MatchOption result (AllTaken (R.Register.model register.now).rows changes.now) (λ x. FirstRefused (R.Register.model register.now).rows changes.now x) }
{
    let users = register.users();
    for (i, change) in changes.iter().enumerate() {
        let user = change.user();
        let roles = row_after(&changes[..i], user, register.row(user));
        if let Err(fault) = change.checked(users, roles) {
            return Some(TurnFault { change: i, fault });
        }
    }
    None
}
