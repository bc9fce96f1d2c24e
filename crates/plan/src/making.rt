ghost use Rattle.std.specs.Prelude.{◌≡◌, ℕ, ◌^◌, ◌<◌, ◌≤◌, [], slice_index};
ghost use Rattle.plan.specs.History.{Means};

use super::{Constraint, Plan, Policy};
use std::array;
use terms::sets::RoleSet;
use terms::short_list::ShortList;

// Each role senior to itself alone.
fn alone() -> [RoleSet; 64]
    ensures inside { (a : ℕ) → a < 64 → slice_index result a ≡ 2 ^ a }
    ensures past { (a : ℕ) → 64 ≤ a → slice_index result a ≡ 0 }
{
    array::from_fn(|role| 1 << role)
}

impl Plan {
    // The empty plan.
    pub fn new() -> Plan
        ensures { Means [] result }
    {
        let no_policy = Policy {
            permissions: 0,
            least: 0,
        };
        let no_constraint = Constraint { roles: 0, limit: 0 };
        Plan {
            juniors: alone(),
            grants: [0; 64],
            policies: ShortList::new(no_policy),
            constraints: ShortList::new(no_constraint),
        }
    }
}
