ghost use Rattle.std.specs.Prelude.{◌≡◌, ℕ, ◌<◌, true, false, is_ok, slice_index};
ghost use Rattle.std.specs.Result.{result_err};
ghost use Rattle.std.specs.Option.{option_map};
ghost use Rattle.plan.specs.Order.{raised};
ghost use Rattle.plan.specs.Refusing.{shown, senior_rows, grant_rows, policy_rows, constraint_rows};
ghost use Rattle.plan.specs.Adding.{SeniorAdded, GrantAdded, PolicyAdded, ConstraintAdded};

use super::{Constraint, Plan, PlanFault, Policy};
use terms::sets::{PermissionSet, RoleSet, contains};

// Every row that has the role `senior` gains the roles of `gained`.
fn raise(rows: &mut [RoleSet; 64], senior: u32, gained: RoleSet)
    ensures { (a : ℕ) → slice_index rows.new a ≡ raised senior gained (slice_index rows.old a) }
{
    for row in rows.iter_mut() {
        if contains(*row, senior) {
            *row |= gained;
        }
    }
}

// A policy or a constraint is given as its two numbers, for they are still to be checked: a `Policy` is one that was accepted.
// Each addition answers by its rows, leaves the plan where it is refused, and adds what it says: three facts about a call, not
// about a plan, so each contract says them.
impl Plan {
    // Makes one role senior to another, and all that follows from it.
    pub fn senior(&mut self, senior: u32, junior: u32) -> Result<(), PlanFault>
        ensures answer { option_map shown (result_err result) ≡ senior_rows self.old senior junior }
        ensures refused { is_ok result ≡ false → self.new ≡ self.old }
        ensures added { is_ok result ≡ true → SeniorAdded self.old senior junior self.new }
    {
        if senior > 63 || junior > 63 {
            return Err(PlanFault::NoRole);
        }
        let gained = self.juniors[junior as usize];
        if senior != junior && contains(gained, senior) {
            return Err(PlanFault::Cycle);
        }
        raise(&mut self.juniors, senior, gained);
        Ok(())
    }

    // Grants a permission to a role.
    pub fn grant(&mut self, role: u32, permission: u32) -> Result<(), PlanFault>
        ensures answer { option_map shown (result_err result) ≡ grant_rows role permission }
        ensures refused { is_ok result ≡ false → self.new ≡ self.old }
        ensures added { is_ok result ≡ true → GrantAdded self.old role permission self.new }
    {
        if role > 63 {
            return Err(PlanFault::NoRole);
        }
        if permission > 63 {
            return Err(PlanFault::NoPermission);
        }
        let at = role as usize;
        self.grants[at] |= 1 << permission;
        Ok(())
    }

    // Adds a policy, under the next number.
    pub fn policy(&mut self, permissions: PermissionSet, least: u32) -> Result<(), PlanFault>
        ensures answer { option_map shown (result_err result) ≡ policy_rows self.old permissions least }
        ensures refused { is_ok result ≡ false → self.new ≡ self.old }
        ensures added { is_ok result ≡ true → PolicyAdded self.old permissions least self.new }
    {
        let size = permissions.count_ones();
        if least < 2 || least > size || least > 8 {
            return Err(PlanFault::Limit);
        }
        if size > 16 {
            return Err(PlanFault::Wide);
        }
        self.policies.push(Policy { permissions, least })?;
        Ok(())
    }

    // Adds a constraint, under the next number.
    pub fn constraint(&mut self, roles: RoleSet, limit: u32) -> Result<(), PlanFault>
        ensures answer { option_map shown (result_err result) ≡ constraint_rows self.old roles limit }
        ensures refused { is_ok result ≡ false → self.new ≡ self.old }
        ensures added { is_ok result ≡ true → ConstraintAdded self.old roles limit self.new }
    {
        if limit < 2 || limit > roles.count_ones() {
            return Err(PlanFault::Limit);
        }
        self.constraints.push(Constraint { roles, limit })?;
        Ok(())
    }
}
