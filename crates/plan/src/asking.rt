ghost use Rattle.std.specs.Prelude.{◌≡◌, ℕ, ◌<◌, ◌↔◌, if◌then◌else◌, Some, None, Decides, MatchOption, nat_lt, slice_index};
ghost use Rattle.terms.specs.Sets.{In, union};
ghost use Rattle.plan.specs.Authority.{Senior, Granted, AuthorisedFor, Holds, authorised, held, policies_of, constraints_of, policy_count, policy_at, constraint_count, constraint_at, Satisfies, LowestBroken};

use super::{Constraint, Plan, Policy};
use terms::sets::{Members, PermissionSet, RoleSet};

// The union of the rows whose numbers are in `chosen`.
fn union_of(rows: &[u64; 64], chosen: u64) -> u64
    ensures { result ≡ union rows.now chosen }
{
    let mut all = 0;
    for number in Members::of(chosen) {
        all |= rows[number as usize];
    }
    all
}

impl Plan {
    // The roles that a user with the assigned roles is authorised for.
    pub fn authorised(&self, assigned: RoleSet) -> RoleSet
        ensures value { result ≡ authorised self.now assigned }
        ensures exactly { (b : ℕ) → In b result ↔ AuthorisedFor self.now assigned b }
    {
        union_of(&self.juniors, assigned)
    }

    // The permissions that he holds.
    pub fn held(&self, assigned: RoleSet) -> PermissionSet
        ensures value { result ≡ held self.now assigned }
        ensures exactly { (m : ℕ) → In m result ↔ Holds self.now assigned m }
    {
        union_of(&self.grants, self.authorised(assigned))
    }

    // The lowest constraint that he breaks, if he breaks one. A loop with the constraint's number, by a rule of the project for
    // the place that names the constraint of a refusal.
    pub fn broken(&self, assigned: RoleSet) -> Option<usize>
        ensures { MatchOption result (Satisfies self.now assigned) (λ i. LowestBroken self.now assigned i) }
    {
        let all = self.authorised(assigned);
        for (i, c) in self.constraints().iter().enumerate() {
            if (all & c.roles).count_ones() >= c.limit {
                return Some(i);
            }
        }
        None
    }

    // Whether he satisfies every constraint.
    pub fn satisfies(&self, assigned: RoleSet) -> bool
        ensures { Decides result (Satisfies self.now assigned) }
    {
        self.broken(assigned).is_none()
    }

    // The roles that a role is senior to, itself among them; none for a role above 63.
    pub fn juniors(&self, role: u32) -> RoleSet
        ensures value { result ≡ slice_index self.now.juniors role }
        ensures exactly { (b : ℕ) → In b result ↔ Senior self.now role b }
    {
        self.juniors.get(role as usize).copied().unwrap_or(0)
    }

    // The permissions granted to a role directly; none for a role above 63.
    pub fn granted(&self, role: u32) -> PermissionSet
        ensures value { result ≡ slice_index self.now.grants role }
        ensures exactly { (m : ℕ) → In m result ↔ Granted self.now role m }
    {
        self.grants.get(role as usize).copied().unwrap_or(0)
    }

    // The policies, in order.
    pub fn policies(&self) -> &[Policy]
        ensures { result.now ≡ policies_of self.now }
    {
        self.policies.as_slice()
    }

    // The constraints, in order.
    pub fn constraints(&self) -> &[Constraint]
        ensures { result.now ≡ constraints_of self.now }
    {
        self.constraints.as_slice()
    }

    // Policies and constraints have a call each for their number and for one of a number, as callers ask for them.

    // How many policies there are; they are numbered from 0.
    pub fn policy_count(&self) -> usize
        ensures { result ≡ policy_count self.now }
    {
        self.policies.len()
    }

    // The policy of a number.
    pub fn policy_at(&self, number: usize) -> Option<Policy>
        ensures { result ≡ (if nat_lt number (policy_count self.now) then Some (policy_at self.now number) else None) }
    {
        self.policies().get(number).copied()
    }

    // How many constraints there are; they are numbered from 0.
    pub fn constraint_count(&self) -> usize
        ensures { result ≡ constraint_count self.now }
    {
        self.constraints.len()
    }

    // The constraint of a number.
    pub fn constraint_at(&self, number: usize) -> Option<Constraint>
        ensures { result ≡ (if nat_lt number (constraint_count self.now) then Some (constraint_at self.now number) else None) }
    {
        self.constraints().get(number).copied()
    }
}
