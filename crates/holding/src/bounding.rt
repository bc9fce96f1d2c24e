// Bounds on what the user can come to hold. Each is sound; which constraints are looked at is free.
ghost use Rattle.std.specs.Prelude.{◌≡◌, ℕ, ◌+◌, ◌-◌, ◌*◌, ◌≤◌, true, nat_lt, bit_and, bit_xor, count_ones, slice_index};
ghost use Rattle.terms.specs.Sets.{Difference};
ghost use Rattle.plan.specs.Authority.{held};
ghost use Rattle.holding.specs.Search.{Nobody, NamedRight};

use super::surveying::elsewhere;
use super::{Named, Sought};
use plan::{Constraint, Plan};
use terms::sets::{PermissionSet, RoleSet, difference, with_member};

// The most permissions of the set that are granted to one role; roles are asked for by number.
fn most(plan: &Plan, wanted: PermissionSet) -> u32
    ensures { (a : ℕ) → count_ones (bit_and (slice_index plan.now.grants a) wanted) ≤ result }
{
    (0u32..64)
        .map(|a| (plan.granted(a) & wanted).count_ones())
        .max()
        .unwrap_or(0)
}

// The roles that are granted some of the set.
fn grantors(plan: &Plan, wanted: PermissionSet) -> RoleSet {
    (0u32..64)
        .filter(|a| plan.granted(*a) & wanted > 0)
        .fold(0, |roles, a| with_member(roles, a))
}

impl Sought<'_> {
    // What is wanted that the roles `word` do not bring him.
    fn open(&self) -> PermissionSet
        ensures { Difference self.now.wanted (held self.now.survey.now.plan.now self.now.word) result }
    {
        difference(self.wanted, self.survey.plan.held(self.word))
    }

    // How many roles of a constraint he may still take.
    pub(crate) fn slack(&self, c: &Constraint) -> u32
        ensures { result ≡ c.now.limit - 1 - count_ones (bit_and self.now.all c.now.roles) }
    {
        c.limit
            .saturating_sub(1)
            .saturating_sub((self.all & c.roles).count_ones())
    }

    // Whether the roles of a constraint that he may still take, which bring at most `each`, are too few for what is open and not
    // granted apart from it.
    fn too_few(&self, c: &Constraint, apart: PermissionSet, open: PermissionSet, each: u32) -> bool
        ensures { result ≡ nat_lt ((c.now.limit - 1 - count_ones (bit_and self.now.all c.now.roles)) * each) (count_ones (bit_xor «open» (bit_and «open» apart))) }
    {
        let here = difference(open, apart);
        here.count_ones() as u64 > self.slack(c) as u64 * each as u64
    }

    // Whether some limit leaves him too few roles to come to hold all of it.
    pub(crate) fn beyond(&self) -> bool
        ensures { result ≡ true → Nobody self.now }
    {
        let plan = self.survey.plan;
        let open = self.open();
        let each = most(plan, open);
        plan.constraints()
            .iter()
            .zip(&self.survey.outside)
            .any(|(c, apart)| self.too_few(c, *apart, open, each))
    }

    // One pass over the constraints: takes each of which more useful roles are not yet named than `times` its room.
    fn name_more(&self, useful: RoleSet, times: u32, before: Named) -> Named
        requires right { NamedRight self.now before }
        requires small { before.spare ≤ 65536 }
        ensures right { NamedRight self.now result }
        ensures small { result.spare ≤ before.spare + 4096 }
    {
        let mut named = before;
        // a loop: that the spare roles stay few rests on how many constraints have come, which the closure of a `fold` cannot say
        for c in self.survey.plan.constraints() {
            let slack = self.slack(c);
            let fresh = difference(c.roles & useful, named.roles).count_ones();
            if fresh > slack.saturating_mul(times).max(slack) {
                named = Named {
                    roles: named.roles | c.roles,
                    spare: named.spare + slack,
                };
            }
        }
        named
    }

    // Whether some limits together do. Those with the least room for the roles that they name are taken first.
    pub(crate) fn together(&self) -> bool
        ensures { result ≡ true → Nobody self.now }
    {
        let plan = self.survey.plan;
        let open = self.open();
        let useful = difference(grantors(plan, open), self.all);
        let each = most(plan, open);
        let mut named = Named { roles: 0, spare: 0 };
        for times in [8, 4, 2, 1] {
            named = self.name_more(useful, times, named);
        }
        let here = difference(open, elsewhere(plan, named.roles));
        here.count_ones() as u64 > named.spare as u64 * each as u64
    }
}
