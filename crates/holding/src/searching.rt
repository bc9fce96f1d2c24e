// One user: can he hold a set of permissions, and with which roles.
ghost use Rattle.std.specs.Prelude.{◌≡◌, ℕ, ◌↔◌, MatchOption};
ghost use Rattle.terms.specs.Sets.{Within};
ghost use Rattle.holding.specs.Search.{Holder, Fits, Nobody};
ghost use Rattle.holding.specs.Holding.{HeldWith};

use super::{Sought, Survey};
use terms::sets::{PermissionSet, RoleSet, contains, difference, lowest};

impl<'a> Sought<'a> {
    // Who is authorised for what the roles `word` authorise for, and holds `wanted`.
    fn of(survey: &'a Survey<'a>, word: RoleSet, wanted: PermissionSet) -> Sought<'a>
        ensures asks { (w : ℕ) → Fits result w ↔ Holder survey.now.plan.now word wanted w }
        ensures wanted { result.wanted ≡ wanted }
    {
        Sought {
            survey,
            word,
            all: survey.plan.authorised(word),
            wanted,
        }
    }

    // The roles that he cannot take without breaking a constraint.
    fn shut(&self) -> RoleSet {
        self.survey
            .plan
            .constraints()
            .iter()
            .filter(|c| self.slack(c) == 0)
            .fold(0, |roles, c| roles | difference(c.roles, self.all))
    }

    // Those of what is wanted with the fewest roles left to him.
    fn urgent(&self) -> PermissionSet
        ensures part { Within result self.now.wanted }
        ensures some { result ≡ 0 → self.now.wanted ≡ 0 }
    {
        let plan = self.survey.plan;
        let barred = self.shut();
        let mut once: u64 = 0;
        let mut twice: u64 = 0;
        let mut often: u64 = 0;
        // by number: the plan is asked for two rows of one role
        for r in 0u32..64 {
            if plan.juniors(r) & barred == 0 {
                let g = plan.granted(r);
                often |= twice & g;
                twice |= once & g;
                once |= g;
            }
        }
        for held in [once, twice, often] {
            let few = difference(self.wanted, held);
            if few > 0 {
                return few;
            }
        }
        self.wanted
    }

    // The roles of such a user, if there is one.
    fn holder(&self) -> Option<RoleSet>
        ensures { MatchOption result (Nobody self.now) (λ w. Fits self.now w) }
    {
        let plan = self.survey.plan;
        if !plan.satisfies(self.word) {
            return None;
        }
        let Some(k) = lowest(self.urgent()) else {
            return Some(self.word);
        };
        if self.beyond() || self.together() {
            return None;
        }
        // a loop: the closure of a `find_map` would call `holder` again, and be in its cycle of calls
        for (r, gain) in self.survey.gains.iter().enumerate() {
            if contains(plan.granted(r as u32), k) {
                let rest = difference(self.wanted, *gain);
                let next = Sought::of(self.survey, self.word | (1u64 << r), rest);
                if let Some(w) = next.holder() {
                    return Some(w);
                }
            }
        }
        None
    }
}

impl Survey<'_> {
    // The assigned roles of a user who satisfies the constraints and holds the permissions, if there is one; which is free.
    pub fn roles_for(&self, wanted: PermissionSet) -> Option<RoleSet>
        ensures { MatchOption result ((w : ℕ) → HeldWith self.now.plan.now wanted w → ⊥) (λ w. HeldWith self.now.plan.now wanted w) }
    {
        Sought::of(self, 0, wanted).holder()
    }
}
