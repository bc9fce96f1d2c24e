// Several users: how a set of permissions can be shared out, so that as few as possible hold it together.
ghost use Rattle.std.specs.Prelude.{◌≡◌, ℕ, ◌+◌, ◌<◌, ◌≤◌, true, false, List, length, MatchOption};
ghost use Rattle.terms.specs.Lists.{listed};
ghost use Rattle.judge.specs.Search.{Covers, Fewest, Share, Shared, JoinedBy};
ghost use Rattle.holding.specs.Holding.{HeldWith};
ghost use Rattle.judge.specs.Memory.{MemoRight};

use super::memo::{Known, Memo, Single};
use holding::Survey;
use terms::sets::{Members, PermissionSet, RoleSet, difference, lowest};
use terms::short_list::ShortList;

// At most seven users, by their assigned roles.
pub(crate) type Users = ShortList<RoleSet, 7>;

// A search for users of one plan: what was surveyed of it, and what has been found out of it. Each call leaves the survey as
// it is (`same`), so what it learns of the plan stays true.
#[derive(Drop)]
pub struct Search<'a> {
    survey: &'a Survey<'a>,
    memo: Memo<'a>,
    ghost right: { MemoRight survey.now.plan.now memo },
}

impl<'a> Search<'a> {
    // A search that begins with what the memo knows.
    pub(crate) fn over(survey: &'a Survey<'a>, memo: Memo<'a>) -> Search<'a>
        requires { MemoRight survey.now.plan.now memo }
        ensures { result.survey.now ≡ survey.now }
    {
        Search { survey, memo }
    }

    // What is surveyed.
    pub(crate) fn survey(&self) -> &'a Survey<'a>
        ensures { result.now ≡ self.now.survey.now }
    {
        self.survey
    }

    // Whether one user who satisfies the constraints can hold the set.
    fn holdable(&mut self, held: PermissionSet) -> bool
        ensures yes { result ≡ true → ∥ ((w : ℕ) × HeldWith self.old.survey.now.plan.now held w) ∥₁ }
        ensures no { result ≡ false → (w : ℕ) → HeldWith self.old.survey.now.plan.now held w → ⊥ }
        ensures same { self.new.survey.now ≡ self.old.survey.now }
    {
        let slot = self.memo.slot(held);
        let known = self.memo.known(slot);
        match known.single {
            Single::Never => return false,
            Single::Held => return true,
            Single::Unknown => {}
        }
        let found = self.survey.roles_for(held).is_some();
        let single = if found { Single::Held } else { Single::Never };
        self.memo.note(slot, Known { single, ..known });
        found
    }

    // The users and one more, with roles that hold `mine`.
    fn joined(&self, mine: PermissionSet, others: Users) -> Option<Users>
        requires few { length (listed others) < 7 }
        ensures { MatchOption result ((w : ℕ) → HeldWith self.now.survey.now.plan.now mine w → ⊥) (λ us. JoinedBy self.now.survey.now.plan.now mine (listed others) (listed us)) }
    {
        let word = self.survey.roles_for(mine)?;
        let mut users = others;
        users.push(word).ok()?;
        Some(users)
    }

    // One user who holds `mine`, and at most `n` others, who hold `left`; each permission of `open` is held by him or by them.
    fn share(
        &mut self,
        n: usize,
        open: PermissionSet,
        mine: PermissionSet,
        left: PermissionSet,
    ) -> Option<Users>
        requires few { n < 7 }
        ensures answer { MatchOption result (Share self.old.survey.now.plan.now n «open» mine left → ⊥) (λ us. Shared self.old.survey.now.plan.now n «open» mine left (listed us)) }
        ensures same { self.new.survey.now ≡ self.old.survey.now }
    {
        let Some(k) = lowest(open) else {
            if !self.holdable(mine) {
                return None;
            }
            let Some(low) = lowest(left) else {
                return self.joined(mine, Users::new(0));
            };
            let slot = self.memo.slot(left);
            if n <= self.memo.known(slot).short as usize {
                return None;
            }
            let bit = 1u64 << low;
            let Some(others) = self.share(n - 1, difference(left, bit), bit, 0) else {
                let known = self.memo.known(slot);
                let short = n as u8;
                self.memo.note(slot, Known { short, ..known });
                return None;
            };
            return self.joined(mine, others);
        };
        let bit = 1u64 << k;
        let rest = difference(open, bit);
        let more = mine | bit;
        if self.holdable(more) {
            if let Some(us) = self.share(n, rest, more, left) {
                return Some(us);
            }
        }
        if n == 0 {
            return None;
        }
        self.share(n, rest, mine, left | bit)
    }

    // Whether nobody who satisfies the constraints holds some one permission of `wanted`.
    fn barren(&mut self, wanted: PermissionSet) -> bool
        ensures answer { result ≡ true → (ws : List ℕ) → Covers self.old.survey.now.plan.now wanted ws → ⊥ }
        ensures same { self.new.survey.now ≡ self.old.survey.now }
    {
        // a loop, and not `any`: each turn changes the memo through `self`, of which the closure's caller keeps no fact
        for k in Members::of(wanted) {
            if !self.holdable(1u64 << k) {
                return true;
            }
        }
        false
    }

    // The fewest users, if fewer than `below`, who satisfy the constraints and together hold all of `wanted`.
    pub(crate) fn fewest_users(&mut self, wanted: PermissionSet, below: u32) -> Option<Users>
        requires few { (below ≤ 8) × (0 < wanted) }
        ensures answer { MatchOption result ((ws : List ℕ) → Covers self.old.survey.now.plan.now wanted ws → below ≤ length ws) (λ us. Fewest self.old.survey.now.plan.now wanted below (listed us)) }
        ensures same { self.new.survey.now ≡ self.old.survey.now }
    {
        let low = lowest(wanted)?;
        self.memo.look_up_in(wanted);
        if self.barren(wanted) {
            return None;
        }
        let bit = 1u64 << low;
        let rest = difference(wanted, bit);
        // a loop, for the same reason as in `barren`
        for n in 0..(below as usize).saturating_sub(1) {
            if let Some(us) = self.share(n, rest, bit, 0) {
                return Some(us);
            }
        }
        None
    }
}
