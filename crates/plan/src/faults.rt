ghost use Rattle.std.specs.Prelude.{◌≡◌};
ghost use Rattle.plan.specs.Refusing.{shown};

use super::PlanFault;
use terms::refusals::Fault;
use terms::short_list::NoRoom;

impl Fault for PlanFault {
    ghost shown = { shown };

    fn number(&self) -> u32 {
        match self {
            PlanFault::NoRole => 1,
            PlanFault::NoPermission => 2,
            PlanFault::Cycle => 3,
            PlanFault::Limit => 4,
            PlanFault::Wide => 5,
            PlanFault::Full => 6,
        }
    }
}

// A list that has no room for one more policy, or constraint, is full.
impl From<NoRoom> for PlanFault {
    ghost use Rattle.plan.specs.declared.PlanFault.TheVariants.{Full};

    ghost from_gives = { λ _ f. f ≡ Full };

    fn from(_: NoRoom) -> Self {
        Self::Full
    }
}
