ghost use Rattle.judge.specs.Judging.{shown};

use super::JudgeFault;
use terms::refusals::Fault;

impl Fault for JudgeFault {
    ghost shown = { shown };

    fn number(&self) -> u32 {
        match self {
            JudgeFault::Unenforced => 7,
        }
    }
}
