ghost use Rattle.tables.specs.Refusing.{shown};

use super::RecordFault;
use terms::refusals::Fault;

impl Fault for RecordFault {
    ghost shown = { shown };

    fn number(&self) -> u32 {
        match self {
            RecordFault::Malformed(_) => 33,
            RecordFault::NotANumber => 34,
        }
    }
}
