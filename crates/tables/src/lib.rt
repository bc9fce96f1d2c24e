// Assignment tables in text: the header `user,role`, then one record for a pair.
#![tactic(auto)]

ghost use Rattle.std.specs.Prelude.{◌≡◌};
ghost use Rattle.tables.specs.declared.RecordFault.TheVariants.{Malformed};

use text::field::TextFault;

mod faults;
pub mod reading;

// What is wrong with a record.
#[derive(Clone, Copy, PartialEq, Eq, Debug)]
pub enum RecordFault {
    // it is no record of two fields
    Malformed(TextFault),
    // a field is no number of one to four digits without a leading zero
    NotANumber,
}

impl From<TextFault> for RecordFault {
    ghost from_gives = { λ f e. e ≡ Malformed f };

    fn from(fault: TextFault) -> RecordFault {
        RecordFault::Malformed(fault)
    }
}
