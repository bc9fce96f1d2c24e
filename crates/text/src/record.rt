// The fields of one record, from the first to its end.
ghost use Rattle.std.specs.Prelude.{◌≡◌, ◌≤◌, length, MatchResult, slice_set};
ghost use Rattle.text.specs.Extents.{ReadRecord, BrokenRecord};

use crate::field::{Field, Mark, TextFault};
use crate::reader::Reader;

// How far a record goes: its number of fields, the place of its end, and the place after that.
#[derive(Clone, Copy, PartialEq, Eq, Debug)]
pub(crate) struct Extent {
    pub(crate) count: usize,
    pub(crate) end: usize,
    pub(crate) next: usize,
}

// Keeps a record's field number `i`, if there is a slot for it: by index, since a proof knows no element that is written
// through what `get_mut` lends.
fn keep<'a>(slots: &mut [Field<'a>], i: usize, field: Field<'a>)
    ensures { slots.new ≡ slice_set slots.old i field.entry }
{
    if i < slots.len() {
        slots[i] = field;
    }
}

impl<'a> Reader<'a> {
    // Reads the record that begins here to its end, and keeps the first of its fields in `slots`. Inlined, so that a caller
    // without slots keeps nothing.
    #[inline(always)]
    pub(crate) fn record(&self, slots: &mut [Field<'a>]) -> Result<Extent, TextFault>
        ensures { MatchResult result (λ x. ReadRecord self.now.text.now self.now.at slots.old slots.new x) (λ e. BrokenRecord self.now.text.now self.now.at slots.old slots.new e) }
    {
        let mut reader = *self;
        // the number of fields is what is asked, and each goes to its slot
        let mut count = 0;
        loop {
            let field = reader.next_field()?;
            keep(slots, count, field);
            count += 1;
            if field.mark != Mark::Comma {
                let span = field.span();
                return Ok(Extent {
                    count,
                    end: span.past_quote(),
                    next: reader.at,
                });
            }
        }
    }
}
