// The reader: it hands out the fields and records of a text with their places.
ghost use Rattle.std.specs.Prelude.{◌≡◌, ◌≤◌, min, length, MatchResult, ◌==◌};
ghost use Rattle.text.specs.Taken.{Took, Handed, Skipped};
ghost use Rattle.text.specs.Laws.{OneField, OneFault, OneCause};
ghost use Rattle.text.specs.Faults.{FieldRefused, RecordRefused, ColumnsRefused};

use crate::field::{Field, Span, TextFault};

// A reader over lent bytes, and the place where it stands. Its calls leave the text (`same`), a fact of each call.
#[derive(Clone, Copy)]
pub struct Reader<'a> {
    pub(crate) text: &'a [u8],
    pub(crate) at: usize,
    ghost within: { at ≤ length text.now },
}

impl<'a> Reader<'a> {
    // A reader that stands at the text's first byte.
    pub fn new(text: &'a [u8]) -> Reader<'a>
        ensures text { result.text ≡ text.entry }
        ensures at { result.at ≡ 0 }
    {
        Reader { text, at: 0 }
    }

    // A reader that stands at `place`, or at the text's end where that comes first.
    pub fn starting(text: &'a [u8], place: usize) -> Reader<'a>
        ensures text { result.text ≡ text.entry }
        ensures at { result.at ≡ min place (length text.now) }
    {
        let at = place.min(text.len());
        Reader { text, at }
    }

    // Whether no bytes are left, and so no further record.
    pub fn at_end(&self) -> bool
        ensures { result ≡ (self.now.at == length self.now.text.now) }
    {
        self.at == self.text.len()
    }

    // Hands out the next field, or refuses and stays where it stands. Inlined, since for a short field the call and its result
    // cost as much as the search.
    #[inline]
    pub fn next_field(&mut self) -> Result<Field<'a>, TextFault>
        ensures same { self.new.text ≡ self.old.text }
        ensures field { MatchResult result (λ f. Took self.old.text.now self.old.at f self.new.at) (λ e. FieldRefused self.old.text.now self.old.at e × (self.new.at ≡ self.old.at)) }
    {
        let text = self.text;
        let span = self.span()?;
        let Span { quoted, start, end } = span;
        let after = span.past_quote();
        let stop = Reader { text, at: after };
        if let Some((mark, next)) = stop.mark() {
            self.at = next;
            let bytes = &text[start..end];
            return Ok(Field {
                bytes,
                start,
                end,
                quoted,
                mark,
            });
        }
        match text[after] {
            b'\r' | b'\n' => Err(TextFault::BareLineEnd(after)),
            _ if quoted => Err(TextFault::AfterQuote(after)),
            _ => Err(TextFault::StrayQuote(after)),
        }
    }

    // Hands out the next record's fields, as many as there are slots, or refuses and stays where it stands. The slots are lent
    // and not the result, since after a refusal they hold the fields before the fault.
    #[tactic(auto, using(crate::proofs::Faulted::at_most_one))]
    pub fn next_record(&mut self, slots: &mut [Field<'a>]) -> Result<(), TextFault>
        ensures same { self.new.text ≡ self.old.text }
        ensures fields { MatchResult result (λ _. Handed self.old.text.now self.old.at slots.new self.new.at) (λ e. ColumnsRefused self.old.text.now self.old.at slots.old slots.new e × (self.new.at ≡ self.old.at)) }
        ensures once { OneField × OneFault × OneCause }
    {
        let extent = self.record(slots)?;
        if extent.count != slots.len() {
            return Err(TextFault::FieldCount(extent.end));
        }
        self.at = extent.next;
        Ok(())
    }

    // Passes over the next record, whatever its number of fields, and tells that number; or refuses and stays where it stands.
    pub fn skip_record(&mut self) -> Result<usize, TextFault>
        ensures same { self.new.text ≡ self.old.text }
        ensures count { MatchResult result (λ n. Skipped self.old.text.now self.old.at n self.new.at) (λ e. RecordRefused self.old.text.now self.old.at e × (self.new.at ≡ self.old.at)) }
    {
        let extent = self.record(&mut [])?;
        self.at = extent.next;
        Ok(extent.count)
    }
}
