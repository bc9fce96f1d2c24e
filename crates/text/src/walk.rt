// A walk over a text without header.
ghost use Rattle.std.specs.Prelude.{◌≡◌, false, MatchResult};
ghost use Rattle.text.specs.Steps.{Step, WholeWalk};
ghost use Rattle.text.specs.Walks.{Counted, FirstWrong};
ghost use Rattle.text.specs.Laws.{Unique};

use crate::field::{Field, Mark, TextFault};
use crate::reader::Reader;

// The first wrong record, counted from 1, and what is wrong with it.
#[derive(Clone, Copy, PartialEq, Eq, Debug)]
pub struct WrongRecord {
    pub number: usize,
    pub fault: TextFault,
}

// The number of records in the text, whatever their number of fields, or the first wrong one. Counted here, since no iterator
// over records would end: a reader that refuses stays where it stands.
#[tactic(auto, using(crate::proofs::Once::reading_unique))]
pub fn count_records(text: &[u8]) -> Result<usize, WrongRecord>
    ensures count { MatchResult result (λ n. Counted text.now n) (λ w. FirstWrong text.now w) }
    ensures unique { Unique }
{
    let mut reader = Reader::new(text);
    let mut count = 0;
    while !reader.at_end() {
        if let Err(fault) = reader.skip_record() {
            return Err(WrongRecord {
                number: count + 1,
                fault,
            });
        }
        count += 1;
    }
    Ok(count)
}

// A walk over the fields of a text, record after record. Its call leaves the text (`same`), a fact of the call.
#[derive(Drop)]
pub struct Walk<'a> {
    reader: Reader<'a>,
    // whether it stands inside a record: a comma came last, and the text's end would end one more field; the last mark itself,
    // as an `Option`, would say no more
    inside: bool,
}

impl<'a> Walk<'a> {
    // A walk that begins at the text's first byte.
    #[tactic(auto, using(crate::proofs::Whole::whole_walk))]
    pub fn new(text: &'a [u8]) -> Walk<'a>
        ensures text { result.reader.text ≡ text.entry }
        ensures start { (result.reader.at ≡ 0) × (result.inside ≡ false) }
        ensures whole { WholeWalk }
    {
        Walk {
            reader: Reader::new(text),
            inside: false,
        }
    }

    // The next field, or none after the last record; where a field is refused the walk stays where it stands.
    pub fn next_field(&mut self) -> Result<Option<Field<'a>>, TextFault>
        ensures same { self.new.reader.text ≡ self.old.reader.text }
        ensures step { Step self.old.reader.text.now self.old.reader.at self.old.inside result self.new.reader.at self.new.inside }
    {
        if !self.inside && self.reader.at_end() {
            return Ok(None);
        }
        let field = self.reader.next_field()?;
        self.inside = matches!(field.mark, Mark::Comma);
        Ok(Some(field))
    }
}
