// The reader of an assignment table: a pair for each record.
ghost use Rattle.std.specs.Prelude.{◌≡◌, ◌≤◌, ◌⊎◌, length, MatchOption, MatchResult};
ghost use Rattle.text.specs.Numbers.{Number, NoNumber};
ghost use Rattle.text.specs.FirstLine.{Headed, NotHeaded};
ghost use Rattle.tables.specs.Listing.{header};
ghost use Rattle.tables.specs.Records.{digits, TakesPair, RefusesRecord};

use super::RecordFault;
use text::field::Field;
use text::header::header_end;
use text::reader::Reader;

// The most digits of a number in a table.
const DIGITS: usize = 4;

// One pair of a table.
#[derive(Clone, Copy, PartialEq, Eq, Debug)]
pub struct Pair {
    pub user: u32,
    pub role: u32,
}

// A reader over a table's lent bytes, which stands where its next record begins.
#[derive(Clone, Copy)]
pub struct PairReader<'a> {
    reader: Reader<'a>,
}

// The pair whose numbers the fields write, if both write one. The casts lose nothing: four digits fit.
fn pair_of(user: &Field, role: &Field) -> Option<Pair>
    ensures { MatchOption result (NoNumber digits user.now.bytes.now ⊎ NoNumber digits role.now.bytes.now) (λ p. Number digits user.now.bytes.now p.user × Number digits role.now.bytes.now p.role) }
{
    let user = user.number(DIGITS)?;
    let role = role.number(DIGITS)?;
    Some(Pair {
        user: user as u32,
        role: role as u32,
    })
}

impl<'a> PairReader<'a> {
    // A reader that stands after the header; none where the bytes before the first CR LF, or all, are not the header.
    pub fn new(text: &'a [u8]) -> Option<PairReader<'a>>
        ensures start { MatchOption result (NotHeaded header text.now) (λ p. (p.reader.text ≡ text.entry) × Headed header text.now p.reader.at) }
    {
        let at = header_end(text, b"user,role")?;
        let reader = Reader::starting(text, at);
        Some(PairReader { reader })
    }

    // The next record's pair, none after the last; where a record is wrong the reader stays where it stands.
    pub fn next_pair(&mut self) -> Result<Option<Pair>, RecordFault>
        ensures same { self.new.reader.text ≡ self.old.reader.text }
        ensures pair { MatchResult result (λ o. MatchOption o ((length self.old.reader.text.now ≤ self.old.reader.at) × (self.new.reader.at ≡ self.old.reader.at)) (λ p. TakesPair self.old.reader.text.now self.old.reader.at p.user p.role self.new.reader.at)) (λ e. RefusesRecord self.old.reader.text.now self.old.reader.at e self.new.reader.at) }
    {
        if self.reader.at_end() {
            return Ok(None);
        }
        let mut reader = self.reader;
        let mut slots = [Field::empty(); 2];
        reader.next_record(&mut slots)?;
        let [user, role] = slots;
        let Some(pair) = pair_of(&user, &role) else {
            return Err(RecordFault::NotANumber);
        };
        self.reader = reader;
        Ok(Some(pair))
    }
}
