// The fields of a text, record by record.
ghost use Rattle.std.specs.Prelude.{◌≡◌, true, IfOk, Some};
ghost use Rattle.script.specs.Entries.{place_text, list_text};
ghost use Rattle.script.specs.Listing.{place as place_of, Listed, Told};

use std::alloc::{AllocError, Global};
use std::fmt;
use text::field::{Field, Mark};
use text::walk::{Walk, WrongRecord, count_records};

// Where a field stands in the text, and whether it is the last of its record.
#[derive(Clone, Copy, PartialEq, Eq, Debug)]
pub struct Place {
    pub start: usize,
    pub end: usize,
    // of every place it is true or false: an enum of two would be no plainer
    pub last: bool,
}

impl<'a> From<Field<'a>> for Place {
    ghost from_gives = { λ f p. p ≡ place_of f };

    fn from(field: Field<'a>) -> Place {
        Place {
            start: field.start,
            end: field.end,
            last: !matches!(field.mark, Mark::Comma),
        }
    }
}

// A parenthesis closes after the last field of a record.
impl fmt::Display for Place {
    ghost output = { λ p. Some (place_text p) };

    fn fmt<W: fmt::Write>(&self, f: &mut fmt::Formatter<W>) -> fmt::Result {
        let Place { start, end, last } = *self;
        if last {
            write!(f, "{start}-{end})")
        } else {
            write!(f, "{start}-{end}")
        }
    }
}

// How many records a text has, and the places of all their fields, in one list: a list for each record would be an allocation
// for each, and would be printed the same.
#[derive(PartialEq, Eq, Debug, Drop)]
pub struct FieldList {
    pub records: usize,
    pub places: Vec<Place>,
}

impl fmt::Display for FieldList {
    ghost output = { λ l. Some (list_text l.records l.places.items) };

    fn fmt<W: fmt::Write>(&self, f: &mut fmt::Formatter<W>) -> fmt::Result {
        let records = self.records;
        write!(f, "{records} records")?;
        // a parenthesis opens before the first field of a record
        let mut opening = " (";
        for place in &self.places {
            write!(f, "{opening}{place}")?;
            opening = if place.last { " (" } else { " " };
        }
        Ok(())
    }
}

// The places of the fields up to the text's end, or up to a field that is refused.
fn places(heap: Global, text: &[u8]) -> Result<Vec<Place>, AllocError>
    ensures { IfOk result (λ v. Listed text.now true 0 v.items) }
{
    let mut places = Vec::new(heap);
    // a loop: a push may want memory, and a walk that is refused stays where it stands
    let mut walk = Walk::new(text);
    while let Ok(Some(field)) = walk.next_field() {
        places.push(Place::from(field))?;
    }
    Ok(places)
}

// The fields of a text, or its first wrong record.
pub fn list_fields(heap: Global, text: &[u8]) -> Result<Result<FieldList, WrongRecord>, AllocError>
    ensures { IfOk result (λ o. Told text.now o) }
{
    match count_records(text) {
        Ok(records) => {
            let places = places(heap, text)?;
            Ok(Ok(FieldList { records, places }))
        }
        Err(wrong) => Ok(Err(wrong)),
    }
}
