// Reads a sheet: records of a kind byte and a body whose length the kind fixes, from the front.
#![tactic(auto)]

ghost use Rattle.std.specs.Prelude.{◌≡◌, ◌<◌, Ok, Err};
ghost use Rattle.reading.specs.Format.{Exact, told};
ghost use Rattle.reading.specs.Reading.{opened, closed, reading, answered, filled};

use records::{Record, SheetFault, SheetRefusal, record_at};
use shapes::Shape;
use sheets::Sheet;

// The first record must be the shape.
fn begin(bytes: &[u8]) -> Result<Sheet, SheetFault>
    ensures { result ≡ opened bytes.now }
{
    let Record::Shape { groups, pots } = record_at(bytes, 0)? else {
        return Err(SheetRefusal::ShapeMisplaced.at(0));
    };
    let Some(shape) = Shape::new(groups, pots) else {
        return Err(SheetRefusal::OutOfRange.at(0));
    };
    Ok(Sheet::new(shape))
}

// The end record stands at `place` in a sheet of `len` bytes.
fn close(sheet: &Sheet, place: usize, len: usize) -> Result<(), SheetFault>
    requires { place < len }
    ensures { result ≡ closed sheet.now place len }
{
    if place + 1 < len {
        return Err(SheetRefusal::BytesAfterEnd.at(place + 1));
    }
    if !sheet.is_whole() {
        return Err(SheetRefusal::Incomplete.at(place));
    }
    Ok(())
}

fn whole_sheet(bytes: &[u8]) -> Result<Sheet, SheetFault>
    ensures { result ≡ reading bytes.now }
{
    let mut sheet = begin(bytes)?;
    let mut place = 3;
    // where a record ends is known once it is read
    loop {
        let item = record_at(&bytes[place..], place)?;
        if let Record::End = item {
            break;
        }
        sheet.put(item, place)?;
        place += item.size();
    }
    close(&sheet, place, bytes.len())?;
    Ok(sheet)
}

// Fills the caller's sheet record with what the sheet says, or leaves it as it is and tells the first fault.
#[tactic(auto, using(crate::proofs::Exact::exactly))]
pub fn read(bytes: &[u8], sheet: &mut Sheet) -> Result<(), SheetFault>
    ensures answer { result ≡ answered (reading bytes.now) }
    ensures after { sheet.new ≡ filled (reading bytes.now) sheet.old }
    ensures exact { Exact bytes.now (told result sheet.new) }
    ensures kept { elim result [ Ok _ ↦ Unit {0} | Err _ ↦ sheet.new ≡ sheet.old ] }
{
    *sheet = whole_sheet(bytes)?;
    Ok(())
}
