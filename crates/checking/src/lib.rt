// What a program learns of the bytes of a sheet: the sheet record, or the fault that it is to tell.
#![tactic(auto)]

ghost use Rattle.std.specs.Prelude.{◌≡◌};
ghost use Rattle.reading.specs.Reading.{reading};
ghost use Rattle.checking.specs.Checking.{told_above};

mod refusal;

use faults::Fault;
use reading::read;
pub use refusal::Refusal;
use shapes::Shape;
use sheets::Sheet;

// The sheet record that the bytes fill, or their fault with the layer of reading.
pub fn checked(bytes: &[u8]) -> Result<Sheet, Fault>
    ensures { result ≡ told_above (reading bytes.now) }
{
    // A reading sets the whole record, so this shape is never seen.
    let mut sheet = Sheet::new(Shape { groups: 1, pots: 1 });
    read(bytes, &mut sheet)?;
    Ok(sheet)
}
