// Answers cases: a line of standard input is a sheet in base 16, its answer a line or a whole listing.
#![tactic(auto)]

ghost use Rattle.std.specs.Prelude.{◌≡◌, ◌<◌, IfSome};
ghost use Rattle.compare_sheets.specs.declared.CaseError.{CaseError};

use checking::{Refusal, checked};
use listing::{Line, Listing};
use std::alloc::{AllocError, Global};
use std::io;
use std::io::{BufRead, BufReader, BufWriter, Write};

// In what form a sheet in order is answered.
#[derive(Clone, Copy)]
enum Form {
    Line,
    Listing,
}

// Why the digits of a case give no sheet.
#[derive(Clone, Copy)]
enum CaseError {
    Broken,
    NoMemory(AllocError),
}

impl From<AllocError> for CaseError {
    ghost from_gives = { λ error case. case ≡ CaseError.NoMemory error };

    fn from(error: AllocError) -> CaseError {
        CaseError::NoMemory(error)
    }
}

// The value of a digit of base 16. `to_digit` would take capitals too, which no case has.
fn digit(letter: u8) -> Option<u8>
    ensures { IfSome result (λ value. value < 16) }
{
    match letter {
        b'0'..=b'9' => Some(letter - b'0'),
        b'a'..=b'f' => Some(letter - b'a' + 10),
        _ => None,
    }
}

// The byte that two digits spell.
fn byte_of(digits: &[u8]) -> Option<u8> {
    let [high, low] = digits else {
        return None;
    };
    Some(16 * digit(*high)? + digit(*low)?)
}

// The bytes that digits spell, two for each.
fn sheet_of(heap: Global, digits: &[u8]) -> Result<Vec<u8>, CaseError> {
    digits
        .chunks(2)
        .map(|pair| byte_of(pair).ok_or(CaseError::Broken))
        .try_collect(heap)
}

fn answer<W: Write>(out: &mut W, form: Form, sheet: &[u8]) -> io::Result<()> {
    match (checked(sheet), form) {
        (Ok(sheet), Form::Line) => write!(out, "{}", Line(&sheet)),
        (Ok(sheet), Form::Listing) => write!(out, "{}", Listing(&sheet)),
        (Err(fault), _) => write!(out, "{}", Refusal(fault)),
    }
}

fn answer_case<W: Write>(out: &mut W, heap: Global, line: &[u8]) -> io::Result<()> {
    let (form, digits) = match line.strip_prefix(b"list ") {
        Some(digits) => (Form::Listing, digits),
        None => (Form::Line, line),
    };
    match sheet_of(heap, digits) {
        Ok(sheet) => answer(out, form, sheet.as_slice()),
        // A broken case shows among the answers.
        Err(CaseError::Broken) => writeln!(out, "bad case"),
        Err(CaseError::NoMemory(error)) => Err(io::Error::from(error)),
    }
}

fn main(rt: HostRuntime) -> io::Result<()> {
    let heap = rt.alloc();
    let mut out = BufWriter::new(heap, rt.stdout())?;
    for line in BufReader::new(heap, rt.stdin())?.split(heap, b'\n') {
        answer_case(&mut out, heap, line?.as_slice())?;
    }
    out.flush()
}
