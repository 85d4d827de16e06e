// How a case is written: parts between commas, words between spaces, numbers in decimal.
ghost use Rattle.std.specs.Prelude.{◌≡◌};
ghost use Rattle.std.specs.IoError.{error_kind};
ghost use Rattle.std.specs.declared.io.ErrorKind.TheVariants.{OutOfMemory};
ghost use Rattle.compare_draws.specs.declared.words.CaseError.{CaseError};

use shapes::Shape;
use std::alloc::AllocError;
use std::num::ParseIntError;
use std::str::FromStr;
use std::{fmt, io};
use tables::Table;

// Why a case is not answered to its end: it is broken, or the program cannot go on.
#[derive(Drop)]
pub(crate) enum CaseError {
    Broken,
    Io(io::Error),
}

impl From<ParseIntError> for CaseError {
    ghost from_gives = { λ error case. case ≡ CaseError.Broken };

    fn from(_error: ParseIntError) -> CaseError {
        CaseError::Broken
    }
}

impl From<io::Error> for CaseError {
    ghost from_gives = { λ error case. case ≡ CaseError.Io error };

    fn from(error: io::Error) -> CaseError {
        CaseError::Io(error)
    }
}

impl From<AllocError> for CaseError {
    ghost from_gives = { λ error case. (e : _) × (case ≡ CaseError.Io e) × (error_kind e ≡ OutOfMemory) };

    fn from(error: AllocError) -> CaseError {
        CaseError::Io(io::Error::from(error))
    }
}

// A line `KIND HEAD, PART, PART ..`.
#[derive(Clone, Copy)]
pub(crate) struct Case<'a> {
    pub(crate) kind: &'a str,
    pub(crate) head: &'a str,
    pub(crate) parts: &'a str,
}

impl<'a> Case<'a> {
    pub(crate) fn of(line: &'a str) -> Case<'a> {
        let (first, parts) = line.split_once(',').unwrap_or((line, ""));
        let (kind, head) = first.split_once(' ').unwrap_or((first, ""));
        Case { kind, head, parts }
    }

    // The words of the first part with this name; none where there is no such part.
    pub(crate) fn words_of(self, name: &str) -> &'a str {
        self.parts
            .split(',')
            .map(name_and_words)
            .find(|(found, _)| *found == name)
            .map_or("", |(_, words)| words)
    }
}

// A part's name and its words.
pub(crate) fn name_and_words(part: &str) -> (&str, &str) {
    let part = part.trim();
    part.split_once(' ').unwrap_or((part, ""))
}

// The numbers before and behind a sign, as those of 16:3. The first is dropped where the second does not parse.
pub(crate) fn two<A, B>(text: &str, sign: char) -> Result<(A, B), CaseError>
where
    A: FromStr<Err = ParseIntError> + Drop,
    B: FromStr<Err = ParseIntError>,
{
    let (first, second) = text.split_once(sign).ok_or(CaseError::Broken)?;
    Ok((first.parse()?, second.parse()?))
}

// The shape of so many groups and pots, of any size.
pub(crate) fn shape_of(words: &str) -> Result<Shape, CaseError> {
    let (groups, pots) = two(words, ' ')?;
    Ok(Shape { groups, pots })
}

// A table with these placings, as far as it takes them.
pub(crate) fn table_of(words: &str) -> Result<Table, CaseError> {
    let mut table = Table::new();
    for word in words.split_whitespace() {
        let (team, group) = two(word, ':')?;
        let _ = table.place(team, group);
    }
    Ok(table)
}

// A number, or `-` where there is none.
#[derive(Clone, Copy)]
pub(crate) struct OrDash(pub(crate) Option<u8>);

impl fmt::Display for OrDash {
    fn fmt<W: fmt::Write>(&self, f: &mut fmt::Formatter<W>) -> fmt::Result {
        match self.0 {
            Some(number) => write!(f, "{number}"),
            None => f.write_str("-"),
        }
    }
}

pub(crate) fn said(yes: bool) -> &'static str {
    if yes { "yes" } else { "no" }
}
