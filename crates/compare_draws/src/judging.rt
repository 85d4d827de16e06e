// The case `rules, pairs TEAM:TEAM .., of TEAM:ASSOCIATION .., caps ASSOCIATION:CAP .., bars TEAM:BITS ..,
// place TEAM:GROUP ..`: what the clash rules say of a table.
use crate::words::{Case, CaseError, said, table_of, two};
use bars::Bars;
use caps::Caps;
use pairs::Pairs;
use rules::{Both, ClashRule};
use std::alloc::Global;
use std::io::Write;
use std::num::ParseIntError;
use std::str::FromStr;
use tables::Table;

fn pairs_of(heap: Global, words: &str) -> Result<Vec<(u8, u8)>, CaseError> {
    words
        .split_whitespace()
        .map(|word| two(word, ':'))
        .try_collect(heap)
}

// By number, what the words tell of it; the last word decides.
fn by_number<T, const N: usize>(words: &str) -> Result<[Option<T>; N], CaseError>
where
    T: Copy + FromStr<Err = ParseIntError>,
{
    let mut found = [None; N];
    for word in words.split_whitespace() {
        let (number, value) = two::<u8, T>(word, ':')?;
        let entry = found.get_mut(usize::from(number)).ok_or(CaseError::Broken)?;
        *entry = Some(value);
    }
    Ok(found)
}

// What a rule says of a table; a rule that could not be made was refused.
fn verdict<R: ClashRule>(rule: Option<&R>, table: &Table) -> &'static str {
    rule.map_or("refused", |rule| said(rule.admits(table)))
}

// Of more than 64 pairs no rule is made, and so none of all the rules together.
pub(crate) fn answer<W: Write>(out: &mut W, heap: Global, case: Case<'_>) -> Result<(), CaseError> {
    let table = table_of(case.words_of("place"))?;
    let caps = Caps::new(
        &by_number(case.words_of("of"))?,
        &by_number(case.words_of("caps"))?,
    );
    let bars = Bars::new(&by_number(case.words_of("bars"))?);
    let pairs = Pairs::new(pairs_of(heap, case.words_of("pairs"))?.as_slice());
    write!(out, "pairs {}", verdict(pairs.as_ref(), &table))?;
    write!(out, " caps {}", verdict(Some(&caps), &table))?;
    write!(out, " bars {}", verdict(Some(&bars), &table))?;
    let all = pairs.map(|pairs| Both {
        first: pairs,
        second: Both {
            first: caps,
            second: bars,
        },
    });
    write!(out, " all {}", verdict(all.as_ref(), &table))?;
    Ok(())
}
