// The case `mix SEED COUNT`: that many outputs of SplitMix64.
use crate::words::{Case, CaseError, two};
use std::io::Write;
use std::iter;
use urns::{mix, step};

pub(crate) fn answer<W: Write>(out: &mut W, case: Case<'_>) -> Result<(), CaseError> {
    let (seed, count) = two::<u64, u16>(case.head, ' ')?;
    let numbers = iter::successors(Some(step(seed)), |&number| Some(step(number)));
    for (place, number) in numbers.take(usize::from(count)).enumerate() {
        if place > 0 {
            write!(out, " ")?;
        }
        write!(out, "{}", mix(number))?;
    }
    Ok(())
}
