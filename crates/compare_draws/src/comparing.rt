// The case `compare, one TEAM:GROUP .., other TEAM:GROUP ..`: two tables side by side.
use crate::words::{Case, CaseError, said, table_of};
use std::io::Write;

pub(crate) fn answer<W: Write>(out: &mut W, case: Case<'_>) -> Result<(), CaseError> {
    let one = table_of(case.words_of("one"))?;
    let other = table_of(case.words_of("other"))?;
    write!(out, "contains {}", said(one.contains(&other)))?;
    write!(out, " contained {}", said(other.contains(&one)))?;
    write!(out, " same {}", said(one.is_same(&other)))?;
    Ok(())
}
