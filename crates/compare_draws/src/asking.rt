// The case `urn GROUPS POTS SEED, give POT ..`, and what any ball source is asked.
use crate::words::{Case, CaseError, OrDash, shape_of};
use sources::BallSource;
use std::io::Write;
use urns::Urn;

// Asks for a ball of each pot in turn, and at the end for every ball.
pub(crate) fn ask_all<W: Write, S: BallSource>(
    out: &mut W,
    source: &mut S,
    case: Case<'_>,
) -> Result<(), CaseError> {
    write!(out, "gave")?;
    for word in case.words_of("give").split_whitespace() {
        write!(out, " {}", OrDash(source.give(word.parse()?)))?;
    }
    write!(out, " in")?;
    for team in (0..=255).filter(|&team| source.holds_ball(team)) {
        write!(out, " {team}")?;
    }
    Ok(())
}

pub(crate) fn answer<W: Write>(out: &mut W, case: Case<'_>) -> Result<(), CaseError> {
    let (size, seed) = case.head.rsplit_once(' ').ok_or(CaseError::Broken)?;
    let mut urn = Urn::new(shape_of(size)?, seed.parse()?);
    ask_all(out, &mut urn, case)
}
