// The case `table GROUPS POTS, STEP ..`: one table, changed and asked in turn.
use crate::words::{Case, CaseError, OrDash, name_and_words, said, shape_of, two};
use std::io;
use std::io::Write;
use tables::Table;

// Does to the table what a word of a part with this name says, or asks it; no step has another name.
fn take_step<W: Write>(
    out: &mut W,
    table: &mut Table,
    name: &str,
    word: &str,
) -> Result<(), CaseError> {
    match name {
        "take" => write!(out, "{} ", OrDash(table.take_off(word.parse()?)))?,
        "group" => write!(out, "{} ", OrDash(table.group_of(word.parse()?)))?,
        "place" => {
            let (team, group) = two(word, ':')?;
            write!(out, "{} ", said(table.place(team, group)))?;
        }
        "seat" => {
            let (pot, group) = two(word, ':')?;
            write!(out, "{} ", OrDash(table.team_at(pot, group)))?;
        }
        "together" => {
            let (one, other) = two(word, ':')?;
            write!(out, "{} ", said(table.together(one, other)))?;
        }
        _ => return Err(CaseError::Broken),
    }
    Ok(())
}

fn write_table<W: Write>(out: &mut W, table: &Table) -> io::Result<()> {
    write!(out, "table")?;
    for (team, group) in (0..=255).filter_map(|team| Some((team, table.group_of(team)?))) {
        write!(out, " {team}:{group}")?;
    }
    Ok(())
}

pub(crate) fn answer<W: Write>(out: &mut W, case: Case<'_>) -> Result<(), CaseError> {
    let shape = shape_of(case.head)?;
    let mut table = Table::new();
    for (name, words) in case.parts.split(',').map(name_and_words) {
        for word in words.split_whitespace() {
            take_step(out, &mut table, name, word)?;
        }
    }
    write_table(out, &table)?;
    write!(out, " full {}", said(table.is_full_draw(shape)))?;
    Ok(())
}
