// The case `script GROUPS POTS, order BALL .., .., give POT ..`: a script and what it is asked.
use crate::asking::ask_all;
use crate::words::{Case, CaseError, name_and_words, shape_of};
use scripts::Script;
use std::io::Write;

// The sixteen numbers of an order, filled up with 255.
fn order(words: &str) -> Result<[u8; 16], CaseError> {
    let mut order = [255; 16];
    let mut places = order.iter_mut();
    for word in words.split_whitespace() {
        let place = places.next().ok_or(CaseError::Broken)?;
        *place = word.parse()?;
    }
    Ok(order)
}

// The orders of the pots, as far as they are given.
fn orders(parts: &str) -> Result<[Option<[u8; 16]>; 6], CaseError> {
    let mut orders = [None; 6];
    let mut pots = orders.iter_mut();
    for (name, words) in parts.split(',').map(name_and_words) {
        if name == "order" {
            let pot = pots.next().ok_or(CaseError::Broken)?;
            if words != "none" {
                *pot = Some(order(words)?);
            }
        }
    }
    Ok(orders)
}

pub(crate) fn answer<W: Write>(out: &mut W, case: Case<'_>) -> Result<(), CaseError> {
    let shape = shape_of(case.head)?;
    let Some(mut script) = Script::new(shape, &orders(case.parts)?) else {
        write!(out, "refused")?;
        return Ok(());
    };
    ask_all(out, &mut script, case)
}
