// A second office: a ball source and a clash rule of its own, written against the traits alone. Nothing of the engine is
// changed for them, and what is written over every source and every rule takes them as it takes the engine's own.
#![tactic(auto)]

mod same_half;
mod typed;

use pairs::Pairs;
use rules::{Both, ClashRule};
use same_half::SameHalf;
use sources::BallSource;
use std::io;
use tables::Table;
use typed::Typed;

// What a source gives when it is asked for these pots, one after the other.
fn show_balls<S: BallSource>(rt: &impl Print, source: &mut S, pots: &[u8]) -> io::Result<()> {
    for &pot in pots {
        match source.give(pot) {
            Some(team) => println!(rt; "pot {pot}: the ball of team {team}")?,
            None => println!(rt; "pot {pot}: refused, none of its balls is in")?,
        }
    }
    Ok(())
}

// Whether a source still has the ball of a team.
fn show_ball<S: BallSource>(rt: &impl Print, source: &S, team: u8) -> io::Result<()> {
    let not = if source.holds_ball(team) { "" } else { "not " };
    println!(rt; "the ball of team {team} is {not}in")
}

// What a rule answers on a table.
fn show_answer<R: ClashRule>(
    rt: &impl Print,
    name: &str,
    rule: &R,
    table: &Table,
) -> io::Result<()> {
    let not = if rule.admits(table) { "" } else { "not " };
    println!(rt; "  by {name}: {not}admitted")
}

// What the rule of this office answers, alone and beside one of the engine's, on the table of these placements, each a
// team and its group; one that cannot be placed is left out.
fn show_rules(
    rt: &impl Print,
    title: &str,
    pairs: Pairs,
    placements: &[(u8, u8)],
) -> io::Result<()> {
    let mut table = Table::new();
    for &(team, group) in placements {
        let _ = table.place(team, group);
    }
    // Of five groups, 0 to 2 are the first half.
    let same_half = SameHalf::new(3, 20, 5);
    let both = Both {
        first: same_half,
        second: pairs,
    };
    println!(rt; "{title}:")?;
    show_answer(rt, "same half", &same_half, &table)?;
    show_answer(rt, "same half and pairs", &both, &table)
}

fn main(rt: HostRuntime) -> io::Result<()> {
    // 3 comes twice and counts once; 200 is no team's number.
    let mut typed = Typed::new(&[20, 3, 200, 3, 17, 0]);
    show_ball(&rt, &typed, 3)?;
    show_ball(&rt, &typed, 200)?;
    show_balls(&rt, &mut typed, &[0, 1, 0, 0, 1, 6])?;
    show_ball(&rt, &typed, 3)?;

    // Teams 3 and 17 are kept apart.
    let Some(pairs) = Pairs::new(&[(3, 17)]) else {
        return Ok(());
    };
    for (title, placements) in [
        ("team 3 in group 0, team 20 in no group", &[(3, 0)][..]),
        ("team 3 in group 0, team 20 in group 2", &[(3, 0), (20, 2)]),
        ("team 3 in group 0, team 20 in group 3", &[(3, 0), (20, 3)]),
        (
            "teams 3 and 17 in group 4, team 20 in group 3",
            &[(3, 4), (17, 4), (20, 3)],
        ),
    ] {
        show_rules(&rt, title, pairs, placements)?;
    }
    Ok(())
}
