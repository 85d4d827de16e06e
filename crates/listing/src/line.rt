// A sheet on one line, for programs that compare answers.
use crate::words::Code;
use shapes::Shape;
use sheets::Sheet;
use std::fmt;
use std::fmt::Formatter;

#[derive(Clone, Copy)]
pub struct Line<'a>(pub &'a Sheet);

impl fmt::Display for Line<'_> {
    fn fmt<W: fmt::Write>(&self, f: &mut Formatter<W>) -> fmt::Result {
        let Shape { groups, pots } = self.0.shape;
        write!(f, "ok {groups} {pots}")?;
        self.write_teams(f)?;
        self.write_pairs(f)?;
        self.write_caps(f)?;
        self.write_bars(f)?;
        self.write_source(f)?;
        writeln!(f)
    }
}

impl Line<'_> {
    fn write_teams<W: fmt::Write>(&self, f: &mut Formatter<W>) -> fmt::Result {
        for (team, entrant) in self.0.teams.iter().enumerate() {
            if let Some(entrant) = entrant {
                // in a T, 0 says that there is none
                let association = entrant.association.unwrap_or(0);
                write!(f, ", T {team} {association} {}", Code(entrant.code))?;
            }
        }
        Ok(())
    }

    fn write_pairs<W: fmt::Write>(&self, f: &mut Formatter<W>) -> fmt::Result {
        for (first, second) in self.0.pairs.iter().take(self.0.listed) {
            write!(f, ", X {first} {second}")?;
        }
        Ok(())
    }

    fn write_caps<W: fmt::Write>(&self, f: &mut Formatter<W>) -> fmt::Result {
        for (association, cap) in self.0.caps.iter().enumerate().skip(1) {
            if let Some(most) = cap {
                write!(f, ", C {association} {most}")?;
            }
        }
        Ok(())
    }

    fn write_bars<W: fmt::Write>(&self, f: &mut Formatter<W>) -> fmt::Result {
        for (team, bars) in self.0.bars.iter().enumerate() {
            if let Some(barred) = bars {
                write!(f, ", B {team} {barred}")?;
            }
        }
        Ok(())
    }

    // The seed, and the script of each pot that has one.
    fn write_source<W: fmt::Write>(&self, f: &mut Formatter<W>) -> fmt::Result {
        if let Some(seed) = self.0.seed {
            write!(f, ", U {seed}")?;
        }
        for (pot, script) in (0..6).zip(&self.0.scripts) {
            if let Some(order) = script {
                write!(f, ", S {pot}")?;
                for ball in order.iter().take(usize::from(self.0.shape.balls(pot))) {
                    write!(f, " {ball}")?;
                }
            }
        }
        Ok(())
    }
}
