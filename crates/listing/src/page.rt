// The listing of a sheet. Any sheet record can be listed, also one that no reading filled.
use crate::words::{Code, Count, Group, Heading, Letters};
use shapes::Shape;
use sheets::Sheet;
use std::fmt;
use std::fmt::Formatter;

#[derive(Clone, Copy)]
pub struct Listing<'a>(pub &'a Sheet);

impl fmt::Display for Listing<'_> {
    fn fmt<W: fmt::Write>(&self, f: &mut Formatter<W>) -> fmt::Result {
        self.write_shape(f)?;
        self.write_pots(f)?;
        self.write_pairs(f)?;
        self.write_caps(f)?;
        self.write_bars(f)?;
        self.write_source(f)
    }
}

impl Listing<'_> {
    fn write_shape<W: fmt::Write>(&self, f: &mut Formatter<W>) -> fmt::Result {
        let Shape { groups, pots } = self.0.shape;
        write!(f, "{} (A", Count(u16::from(groups), "group"))?;
        if groups > 1 {
            write!(f, " to {}", Group(groups - 1))?;
        }
        let pots = u16::from(pots);
        writeln!(
            f,
            "), {}, {}",
            Count(pots, "pot"),
            Count(u16::from(groups) * pots, "team")
        )
    }

    fn write_pots<W: fmt::Write>(&self, f: &mut Formatter<W>) -> fmt::Result {
        for team in (0..96).filter(|&team| self.0.shape.has_team(team)) {
            if team % 16 == 0 {
                writeln!(f, "Pot {}", team / 16 + 1)?;
            }
            write!(f, "  {team:>2} {}", self.code(team))?;
            match self.0.association(team) {
                Some(association) => writeln!(f, " association {association}")?,
                None => writeln!(f, " no association")?,
            }
        }
        Ok(())
    }

    fn write_pairs<W: fmt::Write>(&self, f: &mut Formatter<W>) -> fmt::Result {
        let heading = Heading {
            title: "Pairs",
            any: self.0.listed > 0,
        };
        writeln!(f, "{heading}")?;
        for (first, second) in self.0.pairs.iter().take(self.0.listed) {
            write!(f, "  {first:>2} {}", self.code(*first))?;
            writeln!(f, " and {second} {}", self.code(*second))?;
        }
        Ok(())
    }

    fn write_caps<W: fmt::Write>(&self, f: &mut Formatter<W>) -> fmt::Result {
        let any = self.0.caps.iter().skip(1).any(Option::is_some);
        writeln!(f, "{}", Heading { title: "Caps", any })?;
        for (association, cap) in self.0.caps.iter().enumerate().skip(1) {
            if let Some(most) = cap {
                writeln!(f, "  association {association}: at most {most} in a group")?;
            }
        }
        Ok(())
    }

    fn write_bars<W: fmt::Write>(&self, f: &mut Formatter<W>) -> fmt::Result {
        let any = self.0.bars.iter().any(Option::is_some);
        writeln!(f, "{}", Heading { title: "Bars", any })?;
        for (team, bars) in (0..96).zip(&self.0.bars) {
            if let Some(barred) = bars {
                writeln!(f, "  {team:>2} {} {}", self.code(team), Letters(*barred))?;
            }
        }
        Ok(())
    }

    fn write_source<W: fmt::Write>(&self, f: &mut Formatter<W>) -> fmt::Result {
        if let Some(seed) = self.0.seed {
            return writeln!(f, "Source: urn, seed {seed}");
        }
        writeln!(f, "Source: script")?;
        // A pot's teams in the order of their balls; `---` where the number has no T.
        for (pot, script) in (0..6).zip(&self.0.scripts) {
            if let Some(order) = script {
                write!(f, "  pot {}:", u16::from(pot) + 1)?;
                for ball in order.iter().take(usize::from(self.0.shape.balls(pot))) {
                    let team = pot.saturating_mul(16).saturating_add(*ball);
                    write!(f, " {}", self.code(team))?;
                }
                writeln!(f)?;
            }
        }
        Ok(())
    }

    fn code(&self, team: u8) -> Code {
        Code(self.0.code(team))
    }
}
