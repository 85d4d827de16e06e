// What has to be there at the end of a sheet.
ghost use Rattle.std.specs.Prelude.{◌≡◌};
ghost use Rattle.sheets.specs.Taking.{all_named, any_script, all_scripts, has_source, is_whole};

use crate::sheet::Sheet;

impl Sheet {
    // Whether each team of the shape has its T.
    fn all_named(&self) -> bool
        ensures { result ≡ all_named self.now }
    {
        let Sheet { shape, teams, .. } = self;
        (0..96).zip(teams).all(|(team, entrant)| entrant.is_some() || !shape.has_team(team))
    }

    fn any_script(&self) -> bool
        ensures { result ≡ any_script self.now }
    {
        self.scripts.iter().any(Option::is_some)
    }

    // Whether each pot of the shape has its S.
    fn all_scripts(&self) -> bool
        ensures { result ≡ all_scripts self.now }
    {
        self.scripts
            .iter()
            .take(usize::from(self.shape.pots))
            .all(Option::is_some)
    }

    // Whether the sheet names one source of balls: a seed alone, or a script for each pot.
    fn has_source(&self) -> bool
        ensures { result ≡ has_source self.now }
    {
        if self.seed.is_some() {
            !self.any_script()
        } else {
            self.all_scripts()
        }
    }

    // Whether nothing is missing: a T for each team of the shape, and one source of balls.
    pub fn is_whole(&self) -> bool
        ensures { result ≡ is_whole self.now }
    {
        self.all_named() && self.has_source()
    }
}
