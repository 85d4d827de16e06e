// One placement more, or one less.
ghost use Rattle.std.specs.Prelude.{◌≡◌, MatchBool};
ghost use Rattle.shapes.specs.Answers.{Exactly};
ghost use Rattle.tables.specs.Tables.{Placeable, With, Without, group_of};

use crate::table::Table;

impl Table {
    // Places a team in a group, where it can be placed there, and tells whether it could: a yes or no, as from an
    // insertion into a set, since there is no value beside it.
    pub fn place(&mut self, team: u8, group: u8) -> bool
        ensures answer { Exactly result (Placeable self.old team group) }
        ensures after { MatchBool result (With self.old team group self.new) (self.new ≡ self.old) }
    {
        if !self.can_place(team, group) {
            return false;
        }
        self.seats[usize::from(team)] = Some(group);
        true
    }

    // Takes the placement of a team off, and tells which group it had; none where it was not placed.
    pub fn take_off(&mut self, team: u8) -> Option<u8>
        ensures answer { result ≡ group_of self.old team }
        ensures after { Without self.old team self.new }
    {
        let group = self.group_of(team)?;
        self.seats[usize::from(team)] = None;
        Some(group)
    }

    fn can_place(&self, team: u8, group: u8) -> bool
        ensures { Exactly result (Placeable self.now team group) }
    {
        team < 96
            && group < 16
            && self.group_of(team).is_none()
            && self.team_at(team / 16, group).is_none()
    }
}
