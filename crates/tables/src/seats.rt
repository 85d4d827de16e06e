// Who stands where.
ghost use Rattle.std.specs.Prelude.{◌≡◌};
ghost use Rattle.shapes.specs.Answers.{Exactly};
ghost use Rattle.tables.specs.Tables.{Empty, SeatedAt, Together, group_of};

use crate::table::Table;

impl Table {
    // A table with no placement.
    pub fn new() -> Table
        ensures { Empty result }
    {
        Table { seats: [None; 96] }
    }

    // The group of a team; none where it is not placed, as a number past the last team never is.
    pub fn group_of(&self, team: u8) -> Option<u8>
        ensures { result ≡ group_of self.now team }
    {
        self.seats.get(usize::from(team)).copied().flatten()
    }

    // Whether both teams are placed, in one group.
    pub fn together(&self, one: u8, other: u8) -> bool
        ensures { Exactly result (Together self.now one other) }
    {
        self.group_of(one)
            .is_some_and(|group| self.group_of(other) == Some(group))
    }

    // The team of a pot in a group; none where that seat is free.
    pub fn team_at(&self, pot: u8, group: u8) -> Option<u8>
        ensures { SeatedAt self.now pot group result }
    {
        if pot >= 6 {
            return None;
        }
        (16 * pot..16 * pot + 16).find(|&team| self.group_of(team) == Some(group))
    }
}
