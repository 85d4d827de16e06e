// A table beside another, and beside a shape.
ghost use Rattle.std.specs.Prelude.{◌≡◌};
ghost use Rattle.shapes.specs.Answers.{Exactly};
ghost use Rattle.tables.specs.Draws.{ContainedIn, FullDraw, Settled};
ghost use Rattle.tables.specs.Tables.{Canonical, group_of};

use crate::table::Table;
use shapes::Shape;

impl Table {
    // Whether each placement of the other table is one of this table too.
    pub fn contains(&self, other: &Table) -> bool
        ensures { Exactly result (ContainedIn other.now self.now) }
    {
        self.seats
            .iter()
            .zip(&other.seats)
            .all(|(mine, theirs)| theirs.is_none() || mine == theirs)
    }

    // Whether the two have the same placements: then they are the same value.
    pub fn is_same(&self, other: &Table) -> bool
        ensures answer { Exactly result (self.now ≡ other.now) }
        ensures canonical { Canonical }
    {
        self == other
    }

    // Whether the table is a full draw of a shape.
    pub fn is_full_draw(&self, shape: Shape) -> bool
        ensures { Exactly result (FullDraw shape self.now) }
    {
        (0..96).all(|team| self.is_settled(shape, team))
    }

    // Whether a number is placed as in a full draw.
    fn is_settled(&self, shape: Shape, team: u8) -> bool
        ensures { Exactly result (Settled shape team (group_of self.now team)) }
    {
        match self.group_of(team) {
            Some(group) => shape.has_team(team) && shape.takes(team / 16, group),
            None => !shape.has_team(team),
        }
    }
}
