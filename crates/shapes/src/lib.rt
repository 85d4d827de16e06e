// The shape of a draw: how many groups and pots it has, and which teams.
#![tactic(auto)]

ghost use Rattle.std.specs.Prelude.{◌≡◌, ◌*◌};
ghost use Rattle.shapes.specs.Answers.{Exactly};
ghost use Rattle.shapes.specs.Teams.{HasTeam, Sized, Takes, balls_of, has_team, shape_of, team_count};

// 1 to 16 groups and 1 to 6 pots, where it was made by `new`.
#[derive(Clone, Copy, PartialEq, Eq, Debug)]
pub struct Shape {
    pub groups: u8,
    pub pots: u8,
}

impl Shape {
    // The shape of so many groups and pots, where a draw can have it.
    pub fn new(groups: u8, pots: u8) -> Option<Shape>
        ensures { result ≡ shape_of groups pots }
    {
        match (groups, pots) {
            (1..=16, 1..=6) => Some(Shape { groups, pots }),
            _ => None,
        }
    }

    // How many balls a pot has: one for each group, and none past the last pot.
    pub fn balls(self, pot: u8) -> u8
        ensures { result ≡ balls_of self pot }
    {
        if pot < self.pots { self.groups } else { 0 }
    }

    // Whether the shape has a team of this number: 16 times its pot, and its ball.
    pub fn has_team(self, team: u8) -> bool
        ensures test { result ≡ has_team self team }
        ensures exact { Exactly result (HasTeam self team) }
    {
        team < 96 && team % 16 < self.balls(team / 16)
    }

    // Whether a group takes a team of a pot: each group of the shape does, of each of its pots.
    pub fn takes(self, pot: u8, group: u8) -> bool
        ensures { Exactly result (Takes self pot group) }
    {
        pot < self.pots && group < self.groups
    }

    // How many teams there are; as many as groups times pots, where the shape is one of a draw.
    pub fn teams(self) -> u8
        ensures count { result ≡ team_count self }
        ensures product { Sized self.groups self.pots → result ≡ self.groups * self.pots }
    {
        // at most 96, and so a byte; a sum of bytes is done by vectors, where `filter` with `count` goes one by one
        (0..96).map(|team| u8::from(self.has_team(team))).sum()
    }
}
