// The balls that are in, by the number of their team.
#![tactic(auto)]

ghost use Rattle.std.specs.Prelude.{◌≡◌};
ghost use Rattle.balls.specs.Sets.{WithLower, count_in, has_ball, is_in_set, of_shape, without};

use shapes::Shape;
use std::array;

// One flag for each team number.
#[derive(Clone, Copy, PartialEq, Eq, Debug)]
pub struct BallSet {
    inside: [bool; 96],
}

impl BallSet {
    // The balls of the shape's teams, and no others.
    pub fn of_shape(shape: Shape) -> BallSet
        ensures { result ≡ of_shape shape }
    {
        // a place below 96 is a byte
        BallSet {
            inside: array::from_fn(|team| shape.has_team(team as u8)),
        }
    }

    // Whether the ball of a team is in.
    pub fn has(&self, team: u8) -> bool
        ensures { result ≡ is_in_set self.now team }
    {
        self.is_in(usize::from(team))
    }

    // Takes the ball of a team out, where it is in.
    pub fn take_out(&mut self, team: u8)
        ensures { self.new ≡ without self.old team }
    {
        if team < 96 {
            self.inside[usize::from(team)] = false;
        }
    }

    // How many balls of a pot are in.
    pub fn count(&self, pot: u8) -> u8
        ensures { result ≡ count_in self.now pot }
    {
        (0..16).map(|ball| u8::from(self.has_ball(pot, ball))).sum()
    }

    // The ball of a pot that is in and has exactly `lower` lower balls of that pot in.
    pub fn with_lower(&self, pot: u8, lower: u8) -> Option<u8>
        ensures { WithLower self.now pot lower result }
    {
        // each ball that is in takes one away, up to the one that finds none left
        let ball = (0..16)
            .try_fold(lower, |left, ball| {
                left.checked_sub(u8::from(self.has_ball(pot, ball)))
                    .ok_or(ball)
            })
            .err()?;
        Some(16 * pot + ball)
    }

    // Whether a ball of a pot is in: unlike a team's number, 16 times a pot may pass 255.
    fn has_ball(&self, pot: u8, ball: u8) -> bool
        ensures { result ≡ has_ball self.now pot ball }
    {
        self.is_in(16 * usize::from(pot) + usize::from(ball))
    }

    fn is_in(&self, number: usize) -> bool
        ensures { result ≡ is_in_set self.now number }
    {
        self.inside.get(number).copied().unwrap_or(false)
    }
}
