// Balls that come by chance, from a seed.
#![tactic(auto)]

ghost use Rattle.std.specs.Prelude.{◌≡◌};
ghost use Rattle.balls.specs.Sets.{of_shape};
ghost use Rattle.urns.specs.SplitMix.{mixed, stepped};
ghost use Rattle.urns.specs.Urns.{Decided, Picked, Started, UrnAnswers, UrnHolds};
ghost use Rattle.urns.specs.Answering.{urn_gave};
ghost use Rattle.std.proofs.Common.{rules};

use balls::BallSet;
use shapes::Shape;
use sources::BallSource;

// The number that SplitMix64 steps to.
pub fn step(number: u64) -> u64
    ensures { result ≡ stepped number }
{
    number.wrapping_add(0x9E37_79B9_7F4A_7C15)
}

// What SplitMix64 makes of a number that it stepped to.
pub fn mix(number: u64) -> u64
    ensures { result ≡ mixed number }
{
    let once = (number ^ (number >> 30)).wrapping_mul(0xBF58_476D_1CE4_E5B9);
    let twice = (once ^ (once >> 27)).wrapping_mul(0x94D0_49BB_1331_11EB);
    twice ^ (twice >> 31)
}

// The ball of a pot that a number picks from those that are in.
fn picked(balls: &BallSet, pot: u8, number: u64) -> Option<u8>
    ensures { Picked balls.now pot number result }
{
    let lower = number.checked_rem(u64::from(balls.count(pot)))?;
    // below the count, and so a byte
    balls.with_lower(pot, lower as u8)
}

// The balls that are still in, and the number that the next pick steps from.
#[derive(Clone, Copy, PartialEq, Eq, Debug)]
pub struct Urn {
    number: u64,
    balls: BallSet,
}

impl Urn {
    // An urn with every ball of the shape.
    pub fn new(shape: Shape, seed: u64) -> Urn
        ensures value { result ≡ record { number = seed; balls = of_shape shape } }
        ensures start { Started shape seed result }
        ensures decided { Decided }
    {
        Urn {
            number: seed,
            balls: BallSet::of_shape(shape),
        }
    }
}

impl BallSource for Urn {
    ghost holds = { UrnHolds };

    ghost answers = { UrnAnswers };

    ghost given = { urn_gave };

    ghost refused = { Prim.search rules };

    fn holds_ball(&self, team: u8) -> bool {
        self.balls.has(team)
    }

    // The number moves only with a ball that is given.
    fn give(&mut self, pot: u8) -> Option<u8> {
        let number = step(self.number);
        let team = picked(&self.balls, pot, mix(number))?;
        self.number = number;
        self.balls.take_out(team);
        Some(team)
    }
}
