// Balls that come in orders written down, one for each pot.
#![tactic(auto)]

ghost use Rattle.std.specs.Prelude.{ℕ, ◌<◌, ◌≤◌, IfSome, None, Decides, MatchOption, slice_index_or};
ghost use Rattle.shapes.specs.Teams.{balls_of, pot_of};
ghost use Rattle.sources.specs.Sources.{NoneIn};
ghost use Rattle.scripts.specs.Scripts.{At, Decided, FirstIn, FirstOf, HasOrder, HoldsTeams, Made, NoneOf, ScriptAnswers, ScriptHolds};
ghost use Rattle.scripts.specs.Laws.{gave};
ghost use Rattle.std.proofs.Common.{rules};

use balls::BallSet;
use orders::is_order;
use shapes::Shape;
use sources::BallSource;

// The balls that are in, and by pot the order in which they come. No `==` and no `Debug`: they would look at what stands
// for a pot past the last, which two scripts that give the same balls need not share.
#[derive(Clone, Copy)]
pub struct Script {
    orders: [Option<[u8; 16]>; 6],
    balls: BallSet,
}

// Whether there is an order of so many balls.
fn has_order(order: &Option<[u8; 16]>, balls: u8) -> bool
    ensures { Decides result (HasOrder balls order.now) }
{
    order.as_ref().is_some_and(|order| is_order(order, balls))
}

// Whether each pot of the shape has an order of its balls.
fn all_ordered(shape: Shape, orders: &[Option<[u8; 16]>; 6]) -> bool
    requires { shape.pots ≤ 6 }
    ensures { Decides result ((pot : ℕ) → pot < shape.pots → HasOrder (balls_of shape pot) (slice_index_or orders.now pot None)) }
{
    (0..shape.pots)
        .zip(orders)
        .all(|(pot, order)| has_order(order, shape.balls(pot)))
}

// The team of the first ball of an order that is in.
fn first_of(order: &[u8; 16], balls: &BallSet, pot: u8) -> Option<u8>
    requires { pot < 6 }
    ensures { MatchOption result (NoneOf order.now balls.now pot) (FirstOf order.now balls.now pot) }
{
    order
        .iter()
        .find(|&&ball| ball < 16 && balls.has(16 * pot + ball))
        .map(|ball| 16 * pot + ball)
}

impl Script {
    // The script of a shape in these orders, where each of its pots has an order of its balls.
    #[tactic(auto, using(crate::specs::Laws::decided))]
    pub fn new(shape: Shape, orders: &[Option<[u8; 16]>; 6]) -> Option<Script>
        ensures made { Made shape orders.now result }
        ensures holds { IfSome result (HoldsTeams shape) }
        ensures decided { Decided }
    {
        if Shape::new(shape.groups, shape.pots).is_some() && all_ordered(shape, orders) {
            Some(Script {
                orders: *orders,
                balls: BallSet::of_shape(shape),
            })
        } else {
            None
        }
    }

    // Whether the ball of a team stands in the order of its pot.
    fn is_named(&self, team: u8) -> bool
        ensures { Decides result ((place : ℕ) × At self.now (pot_of team) place team) }
    {
        matches!(self.orders.get(usize::from(team / 16)), Some(Some(order)) if order.contains(&(team % 16)))
    }

    // The team whose ball comes next from a pot.
    fn first_in(&self, pot: u8) -> Option<u8>
        ensures { MatchOption result (NoneIn ScriptHolds self.now pot) (FirstIn self.now pot) }
    {
        let order = self.orders.get(usize::from(pot))?.as_ref()?;
        first_of(order, &self.balls, pot)
    }
}

impl BallSource for Script {
    ghost holds = { ScriptHolds };

    ghost answers = { ScriptAnswers };

    ghost given = { gave };

    ghost refused = { Prim.search rules };

    fn holds_ball(&self, team: u8) -> bool {
        self.balls.has(team) && self.is_named(team)
    }

    fn give(&mut self, pot: u8) -> Option<u8> {
        let team = self.first_in(pot)?;
        self.balls.take_out(team);
        Some(team)
    }
}
