// A ball source: balls in the order in which an official typed their numbers.
//
// A source owes the trait `BallSource` two definitions, which stand in specs/Typing.antt, and two methods:
// - `holds`, which balls are in, and `answers`, what the source gives and what it is afterwards. They have to meet the
//   trait's laws: by `given`, a ball that is given was in, is of the pot, and alone is gone; by `refused`, a refusal
//   comes only where no ball of the pot is in, and changes nothing. The proofs of both stand in the `impl`: that of
//   `given` cites a lemma of specs/Places.antt, and that of `refused` the check finds, by `Prim.search`.
// - `holds_ball` and `give`, which answer what the definitions say.
ghost use Rattle.std.specs.Prelude.{◌≡◌};
ghost use Rattle.second_office.specs.Typing.{FirstOf, TypedAnswers, TypedFrom, TypedHolds, place_of};
ghost use Rattle.second_office.specs.Places.{typed_gave};
ghost use Rattle.std.proofs.Common.{rules};

use sources::BallSource;

// By team number, the place at which the number was typed first; none where it was not typed, or its ball is out.
#[derive(Clone, Copy, PartialEq, Eq, Debug)]
pub struct Typed {
    places: [Option<usize>; 96],
}

impl Typed {
    // The balls of the numbers that were typed. A number that comes again counts once, and one of no team is passed over.
    pub fn new(numbers: &[u8]) -> Typed
        ensures { TypedFrom numbers.now result }
    {
        // one pass, where a search for each team would be 96
        let mut places = [None; 96];
        for (place, &number) in numbers.iter().enumerate() {
            let team = usize::from(number);
            if team < 96 && places[team].is_none() {
                places[team] = Some(place);
            }
        }
        Typed { places }
    }

    fn place_of(&self, team: u8) -> Option<usize>
        ensures { result ≡ place_of self.now team }
    {
        self.places.get(usize::from(team)).copied().flatten()
    }

    // Of the balls of a pot that are in, the one that was typed first.
    fn first_of(&self, pot: u8) -> Option<u8>
        ensures { FirstOf self.now pot result }
    {
        (0..96)
            .filter(|&team| team / 16 == pot && self.holds_ball(team))
            .min_by_key(|&team| self.place_of(team))
    }
}

impl BallSource for Typed {
    ghost holds = { TypedHolds };

    ghost answers = { TypedAnswers };

    ghost given = { typed_gave };

    ghost refused = { Prim.search rules };

    fn holds_ball(&self, team: u8) -> bool {
        self.place_of(team).is_some()
    }

    fn give(&mut self, pot: u8) -> Option<u8> {
        let team = self.first_of(pot)?;
        self.places[usize::from(team)] = None;
        Some(team)
    }
}
