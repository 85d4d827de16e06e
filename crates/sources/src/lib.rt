// Where the balls of a draw come from.
#![tactic(auto)]

ghost use Rattle.std.specs.Prelude.{◌≡◌, ℕ, Some, None, Option};
ghost use Rattle.shapes.specs.Answers.{Exactly};
ghost use Rattle.sources.specs.Sources.{Gave, NoneIn};

// Holds the balls of a draw, and gives one of a pot when it is asked. Which one is each source's own affair.
pub trait BallSource {
    // Whether the ball of a team is still in.
    ghost holds: { Self → ℕ → Type 0 };

    // Asked for a ball of a pot, the source gave this answer and became that source.
    ghost answers: { Self → ℕ → Option ℕ → Self → Type 0 };

    // Whether the ball of a team is still in.
    fn holds_ball(&self, team: u8) -> bool
        ensures { Exactly result (holds self.now team) };

    // A ball of the pot, or none where none is in.
    fn give(&mut self, pot: u8) -> Option<u8>
        ensures { answers self.old pot result self.new };

    // A ball that is given is of the pot, was in, and alone is gone afterwards.
    ghost given: { (s : Self) (pot ball : ℕ) (after : Self) → answers s pot (Some ball) after → Gave holds s pot ball after };

    // It refuses only where no ball of the pot is in, and is then as it was. By `given` it gives only a ball that is in,
    // so it refuses exactly there.
    ghost refused: { (s : Self) (pot : ℕ) (after : Self) → answers s pot None after → NoneIn holds s pot × (after ≡ s) };
}
