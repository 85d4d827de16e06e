// Full draws under a clash rule.
ghost use Rattle.shapes.specs.Answers.{Exactly};
ghost use Rattle.tables.specs.Completions.{Completions};
ghost use Rattle.tables.specs.Draws.{Admissible};

use crate::rule::ClashRule;
use shapes::Shape;
use tables::Table;

// Whether a table is an admissible full draw of a shape. What the law of the rule says of completion stands here too.
#[tactic(auto, using(tables::proofs::Completing::completions))]
pub fn is_admissible<R: ClashRule>(rule: &R, shape: Shape, table: &Table) -> bool
    ensures answer { Exactly result (Admissible (R.admitted rule.now) shape table.now) }
    ensures completions { Completions (R.admitted rule.now) }
{
    table.is_full_draw(shape) && rule.admits(table)
}
