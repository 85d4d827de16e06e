// The line of a fault, as programs print it.
ghost use Rattle.std.specs.Prelude.{Some};
ghost use Rattle.faults.specs.Text.{line_of};

use faults::Fault;
use std::fmt;

#[derive(Clone, Copy, PartialEq, Eq, Debug)]
pub struct Refusal(pub Fault);

impl fmt::Display for Refusal {
    ghost output = { λ refusal. Some (line_of refusal.0) };

    fn fmt<W: fmt::Write>(&self, f: &mut fmt::Formatter<W>) -> fmt::Result {
        f.write_str(self.0.line().as_str())
    }
}
