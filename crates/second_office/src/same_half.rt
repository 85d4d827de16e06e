// A clash rule: two teams are drawn into the same half of the groups.
//
// A rule owes the trait `ClashRule` one definition and one method:
// - `admitted`, which tables it admits. It stands in specs/Halves.antt, and says nothing of how the answer is found.
//   It has to meet the trait's law `removal`: an admitted table stays admitted when a placement is taken out. Its proof
//   stands in the `impl`, and the check finds it, by `Prim.search`; where it does not, a term goes there, as for the
//   law `given` of the source.
// - `admits`, which answers that exactly: yes where the table is admitted, and no where it is not.
ghost use Rattle.std.specs.Prelude.{◌≡◌};
ghost use Rattle.second_office.specs.Halves.{SameHalfAdmits, in_first_half};
ghost use Rattle.std.proofs.Common.{rules};

use rules::ClashRule;
use tables::Table;

// The two teams, and how many groups there are. With an odd number of groups the first half has one more.
#[derive(Clone, Copy, PartialEq, Eq, Debug)]
pub struct SameHalf {
    one: u8,
    other: u8,
    groups: u8,
}

impl SameHalf {
    pub fn new(one: u8, other: u8, groups: u8) -> SameHalf
        ensures { result ≡ record { one = one; other = other; groups = groups } }
    {
        SameHalf { one, other, groups }
    }

    // Whether a group is of the first half.
    fn is_first(&self, group: u8) -> bool
        ensures { result ≡ in_first_half self.now.groups group }
    {
        group < self.groups.div_ceil(2)
    }
}

impl ClashRule for SameHalf {
    ghost admitted = { SameHalfAdmits };

    ghost removal = { Prim.search rules };

    fn admits(&self, table: &Table) -> bool {
        match (table.group_of(self.one), table.group_of(self.other)) {
            (Some(one), Some(other)) => self.is_first(one) == self.is_first(other),
            _ => true,
        }
    }
}
