// The clash rule of bars: no placed team stands in a group that is barred to it.
#![tactic(auto)]

ghost use Rattle.std.specs.Prelude.{◌≡◌};
ghost use Rattle.bars.specs.Barred.{BarsAdmit, Respected};
ghost use Rattle.shapes.specs.Answers.{Exactly};
ghost use Rattle.std.proofs.Common.{rules};

use rules::ClashRule;
use tables::Table;

// By team number, the groups that are barred to the team: bit g, worth 2^g, bars group g. A team with no entry may
// stand in any group.
#[derive(Clone, Copy, PartialEq, Eq, Debug)]
pub struct Bars {
    barred: [Option<u16>; 96],
}

impl Bars {
    // The rule of these bars.
    pub fn new(barred: &[Option<u16>; 96]) -> Bars
        ensures { result.barred ≡ barred.now }
    {
        Bars { barred: *barred }
    }

    // Whether a team stands in no group that is barred to it.
    fn is_respected(&self, table: &Table, team: u8) -> bool
        ensures { Exactly result (Respected self.now table.now team) }
    {
        match (table.group_of(team), self.barred.get(usize::from(team))) {
            // the group of a table, so below 16: a function of any group would test that at each team
            (Some(group), Some(&Some(groups))) => (groups >> group) % 2 == 0,
            _ => true,
        }
    }
}

impl ClashRule for Bars {
    ghost admitted = { BarsAdmit };

    ghost removal = { Prim.search rules };

    fn admits(&self, table: &Table) -> bool {
        (0..96).all(|team| self.is_respected(table, team))
    }
}
