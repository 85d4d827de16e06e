// What the rule admits.
ghost use Rattle.std.specs.Prelude.{◌≡◌};
ghost use Rattle.caps.specs.Caps.{CapsAdmit, association_of, cap_of};
ghost use Rattle.caps.specs.Capped.{MateOf};
ghost use Rattle.std.proofs.Common.{arith};
ghost use Rattle.caps.specs.Mates.{fewer_mates};

use crate::caps::Caps;
use crate::mates::{Mate, Mates};
use rules::ClashRule;
use tables::Table;

impl Caps {
    // The rule of these associations, by team number, and of these caps, by association number.
    pub fn new(associations: &[Option<u8>; 96], caps: &[Option<u8>; 65]) -> Caps
        ensures { result ≡ record { associations = associations.now; caps = caps.now } }
    {
        Caps {
            associations: *associations,
            caps: *caps,
        }
    }

    // The association of a team; none past the last number.
    fn association_of(&self, team: u8) -> Option<u8>
        ensures { result ≡ association_of self.now team }
    {
        self.associations.get(usize::from(team)).copied().flatten()
    }

    // The cap of an association; none past the last number.
    fn cap_of(&self, association: u8) -> Option<u8>
        ensures { result ≡ cap_of self.now association }
    {
        self.caps.get(usize::from(association)).copied().flatten()
    }

    // What a team counts as; none where it is not placed, or where its association has no cap.
    fn mate(&self, table: &Table, team: u8) -> Option<Mate>
        ensures { MateOf self.now table.now team result }
    {
        let group = table.group_of(team)?;
        let association = self.association_of(team)?;
        let most = self.cap_of(association)?;
        Some(Mate {
            association,
            group,
            most,
        })
    }
}

impl ClashRule for Caps {
    ghost admitted = { CapsAdmit };

    ghost removal = { λ rule before team after out kept a g most capped. omega (arith, kept a g most capped, fewer_mates rule before team after out a g) };

    // One pass over the teams, which ends with the first team that is one too many.
    fn admits(&self, table: &Table) -> bool {
        let mut mates = Mates::new();
        // a loop: of a closure that changes the counts no proof knows what it answered
        for team in 0..96 {
            let Some(mate) = self.mate(table, team) else {
                continue;
            };
            if !mates.add(mate) {
                return false;
            }
        }
        true
    }
}
