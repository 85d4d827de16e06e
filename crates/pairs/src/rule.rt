// What the rule admits.
ghost use Rattle.pairs.specs.Listed.{Listing, PairsAdmit};
ghost use Rattle.tables.proofs.Removal.{together_before};

use crate::pairs::Pairs;
use rules::ClashRule;
use tables::Table;

impl Pairs {
    // The rule of the pairs in `list`, in their order; none for more than 64.
    pub fn new(list: &[(u8, u8)]) -> Option<Pairs>
        ensures { Listing list.now result }
    {
        let mut places = [(0, 0); 64];
        if list.len() > places.len() {
            return None;
        }
        let listed = list.len();
        places[..listed].copy_from_slice(list);
        Some(Pairs { places, listed })
    }
}

impl ClashRule for Pairs {
    ghost admitted = { PairsAdmit };

    ghost removal = { λ rule before team after out apart i low both. apart i low (together_before before team after out _ _ both) };

    fn admits(&self, table: &Table) -> bool {
        // a loop over the slice of listed pairs, the form laid down for this answer (docs/DECISIONS.md)
        for &(one, other) in &self.places[..self.listed] {
            if table.together(one, other) {
                return false;
            }
        }
        true
    }
}
