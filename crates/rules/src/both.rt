// Two rules at once.
use crate::rule::ClashRule;
use tables::Table;

// Admits exactly the tables that both rules admit.
#[derive(Drop)]
pub struct Both<A, B> {
    pub first: A,
    pub second: B,
}

impl<A: ClashRule, B: ClashRule> ClashRule for Both<A, B> {
    ghost admitted = { λ both t. A.ClashRule.admitted both.first t × B.ClashRule.admitted both.second t };

    ghost removal = { λ both before team after out kept. (A.ClashRule.removal both.first before team after out kept.0, B.ClashRule.removal both.second before team after out kept.1) };

    fn admits(&self, table: &Table) -> bool {
        self.first.admits(table) && self.second.admits(table)
    }
}
