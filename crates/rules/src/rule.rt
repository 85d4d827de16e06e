// The trait of clash rules.
ghost use Rattle.std.specs.Prelude.{ℕ};
ghost use Rattle.shapes.specs.Answers.{Exactly};
ghost use Rattle.tables.specs.Tables.{Without};
ghost use Rattle.tables.specs.declared.table.Table.{Table};

use tables::Table;

// A clash rule is a collection of tables, those that it admits, and answers whether a table is one of them.
pub trait ClashRule {
    // Whether the rule admits a table.
    ghost admitted: { Self → Table → Type 0 };

    fn admits(&self, table: &Table) -> bool
        ensures { Exactly result (admitted self.now table.now) };

    // An admitted table stays admitted when the placement of any team is taken out.
    ghost removal: { (rule : Self) (before : Table) (team : ℕ) (after : Table) → Without before team after → admitted rule before → admitted rule after };
}
