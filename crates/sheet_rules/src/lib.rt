// The clash rule of a sheet: its pairs, its caps and its bars, joined by Both.
#![tactic(auto)]

ghost use Rattle.std.specs.Prelude.{◌≡◌, ◌↔◌};
ghost use Rattle.caps.specs.Caps.{CapsAdmit};
ghost use Rattle.pairs.specs.Listed.{pairs_of};
ghost use Rattle.shapes.specs.Answers.{Exactly};
ghost use Rattle.sheet_rules.specs.SheetRules.{CapsKept, JoinedAdmit, SheetAdmits, sheet_pairs};
ghost use Rattle.tables.specs.declared.table.Table.{Table};

use bars::Bars;
use caps::Caps;
use pairs::Pairs;
use rules::{Both, ClashRule};
use sheets::Sheet;
use std::array;
use tables::Table;

// The rule of a sheet record, whatever is in it.
pub fn rule_of(sheet: &Sheet) -> Both<Pairs, Both<Caps, Bars>>
    ensures { (t : Table) → JoinedAdmit result t ↔ SheetAdmits sheet.now t }
{
    Both {
        first: pairs_of(sheet),
        second: Both {
            first: caps_of(sheet),
            second: Bars::new(&sheet.bars),
        },
    }
}

// Whether the rule of a sheet record admits a table.
pub fn admits(sheet: &Sheet, table: &Table) -> bool
    ensures { Exactly result (SheetAdmits sheet.now table.now) }
{
    rule_of(sheet).admits(table)
}

fn pairs_of(sheet: &Sheet) -> Pairs
    ensures { pairs_of result ≡ sheet_pairs sheet.now }
{
    // a record that no reading filled may claim more places than it has
    let listed = sheet.listed.min(sheet.pairs.len());
    Pairs::new(&sheet.pairs[0..listed]).unwrap()
}

fn caps_of(sheet: &Sheet) -> Caps
    ensures { (t : Table) → CapsAdmit result t ↔ CapsKept sheet.now t }
{
    // by number, since `map` of an array takes a copy of it and moves each entry through two more; a place below 96 is
    // a byte
    let associations = array::from_fn(|team| sheet.association(team as u8));
    Caps::new(&associations, &sheet.caps)
}
