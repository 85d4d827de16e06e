// What one record after the first makes of the sheet record.
ghost use Rattle.std.specs.Prelude.{ℕ, ◌≡◌, ◌<◌, is_ok, if◌then◌else◌, Some, Ok, Err, nat_le};
ghost use Rattle.records.specs.declared.refusal.SheetRefusal.TheVariants.{TooManyPairs};
ghost use Rattle.sheets.specs.Entrants.{entrant};
ghost use Rattle.sheets.specs.Taking.{bars_fit, capitals, once, once_ordered, placed, with_pair, with_script, verdict, taken};

use crate::sheet::{Entrant, Sheet};
use orders::all_in_place;
use records::{Record, SheetFault, SheetRefusal};

fn capitals(code: [u8; 3]) -> bool
    ensures { result ≡ capitals code }
{
    code.iter().all(u8::is_ascii_uppercase)
}

// Whether no bit at or above the number of groups is set.
fn bars_fit(barred: u16, groups: u8) -> bool
    ensures { result ≡ bars_fit barred groups }
{
    groups <= 16 && u32::from(barred) < 1 << groups
}

// The entrant that a T names: association 0 says that it has none.
fn entrant_of(association: u8, code: [u8; 3]) -> Entrant
    ensures { result ≡ entrant association code }
{
    let association = (association != 0).then_some(association);
    Entrant { association, code }
}

// Refuses a slot that is filled already.
fn unfilled<T>(slot: &Option<T>) -> Result<(), SheetRefusal>
    ensures { result ≡ once slot.now }
{
    match slot {
        Some(_) => Err(SheetRefusal::Repeated),
        None => Ok(()),
    }
}

// Fills a slot that may be filled once.
fn fill_once<T: Copy>(slot: &mut Option<T>, value: T) -> Result<(), SheetRefusal>
    ensures answer { result ≡ once slot.old }
    ensures after { slot.new ≡ (if is_ok result then Some value else slot.old) }
{
    unfilled(slot)?;
    *slot = Some(value);
    Ok(())
}

impl Sheet {
    // Takes an X for two teams of the shape.
    fn put_pair(&mut self, first: u8, second: u8) -> Result<(), SheetRefusal>
        ensures answer { result ≡ (if nat_le 64 self.old.listed then Err TooManyPairs else Ok tt) }
        ensures after { self.new ≡ (if is_ok result then with_pair self.old first second else self.old) }
    {
        if self.listed >= self.pairs.len() {
            return Err(SheetRefusal::TooManyPairs);
        }
        // no `get_mut`: the proof does not see what it leaves of the array
        self.pairs[self.listed] = (first, second);
        self.listed += 1;
        Ok(())
    }

    // Takes an S for a pot of the shape: a second one is refused before the order is looked at.
    fn put_script(&mut self, pot: u8, order: [u8; 16]) -> Result<(), SheetRefusal>
        requires { pot < 6 }
        ensures answer { result ≡ once_ordered self.old pot order }
        ensures after { self.new ≡ (if is_ok result then with_script self.old pot order else self.old) }
    {
        let slot = usize::from(pot);
        unfilled(&self.scripts[slot])?;
        if !all_in_place(&order, self.shape.balls(pot)) {
            return Err(SheetRefusal::NotAnOrder);
        }
        self.scripts[slot] = Some(order);
        Ok(())
    }

    // Takes a record after the first, or tells why not: the verdict at any place, with no place yet.
    fn take_in(&mut self, item: Record) -> Result<(), SheetRefusal>
        ensures answer { (at : ℕ) → placed result at ≡ verdict self.old item at }
        ensures after { self.new ≡ (if is_ok result then taken self.old item else self.old) }
    {
        let shape = self.shape;
        match item {
            Record::Shape { .. } => Err(SheetRefusal::ShapeMisplaced),
            Record::Team {
                pot: pot @ 0..=5,
                ball: ball @ 0..=15,
                association: association @ 0..=64,
                code,
            } if ball < shape.balls(pot) && capitals(code) => {
                let team = usize::from(16 * pot + ball);
                fill_once(&mut self.teams[team], entrant_of(association, code))
            }
            Record::Pair { first, second }
                if first != second && shape.has_team(first) && shape.has_team(second) => {
                self.put_pair(first, second)
            }
            Record::Cap {
                association: association @ 1..=64,
                most: most @ 1..=6,
            } => { fill_once(&mut self.caps[usize::from(association)], most) }
            Record::Bars { team, barred }
                if shape.has_team(team) && bars_fit(barred, shape.groups) => {
                fill_once(&mut self.bars[usize::from(team)], barred)
            }
            Record::Seed { seed } => fill_once(&mut self.seed, seed),
            Record::Script {
                pot: pot @ 0..=5,
                order,
            } if pot < shape.pots => self.put_script(pot, order),
            Record::End => Ok(()),
            Record::Team { .. }
            | Record::Pair { .. }
            | Record::Cap { .. }
            | Record::Bars { .. }
            | Record::Script { .. } => Err(SheetRefusal::OutOfRange),
        }
    }

    // Takes a record after the first, or tells why not and where; a refusal leaves the sheet record as it is.
    pub fn put(&mut self, item: Record, place: usize) -> Result<(), SheetFault>
        ensures answer { result ≡ verdict self.old item place }
        ensures after { self.new ≡ (if is_ok result then taken self.old item else self.old) }
    {
        self.take_in(item).map_err(|refusal| refusal.at(place))
    }
}
