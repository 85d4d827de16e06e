// A list whose entries stand in memory that its caller lends.
#![tactic(auto)]

ghost use Rattle.std.specs.Prelude.{◌≡◌, ◌-◌, ◌≤◌, length};
ghost use Rattle.std.specs.List.{slice_get};
ghost use Rattle.lists.specs.Entries.{added, counted, entries, number_of, written};

#[derive(Clone, Copy, PartialEq, Eq, Debug)]
pub enum ListRefusal {
    Full,
}

impl ListRefusal {
    // A method of this name, since `u8::from` would not say that the number is the published one.
    pub fn number(self) -> u8
        ensures { result ≡ number_of self }
    {
        match self {
            ListRefusal::Full => 28,
        }
    }
}

// The first `count` places of `memory` are the entries. The list writes only to the place behind them.
// The count stands beside the slice, since the engine has no heap: its caller lends all the places at once.
#[derive(Drop)]
pub struct List<'a, T> {
    memory: &'a mut [T],
    count: usize,
    ghost ok: { count ≤ length memory.now },
}

impl<'a, T: Copy> List<'a, T> {
    // An empty list over `memory`, of which it changes nothing.
    pub fn new(memory: &'a mut [T]) -> List<'a, T>
        ensures count { result.count ≡ 0 }
        ensures memory { result.memory.now ≡ memory.old }
        ensures lender { result.memory.ghost_name ≡ memory.entry.ghost_name }
    {
        List { memory, count: 0 }
    }

    // The entries, in the order in which they were added.
    fn entries(&self) -> &[T]
        ensures { result.now ≡ entries self.now.memory.now self.now.count }
    {
        &self.memory[..self.count]
    }

    // How many entries there are.
    pub fn count(&self) -> usize
        ensures { result ≡ self.now.count }
    {
        self.count // the entries, and not the places
    }

    // The entry at `place`, or none where the entries end before it.
    pub fn get(&self, place: usize) -> Option<T>
        ensures { result ≡ slice_get (entries self.now.memory.now self.now.count) place }
    {
        self.entries().get(place).copied()
    }

    // Adds `entry` behind the others, or refuses where every place is used.
    pub fn add(&mut self, entry: T) -> Result<(), ListRefusal>
        ensures answer { result ≡ added self.old.memory.now self.old.count }
        ensures memory { self.new.memory.now ≡ written self.old.memory.now self.old.count entry }
        ensures count { self.new.count ≡ counted self.old.memory.now self.old.count }
        ensures lender { self.new.memory.ghost_name ≡ self.old.memory.ghost_name }
    {
        // a test, and no `get_mut` with `?`: the proof would not see that a refusal leaves the memory as it is
        if self.count == self.memory.len() {
            return Err(ListRefusal::Full);
        }
        self.memory[self.count] = entry;
        self.count += 1;
        Ok(())
    }

    // Takes the last entry off, so that the next one added takes its place; none from an empty list.
    pub fn take_off(&mut self) -> Option<T>
        ensures answer { result ≡ slice_get (entries self.old.memory.now self.old.count) (self.old.count - 1) }
        ensures memory { self.new.memory.now ≡ self.old.memory.now }
        ensures count { self.new.count ≡ self.old.count - 1 }
        ensures lender { self.new.memory.ghost_name ≡ self.old.memory.ghost_name }
    {
        let last = self.entries().last().copied();
        self.count = self.count.saturating_sub(1);
        last
    }
}

#[cfg(test)]
mod tests;
