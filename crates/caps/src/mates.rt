// The teams that count together: those of one association in one group.
ghost use Rattle.std.specs.Prelude.{◌≡◌, ◌<◌, if◌then◌else◌, replicate};
ghost use Rattle.shapes.specs.Answers.{Exactly};
ghost use Rattle.caps.specs.Pass.{entry_at, with_mate};

// A placed team of a capped association, and how many of them its group may have.
#[derive(Clone, Copy)]
pub(crate) struct Mate {
    pub(crate) association: u8,
    pub(crate) group: u8,
    pub(crate) most: u8,
    ghost numbered: { association < 65 },
    ghost lettered: { group < 16 },
}

// How many are counted, by association and group.
#[derive(Drop)]
pub(crate) struct Mates {
    counts: [[u8; 16]; 65],
}

impl Mates {
    pub(crate) fn new() -> Mates
        ensures { result.counts ≡ replicate 65 (replicate 16 0) }
    {
        Mates {
            counts: [[0; 16]; 65],
        }
    }

    // Counts one more, where the group may have that many; tells whether it may, with no value beside it.
    pub(crate) fn add(&mut self, mate: Mate) -> bool
        ensures answer { Exactly result (entry_at self.old.counts mate.association mate.group < mate.most) }
        ensures after { self.new.counts ≡ (if result then with_mate self.old.counts mate.association mate.group else self.old.counts) }
    {
        let mates = &mut self.counts[usize::from(mate.association)][usize::from(mate.group)];
        if *mates >= mate.most {
            return false;
        }
        *mates += 1;
        true
    }
}
