// The listed pairs, in a file of their own, since definitions name the type.
ghost use Rattle.std.specs.Prelude.{◌≤◌};

// The first `listed` of the 64 places: an array and a count, since a rule is copied and takes a fixed room.
#[derive(Clone, Copy)]
pub struct Pairs {
    pub(crate) places: [(u8, u8); 64],
    pub(crate) listed: usize,
    ghost few: { listed ≤ 64 },
}
