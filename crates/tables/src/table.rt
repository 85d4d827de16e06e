// The type of tables, in a file of its own, since definitions name it.
ghost use Rattle.tables.specs.Seats.{Lettered, OnePerPot, Whole};

// By team number, the group in which the team stands. Nothing else is in it, so that two tables with the same
// placements are the same value.
#[derive(Clone, Copy, PartialEq, Eq, Debug)]
pub struct Table {
    pub(crate) seats: [Option<u8>; 96],
    ghost whole: { Whole seats },
    ghost single: { OnePerPot seats },
    ghost lettered: { Lettered seats },
}
