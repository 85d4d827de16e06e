// The caller's sheet record.
ghost use Rattle.std.specs.Prelude.{◌≡◌, if◌then◌else◌, None, nat_lt, slice_index_or};
ghost use Rattle.sheets.specs.Entrants.{association_of, code_of};
ghost use Rattle.sheets.specs.Taking.{blank};

use shapes::Shape;

// What a T says of its team. A team has at most one association.
#[derive(Clone, Copy, PartialEq, Eq, Debug)]
pub struct Entrant {
    pub association: Option<u8>,
    pub code: [u8; 3],
}

// What a sheet says. Every limit is the format's, so the memory is fixed. `==` compares the unused places of `pairs`
// too.
#[derive(Clone, Copy, PartialEq, Eq, Debug)]
pub struct Sheet {
    pub shape: Shape,
    // by team number
    pub teams: [Option<Entrant>; 96],
    // the first `listed`, in the sheet's order; a list that keeps its own length would not be Copy
    pub pairs: [(u8, u8); 64],
    pub listed: usize,
    // by association, from 1
    pub caps: [Option<u8>; 65],
    // by team number: bit g bars group g; not beside the entrant, since a B may come before its team's T
    pub bars: [Option<u16>; 96],
    pub seed: Option<u64>,
    // by pot
    pub scripts: [Option<[u8; 16]>; 6],
}

impl Sheet {
    // The record of a shape, of which nothing else is said.
    pub fn new(shape: Shape) -> Sheet
        ensures { result ≡ blank shape }
    {
        Sheet {
            shape,
            teams: [None; 96],
            pairs: [(0, 0); 64],
            listed: 0,
            caps: [None; 65],
            bars: [None; 96],
            seed: None,
            scripts: [None; 6],
        }
    }

    // The code of a team number, `---` where it has no T.
    pub fn code(&self, team: u8) -> [u8; 3]
        ensures { result ≡ code_of self.now team }
    {
        // no `map_or`: the proof does not see the array that its closure returns
        match self.entrant(team) {
            Some(entrant) => entrant.code,
            None => [b'-'; 3],
        }
    }

    // The association of a team number, if it has one.
    pub fn association(&self, team: u8) -> Option<u8>
        ensures { result ≡ association_of self.now team }
    {
        self.entrant(team).and_then(|entrant| entrant.association)
    }

    fn entrant(&self, team: u8) -> Option<Entrant>
        ensures { result ≡ (if nat_lt team 96 then slice_index_or self.now.teams team None else None) }
    {
        self.teams.get(usize::from(team)).copied().flatten()
    }
}
