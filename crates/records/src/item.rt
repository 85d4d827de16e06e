// One record, decoded from the bytes at the front of what is left of a sheet.
ghost use Rattle.std.specs.Prelude.{◌≡◌};
ghost use Rattle.records.specs.Forms.{decoded, size_of};

use crate::refusal::{SheetFault, SheetRefusal};

// What a record says, its fields not yet compared with the shape.
#[derive(Clone, Copy, PartialEq, Eq, Debug)]
pub enum Record {
    Shape {
        groups: u8,
        pots: u8,
    },
    Team {
        pot: u8,
        ball: u8,
        association: u8,
        code: [u8; 3],
    },
    Pair {
        first: u8,
        second: u8,
    },
    Cap {
        association: u8,
        most: u8,
    },
    Bars {
        team: u8,
        barred: u16,
    },
    Seed {
        seed: u64,
    },
    Script {
        pot: u8,
        order: [u8; 16],
    },
    End,
}

impl Record {
    // The bytes that the record takes, its kind among them.
    pub fn size(self) -> usize
        ensures { result ≡ size_of self }
    {
        match self {
            Record::Shape { .. } | Record::Pair { .. } | Record::Cap { .. } => 3,
            Record::Team { .. } => 7,
            Record::Bars { .. } => 4,
            Record::Seed { .. } => 9,
            Record::Script { .. } => 18,
            Record::End => 1,
        }
    }
}

// The record at the front of `rest`, which stands at `place` in its sheet.
pub fn record_at(rest: &[u8], place: usize) -> Result<Record, SheetFault>
    ensures { result ≡ decoded rest.now place }
{
    // made before the `match`: behind the arms that meet there, the proof would not know which came
    let cut_short = SheetRefusal::CutShort.at(place);
    match *rest {
        [b'G', groups, pots, ..] => Ok(Record::Shape { groups, pots }),
        [b'T', pot, ball, association, a, b, c, ..] => {
            Ok(Record::Team {
                pot,
                ball,
                association,
                code: [a, b, c],
            })
        }
        [b'X', first, second, ..] => Ok(Record::Pair { first, second }),
        [b'C', association, most, ..] => Ok(Record::Cap { association, most }),
        [b'B', team, high, low, ..] => Ok(Record::Bars {
            team,
            barred: u16::from_be_bytes([high, low]),
        }),
        [b'U', a, b, c, d, e, f, g, h, ..] => {
            Ok(Record::Seed {
                seed: u64::from_be_bytes([a, b, c, d, e, f, g, h]),
            })
        }
        [b'S', pot, ..] if rest.len() >= 18 => {
            let mut order = [0; 16];
            order.copy_from_slice(&rest[2..18]);
            Ok(Record::Script { pot, order })
        }
        [b'Z', ..] => Ok(Record::End),
        [] | [b'G' | b'T' | b'X' | b'C' | b'B' | b'U' | b'S', ..] => Err(cut_short),
        [_, ..] => Err(SheetRefusal::UnknownKind.at(place)),
    }
}
