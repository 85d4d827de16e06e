// What a layer refuses, and the line that tells of it.
#![tactic(auto)]

ghost use Rattle.std.specs.Prelude.{◌≡◌};
ghost use Rattle.faults.specs.Numbers.{layer_number, text_number};
ghost use Rattle.faults.specs.Text.{answered, line_of, written};

mod text;

pub use text::FaultLine;

// The layer that refused.
#[derive(Clone, Copy, PartialEq, Eq, Debug)]
pub enum Layer {
    Reading,
    Draw,
    Text,
}

impl Layer {
    // A method of this name, since `u8::from` would not say that the number is the published one.
    pub fn number(self) -> u8
        ensures { result ≡ layer_number self }
    {
        match self {
            Layer::Reading => 1,
            Layer::Draw => 2,
            Layer::Text => 3,
        }
    }
}

// A refusal as every layer tells it: the layer that refused, the refusal's number, and where it came about. A number
// and no enum, since the refusals of the layers above are not known here.
#[derive(Clone, Copy, PartialEq, Eq, Debug)]
pub struct Fault {
    pub layer: Layer,
    pub number: u8,
    pub place: usize,
}

// Why a text is not written.
#[derive(Clone, Copy, PartialEq, Eq, Debug)]
pub enum TextRefusal {
    NoRoom,
}

impl TextRefusal {
    // A method, as `Layer::number`.
    pub fn number(self) -> u8
        ensures { result ≡ text_number self }
    {
        match self {
            TextRefusal::NoRoom => 11,
        }
    }
}

// Writes the line of `fault` from place `at`, and answers its length.
// A line that does not fit is refused whole, with its length as the place of the refusal.
pub fn write_refusal(buf: &mut [u8], at: usize, fault: Fault) -> Result<usize, Fault>
    ensures answer { result ≡ answered buf.old at (line_of fault) }
    ensures after { buf.new ≡ written buf.old at (line_of fault) }
{
    let line = fault.line();
    if at > buf.len() || line.len() > buf.len() - at {
        return Err(Fault {
            layer: Layer::Text,
            number: TextRefusal::NoRoom.number(),
            place: line.len(),
        });
    }
    text::put_text(&mut buf[at..], line.as_str().as_bytes());
    Ok(line.len())
}
