// The line of a fault, and how a text is written over bytes.
ghost use Rattle.std.specs.Prelude.{◌≡◌, ◌≤◌, length};
ghost use Rattle.faults.specs.Text.{line_of, over};

use super::Fault;
use arrayvec::ArrayString;
use itoa::Buffer;

// The text of one line. It has room for that of any fault, so that none needs a heap.
pub type FaultLine = ArrayString<40>;

impl Fault {
    // The line that tells of the fault.
    pub fn line(self) -> FaultLine
        ensures text { result.bytes ≡ line_of self }
        ensures short { length result.bytes ≤ 35 }
    {
        let mut line = ArrayString::new();
        line.push_str("refused ");
        line.push_str(Buffer::new().format(self.layer.number()));
        line.push_str(" ");
        line.push_str(Buffer::new().format(self.number));
        line.push_str(" ");
        line.push_str(Buffer::new().format(self.place));
        line.push_str("\n");
        line
    }
}

// Puts `text` at the front of `tail`, what is left of a caller's buffer from the place that it names.
pub(crate) fn put_text(tail: &mut [u8], text: &[u8])
    requires { length text.now ≤ length tail.old }
    ensures { tail.new ≡ over text.now tail.old }
{
    tail[..text.len()].copy_from_slice(text);
}
