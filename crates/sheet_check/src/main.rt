// Tells what the sheet on standard input says, or why it is refused.
#![tactic(auto)]

ghost use Rattle.std.specs.Prelude.{◌≤◌, IfOk};

use checking::{Refusal, checked};
use listing::Listing;
use std::io;
use std::io::{ErrorKind, Read};

// The longest sheet in order has 1,552 bytes, and no answer depends on a byte past offset 1,577.
const MOST: usize = 4096;

// Fills `buf` up to its end or the input's, over as many reads as it takes, and answers how many bytes came. They come
// straight into the buffer: the library's copy would clear 8,192 bytes of its own at each read, however little comes.
fn take_in<R: Read>(input: &mut R, buf: &mut [u8; MOST]) -> io::Result<usize>
    ensures { IfOk result (λ taken. taken ≤ 4096) }
{
    let mut taken = 0;
    // The bound is there so that the loop is seen to end; no input comes to it.
    for _ in 0..u64::MAX {
        if taken >= MOST {
            break;
        }
        match input.read(&mut buf[taken..]) {
            Ok(0) => break,
            Ok(count) => taken += count,
            Err(error) if error.kind() == ErrorKind::Interrupted => {}
            Err(error) => return Err(error),
        }
    }
    Ok(taken)
}

fn main(rt: HostRuntime) -> io::Result<()> {
    // a fixed buffer, since the program has no heap
    let mut buf = [0; MOST];
    let taken = take_in(&mut rt.stdin(), &mut buf)?;
    match checked(&buf[..taken]) {
        Ok(sheet) => rt.print(Listing(&sheet)),
        Err(fault) => rt.print(Refusal(fault)),
    }
}
