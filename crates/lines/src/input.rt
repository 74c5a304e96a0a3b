// Standard input, whole.
ghost use Rattle.std.specs.Prelude.{◌≤◌, length};

use std::io::{Input, Print, Read};

// The input, in this room for it: none, where not all of it can be had.
pub fn read<'a>(rt: &(impl Input + Print), room: &'a mut [u8]) -> &'a [u8]
    ensures { length result.now ≤ length room.old }
{
    let mut input = rt.reader();
    let text = fill(&mut input, room);
    if at_end(&mut input) {
        return text;
    }
    let _ = rt.write_some(
        b"The input is longer than 196608 bytes, or a read failed: nothing was run.\n",
    );
    &[]
}

// Reads until the room is full, the input ends or a read fails. What each read brings is counted here: the calls of std that read on to
// the end want a heap, and no program here has one.
pub fn fill<'a>(input: &mut impl Read, room: &'a mut [u8]) -> &'a [u8]
    ensures { length result.now ≤ length room.old }
{
    let mut n = 0;
    while n < room.len() {
        let more = input.read(&mut room[n..]).unwrap_or(0);
        if more == 0 {
            break;
        }
        n += more;
    }
    &room[..n]
}

// Whether the input has ended: one byte more, or a read that fails, says that it has not.
fn at_end(input: &mut impl Read) -> bool {
    let mut more = [0; 1];
    matches!(input.read(&mut more), Ok(0))
}
