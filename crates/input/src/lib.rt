#![tactic(auto)]

// Bytes from outside: the front of a file, and the first line of an input. What comes is unknown,
// so no contract can say which bytes stand in the room; each says all else.

ghost use Rattle.std.specs.Prelude.{IfOk, take};
ghost use Rattle.std.specs.Io.KnownBytes.{Consumes};
ghost use Rattle.input.specs.Input.{FileRead, LineRead};

pub mod reason;

use std::{io, slice};

// The front of an open file, as much of it as the room holds.
//
// Given: a file; any room.
// Returned: how many bytes stand at the front of the room: all that it holds, or all of the file;
// or why the file cannot be read.
//
// Room and length are two: `promises/ProgramPlaces` tells them apart.
pub fn read_file<F: io::Read>(file: &mut F, room: &mut [u8]) -> io::Result<usize>
    ensures read { FileRead result room.new }
    ensures bytes { IfOk result (λ n. Consumes (F.remaining file.old) (F.remaining file.new)
        (take n room.new)) }
{
    // no `for`: a read gives any number of bytes
    let mut done: usize = 0;
    while done < room.len() {
        let n = file.read(&mut room[done..])?;
        if n == 0 {
            break;
        }
        done += n;
    }
    Ok(done)
}

// The first line of an input with its end, and no byte after it: each byte is read by itself.
//
// Given: an input; any room.
// Returned: how many bytes stand at the front of the room: up to the first LF, all that the room
// holds, or all of the input; the rest of the room stays but for its first byte. Or why the input
// cannot be read.
pub fn read_line<I: io::Read>(input: &mut I, room: &mut [u8]) -> io::Result<usize>
    ensures read { LineRead result room.old room.new }
    ensures bytes { IfOk result (λ n. Consumes (I.remaining input.old) (I.remaining input.new)
        (take n room.new)) }
{
    for (at, byte) in room.iter_mut().enumerate() {
        let n = input.read(slice::from_mut(byte))?;
        if n == 0 {
            return Ok(at);
        }
        if *byte == b'\n' {
            return Ok(at + 1);
        }
    }
    Ok(room.len())
}
