// Standard input in parts that a byte ends, and standard output in large pieces.
#![tactic(auto)]

ghost use Rattle.std.specs.Prelude.{◌≤◌, ◌==◌, [], ◌∷◌, ◌≡◌, length, position};
ghost use Rattle.stream.specs.Items.{word, number, Prints, Moves};
ghost use Rattle.stream.specs.Parts.{empty_part, open_part, part_of, NextPart, free_place};

use std::io::{Read, Write};
use text::Output;

// What follows a part of the input.
#[derive(Clone, Copy, PartialEq, Eq)]
pub enum PartEnd {
    // The text goes on in the next part.
    Open,
    // The byte that ends a text stands after the part.
    Closed,
    // The input has ended. The part is empty.
    Last,
}

// Bytes `from` to `to` of a buffer that holds `filled` bytes of the input. The next part starts at `next`.
#[derive(Clone, Copy)]
pub struct Part {
    pub from: usize,
    pub to: usize,
    pub next: usize,
    pub filled: usize,
    pub end: PartEnd,
}

impl Part {
    // Before the first part, at `PartEnd::Open`; or after the last.
    fn empty(end: PartEnd) -> Part
        ensures { result ≡ empty_part end }
    {
        Part {
            from: 0,
            to: 0,
            next: 0,
            filled: 0,
            end,
        }
    }

    // Before the first part.
    pub fn new() -> Part
        ensures { result ≡ open_part 0 0 0 }
    {
        Part::empty(PartEnd::Open)
    }
}

// The place of the first byte b, if there is one.
fn find(bytes: &[u8], b: u8) -> Option<usize>
    ensures { result ≡ position (λ x. x == b) bytes.now }
{
    bytes.iter().position(|x| *x == b)
}

// The part from `from` on, in what is read.
fn cut(bytes: &[u8], from: usize, b: u8) -> Part
    requires { from ≤ length bytes.now }
    ensures { (result ≡ part_of bytes.now from b) × (result.from ≤ result.to) × (result.to ≤ length bytes.now) }
{
    let filled = bytes.len();
    match find(&bytes[from..], b) {
        Some(before) => Part {
            from,
            to: from + before,
            next: from + before + 1,
            filled,
            end: PartEnd::Closed,
        },
        None => Part {
            from,
            to: filled,
            next: filled,
            filled,
            end: PartEnd::Open,
        },
    }
}

// Reads once, and tells how many bytes it has put at the start of a buffer: none at the input's end, and none where the read fails.
pub fn read_some(rt: HostRuntime, buffer: &mut [u8]) -> usize
    ensures { result ≤ length buffer.new }
{
    rt.stdin().read(buffer).unwrap_or(0)
}

// Reads until a buffer is full, the input ends or a read fails, and tells how many bytes it has put at the buffer's start.
pub fn read_full(rt: HostRuntime, buffer: &mut [u8]) -> usize
    ensures { result ≤ length buffer.new }
{
    // A while: each read tells how far to go on.
    let mut done = 0;
    while done < buffer.len() {
        let n = read_some(rt, &mut buffer[done..]);
        if n == 0 {
            break;
        }
        done += n;
    }
    done
}

// The part after `last`, up to the byte b or the end of what is read. A read that fails ends the input.
pub fn next_part(rt: HostRuntime, buffer: &mut [u8], last: Part, b: u8) -> Part
    ensures { NextPart buffer.old last b buffer.new result }
{
    if last.filled <= buffer.len() && last.next < last.filled {
        return cut(&buffer[..last.filled], last.next, b);
    }
    let n = read_some(rt, buffer);
    if n == 0 {
        return Part::empty(PartEnd::Last);
    }
    cut(&buffer[..n], 0, b)
}

// Writes what is to be printed to standard output. A write that fails is given up.
// The whole output is lent, to be read only: after a loan of its bytes alone, nothing would be known of them.
fn print(rt: HostRuntime, out: &Output) {
    if let Some(bytes) = out.bytes.get(..out.at) {
        let _ = rt.stdout().write_all(bytes);
    }
}

// Writes what is to be printed, and starts again from the first byte.
pub fn flush(rt: HostRuntime, out: &mut Output)
    ensures { Moves 0 out.old out.new }
{
    print(rt, out);
    out.at = 0;
}

// Room for some words and numbers of a line.
const ROOM: usize = 128;

// Flushes if less than `ROOM` is left.
pub fn make_room(rt: HostRuntime, out: &mut Output)
    ensures { Moves (free_place (length out.old.bytes.now) out.old.at) out.old out.new }
{
    let size = out.bytes.len();
    if size < out.at || size - out.at < ROOM {
        flush(rt, out);
    }
}

// Some bytes and then a number.
pub fn put_after(out: &mut Output, bytes: &[u8], x: u64)
    ensures { Prints (word bytes.now ∷ number x ∷ []) out.old out.new }
{
    out.put_bytes(bytes);
    out.put_number(x);
}
