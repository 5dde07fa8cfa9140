// Tests of the bench program: many of its texts on standard input, parted by the byte %. Each goes the way that `bench` sends its one
// text, and what `bench` prints for each is printed in turn.
#![tactic(auto)]

use steps::Memory;
use stream::{Part, PartEnd};
use text::{Output, Scanner};

// Scans a part of a text, and answers the text if it ends there. Answers the scanner for the next part.
fn take_part(
    rt: HostRuntime,
    part: &[u8],
    end: PartEnd,
    s: Scanner,
    numbers: &mut [u32],
    memory: &mut Memory,
    out: &mut [u8],
) -> Scanner {
    let s = text::scan(part, numbers, s);
    if end == PartEnd::Open {
        return s;
    }
    if let Some(at) = console::answer(numbers, s, memory, out) {
        stream::flush(rt, &mut Output { bytes: out, at });
    }
    Scanner::new()
}

// Answers every text. A proved loop has to end, so this one has more turns than a run uses up.
fn answer_all(
    rt: HostRuntime,
    buffer: &mut [u8],
    numbers: &mut [u32],
    memory: &mut Memory,
    out: &mut [u8],
) {
    let mut s = Scanner::new();
    let mut part = Part::new();
    for _ in 0..u64::MAX {
        part = stream::next_part(rt, buffer, part, b'%');
        let bytes = &buffer[part.from..part.to];
        s = take_part(rt, bytes, part.end, s, numbers, memory, out);
        if part.end == PartEnd::Last {
            break;
        }
    }
}

fn main(rt: HostRuntime) {
    // So few bytes that texts are cut in many places.
    let mut buffer = [0u8; 61];
    let mut numbers = [0u32; 2538];
    let mut values = [0u32; 4096];
    let mut bases = [0u32; 4096];
    let mut ends = [0u32; 4096];
    let mut memory = Memory {
        values: &mut values,
        bases: &mut bases,
        ends: &mut ends,
    };
    // Room for the longest answer.
    let mut out = [0u8; console::ROOM];
    answer_all(rt, &mut buffer, &mut numbers, &mut memory, &mut out);
}
