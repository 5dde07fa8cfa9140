// The bench program: reads a memory length, inputs and a table as decimal numbers, runs the table and prints how it ended.
#![tactic(auto)]

ghost use Rattle.bench.specs.Input.{Reads, Read, AnswersInput};

use std::ops::ControlFlow;
use steps::Memory;
use text::{Output, Scanner};

// Reads once, and scans what came: at the text's end nothing came, and that breaks off. A read that fails ends the text as its end does.
fn read_some(rt: HostRuntime, numbers: &mut [u32], s: Scanner) -> ControlFlow<Scanner, Scanner>
    ensures { Reads s numbers.old numbers.new result }
{
    let mut buffer = [0u8; 65536];
    let n = stream::read_some(rt, &mut buffer);
    if n == 0 {
        return ControlFlow::Break(s);
    }
    let scanned = text::scan(&buffer[..n], numbers, s);
    ControlFlow::Continue(scanned)
}

// Scans standard input. A proved loop has to end, so this one has more turns than a run uses up.
fn read_all(rt: HostRuntime, numbers: &mut [u32]) -> Scanner
    ensures { Read numbers.new result }
{
    let mut s = Scanner::new();
    for _ in 0..u64::MAX {
        match read_some(rt, numbers, s) {
            ControlFlow::Continue(next) => s = next,
            ControlFlow::Break(last) => return last,
        }
    }
    s
}

// Reads a text and puts what is to be printed for it at the front of `out`: answers how many bytes that are.
fn answer_input(
    rt: HostRuntime,
    numbers: &mut [u32],
    memory: &mut Memory,
    out: &mut [u8],
) -> Option<usize>
    ensures { AnswersInput numbers.old memory.old out.old out.new result }
{
    let s = read_all(rt, numbers);
    console::answer(numbers, s, memory, out)
}

fn main(rt: HostRuntime) {
    // Room for a memory length, an input count, 64 inputs and a table of 2,472 words.
    let mut numbers = [0u32; 2538];
    let mut values = [0u32; 4096];
    let mut bases = [0u32; 4096];
    let mut ends = [0u32; 4096];
    let mut memory = Memory {
        values: &mut values,
        bases: &mut bases,
        ends: &mut ends,
    };
    // Room for the longest answer.
    let mut out = [0u8; console::ROOM];
    if let Some(at) = answer_input(rt, &mut numbers, &mut memory, &mut out) {
        stream::flush(
            rt,
            &mut Output {
                bytes: &mut out,
                at,
            },
        );
    }
}
