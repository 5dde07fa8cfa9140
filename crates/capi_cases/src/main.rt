// Makes the four calls for C on recorded cases, and prints every number of their structs and every word of the lists, after the run, after the call
// that explains and after the bare one, which takes the first list alone. A case is `CALL LIGHT LV LB LE LK NI i.. NR r.. NT t..`, as `replay` has it; CALL, LIGHT and LK are not looked at, and
// the lists have at most 64 words, all 7 before each call. What is no case is answered by `case`.
#![tactic(auto)]

use capi::{MavistableAnswer, MavistableVerdict};
use capi_explain::MavistableExplanation;
use cases::Program;
use steps::Memory;
use stream::put_after;
use text::{Output, Scanner};

fn malformed(rt: HostRuntime, out: &mut Output) {
    out.put_bytes(b"case\n");
    stream::flush(rt, out);
}

fn put_verdict(out: &mut Output, v: MavistableVerdict) {
    put_after(out, b"check ", v.refused as u64);
    put_after(out, b" ", v.number as u64);
    put_after(out, b" ", v.place as u64);
    out.put_bytes(b"\n");
}

fn put_answer(out: &mut Output, name: &[u8], a: MavistableAnswer) {
    put_after(out, name, a.ending as u64);
    put_after(out, b" ", a.number as u64);
    put_after(out, b" ", a.place as u64);
    put_after(out, b" ", a.command as u64);
    put_after(out, b" ", a.unused as u64);
    out.put_bytes(b"\n");
}

fn put_ending(out: &mut Output, x: MavistableExplanation) {
    put_after(out, b"explain ", x.ending as u64);
    put_after(out, b" ", x.number as u64);
    put_after(out, b" ", x.place as u64);
    put_after(out, b" ", x.command as u64);
    put_after(out, b" ", x.unused as u64);
}

fn put_check(out: &mut Output, x: MavistableExplanation) {
    put_after(out, b" ", x.node as u64);
    put_after(out, b" ", x.words as u64);
    put_after(out, b" ", x.wanted);
    put_after(out, b" ", x.base as u64);
    put_after(out, b" ", x.end as u64);
}

fn put_explanation(out: &mut Output, x: MavistableExplanation) {
    put_ending(out, x);
    put_check(out, x);
    put_after(out, b" ", x.reason as u64);
    put_after(out, b" ", x.first as u64);
    out.put_bytes(b"\n");
}

fn put_list(out: &mut Output, name: &[u8], list: &[u32]) {
    out.put_bytes(name);
    for word in list {
        put_after(out, b" ", *word as u64);
    }
    out.put_bytes(b"\n");
}

fn put_memory(out: &mut Output, memory: &Memory) {
    put_list(out, b"values", memory.values);
    put_list(out, b"bases", memory.bases);
    put_list(out, b"ends", memory.ends);
}

fn check_and_run(program: Program, memory: &mut Memory, out: &mut Output) {
    let v = capi::mavistable_check(program.table);
    let a = capi::mavistable_run(
        program.table,
        program.inputs,
        program.registers,
        memory.values,
        memory.bases,
        memory.ends,
    );
    put_verdict(out, v);
    put_answer(out, b"run ", a);
    put_memory(out, memory);
}

fn explain(program: Program, memory: &mut Memory, out: &mut Output) {
    let x = capi_explain::mavistable_explain(
        program.table,
        program.inputs,
        program.registers,
        memory.values,
        memory.bases,
        memory.ends,
    );
    put_explanation(out, x);
    put_memory(out, memory);
}

fn run_bare(program: Program, memory: &mut Memory, out: &mut Output) {
    let a = capi_bare::mavistable_run_bare(
        program.table,
        program.inputs,
        program.registers,
        memory.values,
    );
    put_answer(out, b"bare ", a);
    put_list(out, b"values", memory.values);
}

// The most words of a list that a case lends.
const WORDS: usize = 64;

// Makes a call of a program in the lists that it lends, and prints what the call puts.
fn lend<Call: FnOnce(Program, &mut Memory, &mut Output)>(
    rt: HostRuntime,
    program: Program,
    out: &mut Output,
    call: Call,
)
    requires { Call.IsAlwaysCallable call }
{
    let values = program.values as usize;
    let bases = program.bases as usize;
    let ends = program.ends as usize;
    if WORDS < values || WORDS < bases || WORDS < ends {
        return malformed(rt, out);
    }
    let mut memory = Memory {
        values: &mut [7u32; WORDS][..values],
        bases: &mut [7u32; WORDS][..bases],
        ends: &mut [7u32; WORDS][..ends],
    };
    call(program, &mut memory, out);
    stream::flush(rt, out);
}

// Answers every case, each of which tells where the next begins. What follows the last one is none.
fn answer_all(rt: HostRuntime, numbers: &[u32], out: &mut Output) {
    let mut left = numbers;
    while let Some((program, rest)) = Program::split(left) {
        lend(rt, program, out, check_and_run);
        lend(rt, program, out, explain);
        lend(rt, program, out, run_bare);
        left = rest;
    }
    if !left.is_empty() {
        malformed(rt, out);
    }
}

// Standard input has room for 65,536 bytes and 16,384 numbers. Once it is scanned, what is to be printed stands where it stood.
fn main(rt: HostRuntime) {
    let mut buffer = [0u8; 65536];
    let mut numbers = [0u32; 16384];
    let n = stream::read_full(rt, &mut buffer);
    let s = text::scan(&buffer[..n], &mut numbers, Scanner::new());
    let s = text::finish(&mut numbers, s);
    // 0 where the text is malformed.
    let count = s.count.min(numbers.len());
    answer_all(rt, &numbers[..count], &mut Output::new(&mut buffer));
}
