// Answers recorded cases, one line in and one line out, so that thousands run in one process. The crate `cases` says what a case is. The lists
// that one lends arrive with the word 7 in every place. An explained run is answered as a run is, and then by its explanation; a bare run by its
// ending and the words up to the last that is not 0. A line that is no case is answered by `case`.
#![tactic(auto)]

use cases::{Case, Program, front};
use commands::Ending;
use layout::Refusal;
use machine::{BareAnswer, Cause, Explained};
use steps::Memory;
use stream::{make_room, put_after};
use text::Output;

// What stands in each word that a case lends.
const FILL: u32 = 7;

fn is_changed(list: &[u32]) -> bool {
    list.iter().any(|word| *word != FILL)
}

// A word of memory as `value:base:end`, after a space.
fn put_word(out: &mut Output, value: u32, base: u32, end: u32) {
    put_after(out, b" ", value as u64);
    put_after(out, b":", base as u64);
    put_after(out, b":", end as u64);
}

// Words 1 to `unused` - 1.
fn put_words(rt: HostRuntime, out: &mut Output, unused: usize, memory: &Memory) {
    let words = memory
        .values
        .iter()
        .zip(memory.bases.iter())
        .zip(memory.ends.iter());
    for ((value, base), end) in words.take(unused).skip(1) {
        make_room(rt, out);
        put_word(out, *value, *base, *end);
    }
}

// How a run ended, then the memory of a begun run, or whether a refused one has changed a word.
fn put_run<C>(rt: HostRuntime, out: &mut Output, a: &Result<Ending<C>, Refusal>, memory: &Memory) {
    lines::put_ending(out, a);
    if a.is_err() {
        if is_changed(memory.values) || is_changed(memory.bases) || is_changed(memory.ends) {
            out.put_bytes(b" changed");
        }
        return;
    }
    let unused = lines::unused_after(a);
    if unused < 2 {
        return out.put_bytes(b" ; -");
    }
    out.put_bytes(b" ;");
    put_words(rt, out, unused, memory);
}

// The check that was not passed.
fn put_check(rt: HostRuntime, out: &mut Output, x: Cause) {
    make_room(rt, out);
    put_after(out, b" ; ", x.node as u64);
    put_after(out, b" ", x.place);
    put_after(out, b" ", x.words as u64);
    put_after(out, b" ", x.base as u64);
    put_after(out, b" ", x.end as u64);
}

// An explanation: the check, the reason, and the first word of what the bounds lie in.
fn put_cause(rt: HostRuntime, out: &mut Output, x: Cause) {
    put_check(rt, out, x);
    make_room(rt, out);
    put_after(out, b" ", x.reason as u64);
    put_after(out, b" ", x.first as u64);
}

// The answer of a run, and its explanation if it was begun.
fn put_explained(rt: HostRuntime, out: &mut Output, e: Explained, memory: &Memory) {
    put_run(rt, out, &e, memory);
    match e {
        Err(_) => {}
        Ok(Ending::Abort(_, _, x)) => put_cause(rt, out, x),
        Ok(_) => out.put_bytes(b" ; none"),
    }
}

// Some words of a list.
fn put_values(rt: HostRuntime, out: &mut Output, values: &[u32]) {
    for value in values {
        make_room(rt, out);
        put_after(out, b" ", *value as u64);
    }
}

// How a bare run ended, then the values that it left, from word 1 up to the last that is not 0; or whether a refused one has changed a word.
fn put_bare(rt: HostRuntime, out: &mut Output, a: BareAnswer, values: &[u32]) {
    lines::put_bare_ending(out, a);
    if a.is_err() {
        if is_changed(values) {
            out.put_bytes(b" changed");
        }
        return;
    }
    match values.iter().rposition(|word| *word != 0) {
        Some(last) if 1 <= last => {
            out.put_bytes(b" ;");
            put_values(rt, out, &values[1..=last]);
        }
        _ => out.put_bytes(b" ; -"),
    }
}

// Takes a step in the words that a case lends, filled.
fn in_lent<Step: FnOnce(&mut Memory)>(program: Program, memory: &mut Memory, step: Step)
    requires { Step.IsAlwaysCallable step }
{
    let mut lent = Memory {
        values: front(memory.values, program.values),
        bases: front(memory.bases, program.bases),
        ends: front(memory.ends, program.ends),
    };
    lent.values.fill(FILL);
    lent.bases.fill(FILL);
    lent.ends.fill(FILL);
    step(&mut lent);
}

fn run_case(rt: HostRuntime, program: Program, memory: &mut Memory, out: &mut Output) {
    let a = machine::run(
        program.table,
        program.inputs,
        program.registers,
        memory.values,
        memory.bases,
        memory.ends,
    );
    put_run(rt, out, &a, memory);
}

fn explain_case(rt: HostRuntime, program: Program, memory: &mut Memory, out: &mut Output) {
    let e = machine::explain(
        program.table,
        program.inputs,
        program.registers,
        memory.values,
        memory.bases,
        memory.ends,
    );
    put_explained(rt, out, e, memory);
}

fn run_bare_case(rt: HostRuntime, program: Program, memory: &mut Memory, out: &mut Output) {
    let values = front(memory.values, program.values);
    values.fill(FILL);
    let a = machine::run_bare(program.table, program.inputs, program.registers, values);
    put_bare(rt, out, a, values);
}

fn check_case(t: &[u32], out: &mut Output) {
    match machine::check(t) {
        Ok(()) => out.put_bytes(b"pass"),
        Err(r) => lines::put_refusal(out, r),
    }
}

fn answer_numbers(rt: HostRuntime, numbers: &[u32], memory: &mut Memory, out: &mut Output) {
    match Case::of(numbers) {
        Some(Case::Run(program)) => in_lent(
            program,
            memory,
            |lent| run_case(rt, program, lent, out),
        ),
        Some(Case::Check(table)) => check_case(table, out),
        Some(Case::Explain(program)) => in_lent(
            program,
            memory,
            |lent| explain_case(rt, program, lent, out),
        ),
        Some(Case::Bare(program)) => run_bare_case(rt, program, memory, out),
        None => out.put_bytes(b"case"),
    }
}

// Answers a line that has these numbers.
fn answer_line(rt: HostRuntime, numbers: &[u32], memory: &mut Memory, out: &mut Output) {
    make_room(rt, out);
    answer_numbers(rt, numbers, memory, out);
    out.put_bytes(b"\n");
}

fn main(rt: HostRuntime) {
    let mut buffer = [0u8; 65536];
    let mut numbers = [0u32; Case::NUMBERS];
    let mut values = [0u32; Case::WORDS];
    let mut bases = [0u32; Case::WORDS];
    let mut ends = [0u32; Case::WORDS];
    let mut memory = Memory {
        values: &mut values,
        bases: &mut bases,
        ends: &mut ends,
    };
    let mut bytes = [0u8; 65536];
    let mut out = Output::new(&mut bytes);
    cases::for_each_line(
        rt,
        &mut buffer,
        &mut numbers,
        |numbers| answer_line(rt, numbers, &mut memory, &mut out),
    );
    stream::flush(rt, &mut out);
}
