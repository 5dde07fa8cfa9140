// Tells in words why a run aborted, for the person at the duty desk. Standard input has cases, one to a line, as the crate `cases` reads them,
// with 2 as CALL. Each is answered by how the call ended, as the bench program prints it; after a run a second line says which check was not
// passed and why, or that the run did not abort. A line that is no such case is answered by `input`.
#![tactic(auto)]

ghost use Rattle.std.specs.Prelude.{◌+◌, ◌≤◌, ◌≡◌, [], ◌∷◌, length, if◌then◌else◌};
ghost use Rattle.semantics.specs.Words.{word};
ghost use Rattle.semantics.proofs.Registers.{Whole};
ghost use Rattle.layout.specs.Layout.{LaidOut};
ghost use Rattle.machine.specs.Explain.{reason_number, cause_told};
ghost use Rattle.machine.specs.Run.{answer_of};
ghost use Rattle.stream.specs.Items.{Prints};
ghost use Rattle.why.specs.Owners.{owner_above, owner_of};
ghost use Rattle.why.specs.Told.{owner_text, kind_text, node_text, wanted_text, side_text, bounds_text, reason_text, cause_line, ended_line, not_aborted_lines, told_lines, Walkable, Tells};

use cases::{Case, Program, front};
use commands::Ending;
use layout::{Refusal, Table, kind};
use machine::{Cause, Explained, Reason};
use registers::Registers;
use steps::Memory;
use stream::put_after;
use text::Output;

// What bounds lie in: a variable, by its number; a register, by its number in the list and its variable; a block, by its first word.
#[derive(Clone, Copy)]
enum Owner {
    Variable(u32),
    Register(u32, u32),
    Block(u32),
}

// The register that has word w, if the first one begins at word `first`; else the block at w.
fn owner_above(list: &[u32], first: usize, w: u32) -> Owner
    requires { (Whole list.now) × (first ≤ 65) }
    ensures { result ≡ owner_above first list.now w }
{
    let mut end = first;
    for register in Registers::of(list) {
        end += register.length as usize;
        if (w as usize) < end {
            return Owner::Register(register.number, register.variable);
        }
    }
    Owner::Block(w)
}

// What begins at word w: words 1 to `variables` are variables, and the registers come after them.
fn owner_of(variables: usize, list: &[u32], w: u32) -> Owner
    requires { (Whole list.now) × (variables ≤ 64) }
    ensures { result ≡ owner_of variables list.now w }
{
    if 1 <= w && w as usize <= variables {
        return Owner::Variable(w - 1);
    }
    owner_above(list, variables + 1, w)
}

// What the bounds lie in.
fn put_owner(out: &mut Output, o: Owner)
    ensures { Prints (owner_text o) out.old out.new }
{
    match o {
        Owner::Variable(i) => put_after(out, b"variable ", i as u64),
        Owner::Register(i, variable) => {
            put_after(out, b"register ", i as u64);
            put_after(out, b" of variable ", variable as u64);
        }
        Owner::Block(w) => put_after(out, b"the block at ", w as u64),
    }
}

// What made the check: a copy, a field or a follow.
fn put_kind(out: &mut Output, kind: u32)
    ensures { Prints (kind_text kind) out.old out.new }
{
    match kind {
        kind::COPY => out.put_bytes(b" (a copy)"),
        kind::FIELD => out.put_bytes(b" (a field)"),
        _ => out.put_bytes(b" (a follow)"),
    }
}

// Which check it is.
fn put_node(out: &mut Output, command: u32, node: u32, kind: u32)
    ensures { Prints (node_text command node kind) out.old out.new }
{
    put_after(out, b"command ", command as u64);
    put_after(out, b", node ", node as u64);
    put_kind(out, kind);
}

// The words that it wanted.
fn put_wanted(out: &mut Output, x: Cause)
    ensures { Prints (wanted_text (cause_told x)) out.old out.new }
{
    put_after(out, b": wanted ", x.words as u64);
    if x.words == 1 {
        return put_after(out, b" word at ", x.place);
    }
    put_after(out, b" words at ", x.place);
}

// On which side of the bounds these words are, where there are bounds.
fn put_side(out: &mut Output, reason: Reason)
    ensures { Prints (side_text (reason_number reason) ∷ []) out.old out.new }
{
    if let Reason::BeforeBase = reason {
        return out.put_bytes(b", before the base");
    }
    out.put_bytes(b", past the end");
}

// The same, and the bounds.
fn put_bounds(out: &mut Output, x: Cause)
    ensures { Prints (bounds_text (cause_told x)) out.old out.new }
{
    put_side(out, x.reason);
    put_after(out, b" of the pointer's bounds [", x.base as u64);
    put_after(out, b", ", x.end as u64);
    out.put_bytes(b"), in ");
}

// Why the check was not passed.
fn put_reason(out: &mut Output, variables: usize, list: &[u32], x: Cause)
    requires { (Whole list.now) × (variables ≤ 64) }
    ensures { Prints (reason_text variables list.now (cause_told x)) out.old out.new }
{
    if let Reason::NoBounds = x.reason {
        return out.put_bytes(b", but the pointer has no bounds");
    }
    put_bounds(out, x);
    put_owner(out, owner_of(variables, list, x.first));
}

// Word i of a list, 0 past its end.
fn word_at(list: &[u32], i: usize) -> u32
    ensures { result ≡ word list.now i }
{
    list.get(i).copied().unwrap_or(0)
}

// The line of an abort. The kind of the check's node stands in the table.
fn put_cause(out: &mut Output, program: Program, l: Table, command: u32, x: Cause)
    requires { (LaidOut program.table.now l) × (Whole program.registers.now) }
    ensures { Prints (cause_line program.entry.table.now program.entry.registers.now command (cause_told x)) out.old out.new }
{
    let kind = word_at(program.table, l.nodes.at + 3 * x.node as usize);
    put_node(out, command, x.node, kind);
    put_wanted(out, x);
    put_reason(out, l.variables.count, program.registers, x);
    out.put_bytes(b"\n");
}

// The line of an ending.
fn put_ended<C>(out: &mut Output, a: &Result<Ending<C>, Refusal>)
    ensures { Prints (ended_line (answer_of a.now)) out.old out.new }
{
    lines::put_ending(out, a);
    out.put_bytes(b"\n");
}

// The lines of a run that did not abort.
fn put_not_aborted(out: &mut Output, e: &Explained)
    ensures { Prints (not_aborted_lines (answer_of e.now)) out.old out.new }
{
    put_ended(out, e);
    out.put_bytes(b"the run did not abort\n");
}

// All lines for a call.
fn put_told(out: &mut Output, program: Program, l: Table, e: Explained)
    requires { (LaidOut program.table.now l) × (Walkable program.registers.now e) }
    ensures { Prints (told_lines program.entry.table.now program.entry.registers.now e) out.old out.new }
{
    match e {
        Err(_) => put_ended(out, &e),
        Ok(Ending::Abort(command, _, x)) => {
            put_ended(out, &e);
            put_cause(out, program, l, command, x);
        }
        Ok(Ending::Done(_)) => put_not_aborted(out, &e),
        Ok(Ending::NoRoom(_, _)) => put_not_aborted(out, &e),
    }
}

// Room for the longest answer.
const ROOM: usize = 512;

// Runs and explains a program, and puts what a person is told of that. The check of a table begins with its sections, so what it refuses of them is
// the call's refusal.
fn tell(program: Program, memory: &mut Memory, out: &mut Output)
    requires { out.old.at + 512 ≤ length out.old.bytes.now }
    ensures { Tells program.entry memory.old out.old memory.new out.new }
{
    match Table::parse(program.table) {
        Ok(l) => {
            let e = machine::explain(
                program.table,
                program.inputs,
                program.registers,
                memory.values,
                memory.bases,
                memory.ends,
            );
            put_told(out, program, l, e);
        }
        Err(r) => put_ended::<()>(out, &Err(r)),
    }
}

// Tells of the run that a case asks for, in the words that it lends.
fn tell_case(program: Program, memory: &mut Memory, out: &mut Output)
    requires { out.old.at + 512 ≤ length out.old.bytes.now }
{
    let mut lent = Memory {
        values: front(memory.values, program.values),
        bases: front(memory.bases, program.bases),
        ends: front(memory.ends, program.ends),
    };
    tell(program, &mut lent, out);
}

// Answers a line that has these numbers.
fn answer_line(rt: HostRuntime, numbers: &[u32], memory: &mut Memory) {
    let mut bytes = [0u8; ROOM];
    let mut out = Output::new(&mut bytes);
    match Case::of(numbers) {
        Some(Case::Explain(program)) => tell_case(program, memory, &mut out),
        _ => out.put_bytes(b"input\n"),
    }
    stream::flush(rt, &mut out);
}

fn main(rt: HostRuntime) {
    let mut buffer = [0u8; 65536];
    let mut numbers = [0u32; Case::NUMBERS];
    let mut values = [0u32; Case::WORDS];
    let mut bases = [0u32; Case::WORDS];
    let mut ends = [0u32; Case::WORDS];
    let mut memory = Memory {
        values: &mut values,
        bases: &mut bases,
        ends: &mut ends,
    };
    cases::for_each_line(
        rt,
        &mut buffer,
        &mut numbers,
        |numbers| answer_line(rt, numbers, &mut memory),
    );
}
