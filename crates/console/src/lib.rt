// What the bench program does with a text of numbers: runs what they ask for, and prints how it ended.
#![tactic(auto)]

ghost use Rattle.std.specs.Prelude.{◌≤◌, ◌-◌, [], ◌∷◌, ◌≡◌, length, take, drop};
ghost use Rattle.machine.specs.Run.{answer_of};
ghost use Rattle.semantics.specs.Run.{call};
ghost use Rattle.stream.specs.Items.{Prints};
ghost use Rattle.steps.specs.Answers.{SameLists};
ghost use Rattle.lines.specs.Lines.{unused};
ghost use Rattle.request.specs.Request.{demand, stored};
ghost use Rattle.console.specs.Output.{memory_lines, answer_lines, lists, lists_of, call_in, has_room, output, lists_after, Answers, Called, Ran, Holds, Printed};

use lines::{put_ending, put_word, unused_after};
use machine::Answer;
use request::Request;
use steps::Memory;
use text::{Output, Scanner};

// The words of each list of the program's own memory.
const MEMORY: usize = 4096;

// The bytes of the longest answer: 84 for each of 4,096 lines.
pub const ROOM: usize = 344064;

// The lines of the words from 1 to `unused` - 1.
fn put_memory(out: &mut Output, unused: usize, memory: &Memory)
    requires { Holds memory.now unused }
    ensures { Prints (memory_lines unused memory.now.values.now memory.now.bases.now memory.now.ends.now) out.old out.new }
{
    // By index: it is the address that is printed, and all three lists have the word there.
    for i in 1..unused {
        put_word(out, i, memory.values[i], memory.bases[i], memory.ends[i]);
    }
}

// How a call ended, and after a run the memory.
fn put_answer(out: &mut Output, a: &Answer, memory: &Memory)
    requires { Holds memory.now (unused (answer_of a.now)) }
    ensures { Prints (answer_lines (answer_of a.now) memory.now.values.now memory.now.bases.now memory.now.ends.now) out.old out.new }
{
    put_ending(out, a);
    out.put_bytes(b"\n");
    put_memory(out, unused_after(a), memory);
}

// Runs a table in three lists, without registers, and prints how that ended at the front of an output, which has room for their words.
// By list, as `machine::run`.
fn run_and_print(
    t: &[u32],
    inputs: &[u32],
    values: &mut [u32],
    bases: &mut [u32],
    ends: &mut [u32],
    out: &mut Output,
)
    requires { (length values.old ≤ 4096) × (344064 ≤ length out.old.bytes.now) × (out.old.at ≡ 0) }
    ensures { Called (call t.now inputs.now (0 ∷ []) values.old bases.old ends.old) (lists values.new bases.new ends.new) out.old out.new }
{
    let no_registers = [0u32];
    let a = machine::run(t, inputs, &no_registers, values, bases, ends);
    let memory = Memory {
        values,
        bases,
        ends,
    };
    put_answer(out, &a, &memory);
}

// Runs the table from its place to `count`, with the inputs before it, in the first words of three lists. By list: from parts of one
// `&mut Memory` it was not proved that its three lists stay where they are.
fn run_request(
    numbers: &[u32],
    count: usize,
    q: Request,
    values: &mut [u32],
    bases: &mut [u32],
    ends: &mut [u32],
    out: &mut Output,
)
    requires parts { (2 ≤ q.from) × (q.from ≤ count) × (count ≤ length numbers.now) }
    requires memory { (q.memory ≤ 4096) × (q.memory ≤ length values.old) × (q.memory ≤ length bases.old) × (q.memory ≤ length ends.old) }
    requires room { (344064 ≤ length out.old.bytes.now) × (out.old.at ≡ 0) }
    ensures { Ran (call_in (lists values.old bases.old ends.old) q.memory (take (q.from - 2) (drop 2 numbers.now)) (take (count - q.from) (drop q.from numbers.now))) (lists values.old bases.old ends.old) (lists values.new bases.new ends.new) out.old out.new }
{
    run_and_print(
        &numbers[q.from..count],
        &numbers[2..q.from],
        &mut values[..q.memory],
        &mut bases[..q.memory],
        &mut ends[..q.memory],
        out,
    );
}

// Whether a memory and an output are long enough for every request.
#[tactic(auto, unfolding(crate::specs::Output::has_room))]
fn has_room(memory: &Memory, out: &[u8]) -> bool
    ensures { result ≡ has_room (length memory.now.values.now) (length memory.now.bases.now) (length memory.now.ends.now) (length out.now) }
{
    MEMORY <= memory.values.len()
        && MEMORY <= memory.bases.len()
        && MEMORY <= memory.ends.len()
        && ROOM <= out.len()
}

// Runs what the numbers of a finished text ask for, and prints what the bench program prints for them at the front of an output.
fn print_request(numbers: &[u32], s: Scanner, memory: &mut Memory, out: &mut Output)
    requires { Holds memory.old 4096 × (344064 ≤ length out.old.bytes.now) × (out.old.at ≡ 0) }
    ensures same_lists { SameLists memory.old memory.new }
    ensures left { lists_of memory.new ≡ lists_after (demand (stored numbers.now s)) (lists_of memory.old) }
    ensures printed { Printed (output (demand (stored numbers.now s))) out.old out.new }
{
    match Request::of(numbers, s) {
        Some(q) => run_request(
            numbers,
            s.count,
            q,
            memory.values,
            memory.bases,
            memory.ends,
            out,
        ),
        None => out.put_bytes(b"input\n"),
    }
}

// Ends a text, whose numbers a scanner has stored, and prints what the bench program prints for it at the front of `out`: answers how many
// bytes that are. A run is in the first words of the memory. Where a list is too short, nothing is done.
pub fn answer(numbers: &mut [u32], s: Scanner, memory: &mut Memory, out: &mut [u8]) -> Option<usize>
    ensures same_lists { SameLists memory.old memory.new }
    ensures answers { Answers s numbers.old (lists_of memory.old) out.old numbers.new (lists_of memory.new) out.new result }
{
    if !has_room(memory, out) {
        return None;
    }
    let s = text::finish(numbers, s);
    let mut out = Output::new(out);
    print_request(numbers, s, memory, &mut out);
    Some(out.at)
}
