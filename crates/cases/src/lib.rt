// Recorded cases: the lines of the input, and the parts of a case that the numbers of a line are. A case is
// `CALL LIGHT LV LB LE LK NI i.. NR r.. NT t..`: CALL is 0 for a run, 1 for the check alone, 2 for a run that is explained and 3 for a bare run;
// LV, LB and LE are the lengths of the lists lent, of which a bare run takes the first; LK is not used, LIGHT is 0; i.. are the inputs, r.. the register list and t.. the table. Single spaces
// part the numbers.
#![tactic(auto)]

ghost use Rattle.std.specs.Prelude.{◌≡◌, ◌≤◌, min, length, IfSome};
ghost use Rattle.std.specs.Fn.{CalledAt};
ghost use Rattle.cases.specs.Cases.{Counted, StartsWith, Parsed};
ghost use Rattle.cases.specs.Lines.{ScansLine, Taken};

use stream::{Part, PartEnd};
use text::{Scanner, State};

// Words that stand after their count at the front of some numbers, and the numbers after them.
fn take_counted(numbers: &[u32]) -> Option<(&[u32], &[u32])>
    ensures { IfSome result (λ p. Counted p.0.now p.1.now numbers.now) }
{
    let (count, rest) = numbers.split_first()?;
    rest.split_at_checked(*count as usize)
}

// The program of a case: how many words it lends of each list, what it hands in, and its table.
#[derive(Clone, Copy)]
pub struct Program<'a> {
    pub values: u32,
    pub bases: u32,
    pub ends: u32,
    pub inputs: &'a [u32],
    pub registers: &'a [u32],
    pub table: &'a [u32],
}

impl<'a> Program<'a> {
    // The program of the case that some numbers start with, and the numbers after it.
    pub fn split(numbers: &'a [u32]) -> Option<(Program<'a>, &'a [u32])>
        ensures { IfSome result (λ p. StartsWith numbers.now p.0 p.1.now) }
    {
        let [_, _, values, bases, ends, _, rest @ ..] = numbers else {
            return None;
        };
        let (inputs, rest) = take_counted(rest)?;
        let (registers, rest) = take_counted(rest)?;
        let (table, rest) = take_counted(rest)?;
        let program = Program {
            values: *values,
            bases: *bases,
            ends: *ends,
            inputs,
            registers,
            table,
        };
        Some((program, rest))
    }
}

// What the numbers of a line ask for.
#[derive(Clone, Copy)]
pub enum Case<'a> {
    Run(Program<'a>),
    Check(&'a [u32]),
    Explain(Program<'a>),
    Bare(Program<'a>),
}

impl<'a> Case<'a> {
    // The most words of a list, entries of the block list, inputs, words of the register list, and words of the table.
    const LIST: u32 = 65537;

    const BLOCKS: u32 = 200;

    const INPUTS: usize = 100;

    const REGISTERS: usize = 70000;

    const TABLE: usize = 4000;

    // The most numbers of a case, and the most words of a list that it lends.
    pub const NUMBERS: usize = 9 + Case::INPUTS + Case::REGISTERS + Case::TABLE;

    pub const WORDS: usize = Case::LIST as usize;

    // Whether the parts of a program are no longer than they may be.
    fn allows(p: Program) -> bool {
        p.values <= Case::LIST
            && p.bases <= Case::LIST
            && p.ends <= Case::LIST
            && p.inputs.len() <= Case::INPUTS
            && p.registers.len() <= Case::REGISTERS
            && p.table.len() <= Case::TABLE
    }

    pub fn of(numbers: &'a [u32]) -> Option<Case<'a>>
        ensures { Parsed numbers.now result }
    {
        let (program, rest) = Program::split(numbers)?;
        if !rest.is_empty()
            || numbers[1] != 0
            || Case::BLOCKS < numbers[5]
            || !Case::allows(program)
        {
            return None;
        }
        match numbers[0] {
            0 => Some(Case::Run(program)),
            1 => Some(Case::Check(program.table)),
            2 => Some(Case::Explain(program)),
            3 => Some(Case::Bare(program)),
            _ => None,
        }
    }
}

// A line that was read: the part of the input that it ended with, and how many numbers it has, or that the input ended before it. A line of
// anything but numbers that single spaces part has 0.
#[derive(Clone, Copy)]
pub struct Line {
    pub part: Part,
    pub count: Option<usize>,
}

// How the bytes of a line end, so far.
#[derive(Clone, Copy, PartialEq, Eq)]
enum Spacing {
    Empty,
    Space,
    Other,
    // The line starts with a space, or has two together.
    Bad,
}

impl Spacing {
    fn after(self, b: u8) -> Spacing {
        match (self, b) {
            (Spacing::Bad, _) => Spacing::Bad,
            (Spacing::Other, b' ') => Spacing::Space,
            (_, b' ') => Spacing::Bad,
            _ => Spacing::Other,
        }
    }
}

// A line so far: the part of the input that was read last, its numbers, and how its bytes end.
#[derive(Clone, Copy)]
struct Progress {
    part: Part,
    scanner: Scanner,
    spacing: Spacing,
}

// Reads and scans the next part of a line.
fn take_part(rt: HostRuntime, buffer: &mut [u8], numbers: &mut [u32], p: Progress) -> Progress
    requires { ScansLine numbers.old p.scanner }
    ensures { ScansLine numbers.new result.scanner }
{
    let part = stream::next_part(rt, buffer, p.part, b'\n');
    let bytes = &buffer[part.from..part.to];
    Progress {
        part,
        scanner: text::scan(bytes, numbers, p.scanner),
        spacing: bytes.iter().fold(p.spacing, |spacing, b| spacing.after(*b)),
    }
}

// Ends a line. The input's end ends a line that has bytes.
fn finish_line(numbers: &mut [u32], p: Progress) -> Line
    requires { ScansLine numbers.old p.scanner }
    ensures { IfSome result.count (λ n. n ≤ length numbers.new) }
{
    let part = p.part;
    let s = text::finish(numbers, p.scanner);
    let count = match (p.spacing, s.state) {
        (Spacing::Empty, _) if part.end == PartEnd::Last => None,
        (Spacing::Other, State::Between) => Some(s.count),
        _ => Some(0),
    };
    Line { part, count }
}

// The line after the part `last`; its numbers are stored.
pub fn next_line(rt: HostRuntime, buffer: &mut [u8], numbers: &mut [u32], last: Part) -> Line
    ensures { IfSome result.count (λ n. n ≤ length numbers.new) }
{
    let mut p = Progress {
        part: last,
        scanner: Scanner::new(),
        spacing: Spacing::Empty,
    };
    // A proved loop has to end, so this one has more turns than a line uses up.
    for _ in 0..u64::MAX {
        p = take_part(rt, buffer, numbers, p);
        if p.part.end != PartEnd::Open {
            break;
        }
    }
    finish_line(numbers, p)
}

// Takes a step at the numbers of each line of the input, one line after the other.
pub fn for_each_line<Step: FnMut(&[u32])>(
    rt: HostRuntime,
    buffer: &mut [u8],
    numbers: &mut [u32],
    step: Step,
)
    requires { Step.IsAlwaysCallable step }
    ensures { (last : Step) × Taken (λ p xs q. CalledAt Step.FnMut p xs tt q) (λ xs. length xs ≤ length numbers.old) step last }
{
    let mut step = step;
    let mut part = Part::new();
    // As in `next_line`.
    for _ in 0..u64::MAX {
        if part.end == PartEnd::Last {
            break;
        }
        let line = next_line(rt, buffer, numbers, part);
        part = line.part;
        if let Some(count) = line.count {
            step(&numbers[..count]);
        }
    }
}

// The first n words of a list: what a case lends of it. A case lends no more words than `Case::WORDS`.
pub fn front(list: &mut [u32], n: u32) -> &mut [u32]
    ensures { length result.now ≡ min (length list.old) n }
{
    let n = list.len().min(n as usize);
    &mut list[..n]
}
