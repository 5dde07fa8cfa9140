// Runs a table: the commands in order over the three lists of the memory, and tells why a run aborted; or over its values alone, without bounds.
#![tactic(auto)]

ghost use Rattle.std.specs.Prelude.{◌≡◌};
ghost use Rattle.semantics.specs.Safety.{SpatiallySafe};
ghost use Rattle.semantics.specs.Log.{LogBelievable};
ghost use Rattle.semantics.specs.Check.{◌or_else◌, check, arguments_fault, registers_fault};
ghost use Rattle.semantics.specs.Run.{call};
ghost use Rattle.semantics.specs.Explain.{explain, TrulyExplained};
ghost use Rattle.semantics.specs.Words.{Words};
ghost use Rattle.semantics.specs.Bare as bare;
ghost use Rattle.semantics.specs.Agreement.{SameResult};
ghost use Rattle.semantics.proofs.Registers.{Whole};
ghost use Rattle.layout.specs.Layout.{Stands};
ghost use Rattle.layout.specs.Layout as layout-specs;
ghost use Rattle.layout.specs.Refusals.{verdict_of};
ghost use Rattle.lookups.specs.Lists.{ListsOf};
ghost use Rattle.commands.specs.Execution.{ending_of};
ghost use Rattle.machine.specs.Run.{Is, IsProgram, CanBegin, HasBegun};
ghost use Rattle.machine.specs.Explain.{explained_of, reason_number, reason_by, Declared, TellsEnded, Startable, Executed, Watchable, Called};
ghost use Rattle.machine.specs.Bare.{bare_result, HasBegunBare, StartableBare, ExecutedBare, CalledBare};

use arguments::check_arguments;
use commands::Ending;
use layout::{Firsts, Notes, Offsets, Refusal, Section, Sizes, Table};
use lookups::Lists;
use registers::{check_registers, place_registers, set_registers, start_of};
use steps::FailedCheck;
use table::note_edition;
use words::{clear, clear_from, store_all};

// How a call ended: refused with fault and place; done with U; aborted or out of memory with command number and U.
pub type Answer = Result<Ending<()>, Refusal>;

// Why a check was not passed.
#[derive(Clone, Copy)]
pub enum Reason {
    NoBounds = 1,
    BeforeBase = 2,
    PastEnd = 3,
}

// The check that a run aborted by: its node, the place and the number of words wanted, the bounds, the reason, and the first word of the variable
// or block in which the bounds lie.
#[derive(Clone, Copy)]
pub struct Cause {
    pub node: u32,
    pub place: u64,
    pub words: u32,
    pub base: u32,
    pub end: u32,
    pub reason: Reason,
    pub first: u32,
}

// How a call ended, as in `Answer`, and for an abort its cause.
pub type Explained = Result<Ending<Cause>, Refusal>;

// How a bare call ended: refused with fault and place; done with U; out of memory or stuck with command number and U.
pub type BareAnswer = Result<bare_commands::Ended, Refusal>;

// A table that passed the check, its layout, and what the check left.
#[derive(Clone, Copy)]
struct Program<'a> {
    t: &'a [u32],
    layout: Table,
    first: &'a Firsts,
    sizes: &'a Sizes,
    offsets: &'a Offsets,
    notes: &'a Notes,
    ghost passed: { IsProgram t.now first.now sizes.now offsets.now notes.now },
    ghost laid_out: { layout ≡ layout-specs.layout t.now },
}

// Why a check was not passed: the lowest reason that applies.
fn lowest_reason(place: u64, base: u32, end: u32) -> Reason
    ensures { reason_number result ≡ reason_by place base end }
{
    if base == 0 && end == 0 {
        Reason::NoBounds
    } else if place < base as u64 {
        Reason::BeforeBase
    } else {
        Reason::PastEnd
    }
}

// A run's ending with the cause of an abort. As first word it has the start of the block that was watched for.
fn told(e: Ending<FailedCheck>) -> Ending<Cause>
    ensures { TellsEnded e result }
{
    match e {
        Ending::Done(unused) => Ending::Done(unused),
        Ending::Abort(command, unused, x) => Ending::Abort(
            command,
            unused,
            Cause {
                node: x.node,
                place: x.place,
                words: x.words,
                base: x.base,
                end: x.end,
                reason: lowest_reason(x.place, x.base, x.end),
                first: x.block,
            },
        ),
        Ending::NoRoom(command, unused) => Ending::NoRoom(command, unused),
    }
}

// The ending alone.
fn without_cause(e: Ending<Cause>) -> Ending<()>
    ensures { ending_of result ≡ ending_of e }
{
    match e {
        Ending::Done(unused) => Ending::Done(unused),
        Ending::Abort(command, unused, _) => Ending::Abort(command, unused, ()),
        Ending::NoRoom(command, unused) => Ending::NoRoom(command, unused),
    }
}

// The lists and the inputs of a call, then its registers.
fn check_call(
    t: &[u32],
    variables: Section,
    inputs: &[u32],
    registers: &[u32],
    values: usize,
    bases: usize,
    ends: usize,
) -> Result<(), Refusal>
    requires { Stands t.now 3 variables }
    ensures { verdict_of result ≡ arguments_fault t.now inputs.now values bases ends or_else registers_fault t.now registers.now values }
{
    check_arguments(t, variables, inputs, values, bases, ends)?;
    check_registers(t, variables, registers, values)
}

// The memory that a run begins with: clear, but for the inputs and the registers. Answers the first unused word. Every word of a variable or of
// a register is stored, so of `values` only the others are cleared.
fn begin(
    variables: usize,
    inputs: &[u32],
    registers: &[u32],
    values: &mut [u32],
    bases: &mut [u32],
    ends: &mut [u32],
) -> u32
    requires { CanBegin variables inputs.now registers.now values.old bases.old ends.old }
    ensures { HasBegun variables inputs.now registers.now values.old values.new bases.new ends.new result }
{
    clear(bases);
    clear(ends);
    values[0] = 0;
    store_all(values, 1, inputs);
    let unused = set_registers(registers, variables as u32 + 1, values, bases, ends);
    clear_from(values, unused as usize);
    unused
}

impl Program<'_> {
    // The lists that the evaluator looks its nodes up in.
    fn lists(&self) -> Lists<'_>
        ensures { ListsOf self.now.t.now result }
    {
        let t = self.t;
        let notes = self.notes;
        let first = self.first;
        let sizes = self.sizes;
        let offsets = self.offsets;
        let nodes_at = self.layout.nodes.at;
        let pointers_at = self.layout.pointers.at;
        let fields_at = self.layout.fields.at;
        Lists {
            nodes: &t[nodes_at..],
            notes: &notes[..],
            targets: &t[pointers_at..],
            fields: &t[fields_at..],
            firsts: &first[..],
            sizes: &sizes[..],
            offsets: &offsets[..],
        }
    }
}

// The commands of a table that passed the check, from the memory that a run begins with.
fn run_commands(
    p: &Program,
    unused: u32,
    watched: u32,
    values: &mut [u32],
    bases: &mut [u32],
    ends: &mut [u32],
) -> Ending<Cause>
    requires { Startable p.now.t.now unused watched values.old bases.old ends.old }
    ensures { Executed p.now.t.now values.old bases.old ends.old unused watched result values.new bases.new ends.new }
{
    told(commands::execute(
        p.t,
        p.layout.commands,
        &p.lists(),
        unused,
        watched,
        values,
        bases,
        ends,
    ))
}

// The rest of a call, for a table that passed the check. The block that will have the word `watched` is looked for.
fn run_checked(
    p: &Program,
    inputs: &[u32],
    registers: &[u32],
    watched: usize,
    values: &mut [u32],
    bases: &mut [u32],
    ends: &mut [u32],
) -> Explained
    requires { Watchable watched p.now.t.now inputs.now registers.now values.old bases.old ends.old }
    ensures { Called watched p.now.t.now inputs.now registers.now values.old bases.old ends.old result values.new bases.new ends.new }
{
    let variables = p.layout.variables;
    let (v, b, e) = (values.len(), bases.len(), ends.len());
    check_call(p.t, variables, inputs, registers, v, b, e)?;
    let unused = begin(variables.count, inputs, registers, values, bases, ends);
    Ok(run_commands(p, unused, watched as u32, values, bases, ends))
}

// Whether a table passes, or the fault and the place of its refusal. Any words, any length.
pub fn check(t: &[u32]) -> Result<(), Refusal>
    ensures { verdict_of result ≡ check t.now }
{
    let mut first = [0u32; Table::RECORDS + 1];
    let mut sizes = [0u32; Table::RECORDS];
    let mut offsets = [0u32; Table::FIELDS];
    let mut notes = [0u32; Table::NODES];
    table::check(t, &mut first, &mut sizes, &mut offsets, &mut notes)?;
    Ok(())
}

// Checks and runs a table, and looks for the block that will have the word `watched`.
fn call(
    t: &[u32],
    inputs: &[u32],
    registers: &[u32],
    watched: usize,
    values: &mut [u32],
    bases: &mut [u32],
    ends: &mut [u32],
) -> Explained
    requires { Watchable watched t.now inputs.now registers.now values.old bases.old ends.old }
    ensures { Called watched t.now inputs.now registers.now values.old bases.old ends.old result values.new bases.new ends.new }
{
    let mut first = [0u32; Table::RECORDS + 1];
    let mut sizes = [0u32; Table::RECORDS];
    let mut offsets = [0u32; Table::FIELDS];
    let mut notes = [0u32; Table::NODES];
    let layout = table::check(t, &mut first, &mut sizes, &mut offsets, &mut notes)?;
    note_edition(t, layout.nodes.count, &mut notes);
    let p = Program {
        t,
        layout,
        first: &first,
        sizes: &sizes,
        offsets: &offsets,
        notes: &notes,
    };
    run_checked(&p, inputs, registers, watched, values, bases, ends)
}

// Checks and runs a table, with these inputs and this list of registers. A refused call changes no word of the lists.
pub fn run(
    t: &[u32],
    inputs: &[u32],
    registers: &[u32],
    values: &mut [u32],
    bases: &mut [u32],
    ends: &mut [u32],
) -> Answer
    ensures called { Is (call t.now inputs.now registers.now values.old bases.old ends.old) result values.new bases.new ends.new }
    ensures safe { SpatiallySafe t.now inputs.now registers.now values.old bases.old ends.old }
    ensures logged { LogBelievable t.now inputs.now registers.now values.old bases.old ends.old }
{
    // No block has the word after the last.
    let end = values.len();
    let ended = call(t, inputs, registers, end, values, bases, ends)?;
    Ok(without_cause(ended))
}

// The first word of the variable or register that has word w, which is not 0, with this many variables; none where w is past them.
fn declared_start(variables: usize, registers: &[u32], w: u32) -> Option<u32>
    requires { Whole registers.now }
    ensures { Declared variables registers.now w result }
{
    if w as usize <= variables {
        return Some(w);
    }
    start_of(registers, variables + 1, w as usize)
}

// A call, and for an abort its cause. Which block has the bounds is found by a second run, which watches for their first word.
fn call_explained(
    t: &[u32],
    inputs: &[u32],
    registers: &[u32],
    values: &mut [u32],
    bases: &mut [u32],
    ends: &mut [u32],
) -> Explained
    ensures { explained_of result values.new bases.new ends.new ≡ explain t.now inputs.now registers.now values.old bases.old ends.old }
{
    let end = values.len();
    let ended = call(t, inputs, registers, end, values, bases, ends)?;
    let Ending::Abort(command, unused, x) = ended else {
        return Ok(ended);
    };
    // Bounds that are absent lie nowhere.
    if let Reason::NoBounds = x.reason {
        return Ok(ended);
    }
    if let Some(first) = declared_start(inputs.len(), registers, x.base) {
        return Ok(Ending::Abort(command, unused, Cause { first, ..x }));
    }
    call(t, inputs, registers, x.base as usize, values, bases, ends)
}

// Checks and runs a table as `run` does, and tells why it aborted if it did.
pub fn explain(
    t: &[u32],
    inputs: &[u32],
    registers: &[u32],
    values: &mut [u32],
    bases: &mut [u32],
    ends: &mut [u32],
) -> Explained
    ensures explained { explained_of result values.new bases.new ends.new ≡ explain t.now inputs.now registers.now values.old bases.old ends.old }
    ensures reasoned { TrulyExplained t.now inputs.now registers.now values.old bases.old ends.old }
    ensures safe { SpatiallySafe t.now inputs.now registers.now values.old bases.old ends.old }
    ensures logged { LogBelievable t.now inputs.now registers.now values.old bases.old ends.old }
{
    call_explained(t, inputs, registers, values, bases, ends)
}

// The memory that a bare run begins with: clear, but for the inputs and the registers. Answers the first unused word.
fn begin_bare(variables: usize, inputs: &[u32], registers: &[u32], values: &mut [u32]) -> u32
    requires { CanBegin variables inputs.now registers.now values.old values.old values.old }
    ensures { HasBegunBare variables inputs.now registers.now values.old values.new result }
{
    values[0] = 0;
    store_all(values, 1, inputs);
    let unused = place_registers(registers, variables as u32 + 1, values);
    clear_from(values, unused as usize);
    unused
}

// The commands of a table that passed the check, from the memory that a bare run begins with.
fn run_bare_commands(p: &Program, unused: u32, values: &mut [u32]) -> bare_commands::Ended
    requires { StartableBare p.now.t.now values.old }
    ensures { ExecutedBare p.now.t.now values.old unused result values.new }
{
    bare_commands::execute(p.t, p.layout.commands, &p.lists(), unused, values)
}

// The rest of a bare call, for a table that passed the check.
fn run_bare_checked(
    p: &Program,
    inputs: &[u32],
    registers: &[u32],
    values: &mut [u32],
) -> BareAnswer
    ensures { CalledBare p.now.t.now inputs.now registers.now values.old result values.new }
{
    let variables = p.layout.variables;
    // Their lengths are those of one list.
    let len = values.len();
    check_call(p.t, variables, inputs, registers, len, len, len)?;
    let unused = begin_bare(variables.count, inputs, registers, values);
    Ok(run_bare_commands(p, unused, values))
}

// Checks and runs a table without bounds, as old controllers do. A refused call changes no word of the list. Where `run` is done or finds no room, it
// ends the same way, with the same values.
pub fn run_bare(t: &[u32], inputs: &[u32], registers: &[u32], values: &mut [u32]) -> BareAnswer
    ensures called { bare_result result values.new ≡ bare.call t.now inputs.now registers.now values.old }
    ensures agrees { (vs bs es : Words) → SameResult t.now inputs.now registers.now vs bs es values.old }
{
    let mut first = [0u32; Table::RECORDS + 1];
    let mut sizes = [0u32; Table::RECORDS];
    let mut offsets = [0u32; Table::FIELDS];
    let mut notes = [0u32; Table::NODES];
    let layout = table::check(t, &mut first, &mut sizes, &mut offsets, &mut notes)?;
    note_edition(t, layout.nodes.count, &mut notes);
    let p = Program {
        t,
        layout,
        first: &first,
        sizes: &sizes,
        offsets: &offsets,
        notes: &notes,
    };
    run_bare_checked(&p, inputs, registers, values)
}
