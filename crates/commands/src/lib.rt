// The commands of a table, one after the other: the place, the value, the store.
#![tactic(auto)]

ghost use Rattle.std.specs.Prelude.{◌+◌};
ghost use Rattle.steps.specs.Answers.{SameLists, Inside};
ghost use Rattle.commands.specs.Command.{CommandReady, Stored, CommandAnswered};
ghost use Rattle.commands.specs.Execution.{lists, Executable, Executed};

use evaluator::{assigned, result};
use layout::Section;
use lookups::Lists;
use steps::{FailedCheck, Halt, Memory, Slots, worked_out};

// How a run ended: done with U; aborted with command number, U and a cause; out of memory with command number and U.
#[derive(Clone, Copy)]
pub enum Ending<C> {
    Done(u32),
    Abort(u32, u32, C),
    NoRoom(u32, u32),
}

// Stores a value, and its bounds unless `bounds` is 0.
fn store(m: &mut Memory, at: usize, bounds: u32, v: u32, base: u32, end: u32)
    requires { Inside (at + 1) m.old }
    ensures stored { Stored bounds at v base end m.old m.new }
    ensures same_lists { SameLists m.old m.new }
{
    m.values[at] = v;
    if bounds != 0 {
        m.bases[at] = base;
        m.ends[at] = end;
    }
}

// One command: the place, the value, the store.
fn command(l: &Lists, m: &mut Memory, p: usize, v: usize, s: &mut Slots) -> Result<(), Halt>
    requires { CommandReady l.now m.old p v s.old }
    ensures answered { CommandAnswered l.now m.old p v s.old result m.new s.new }
    ensures same_lists { SameLists m.old m.new }
{
    let at = worked_out(assigned(l, m, p, s))?;
    // Before the value, which can write to memory: the compiler then reads the note once, here and in `result`.
    let bounds = l.bounds_of(v);
    let r = worked_out(result(l, m, v, s))?;
    store(m, at as usize, bounds, r as u32, s.base, s.end);
    Ok(())
}

// The commands in order, up to the first that does not end well. Each stands as a place node and a value node. U is `first`, and the block that
// will have the word `watched` is looked for.
pub fn execute(
    t: &[u32],
    commands: Section,
    l: &Lists,
    first: u32,
    watched: u32,
    values: &mut [u32],
    bases: &mut [u32],
    ends: &mut [u32],
) -> Ending<FailedCheck>
    requires { Executable t.now l.now commands first watched (lists values.old bases.old ends.old) }
    ensures { Executed t.now (lists values.old bases.old ends.old) first watched result (lists values.new bases.new ends.new) }
{
    let mut m = Memory {
        values,
        bases,
        ends,
    };
    let mut s = Slots {
        unused: first,
        limit: watched,
        ..Slots::default()
    };
    for (c, &[p, v]) in commands.entries::<2>(t).iter().enumerate() {
        match command(l, &mut m, p as usize, v as usize, &mut s) {
            Ok(()) => {}
            Err(Halt::Failed) => return Ending::Abort(c as u32, s.unused, s.failure()),
            Err(Halt::NoRoom) => return Ending::NoRoom(c as u32, s.unused),
        }
    }
    Ending::Done(s.unused)
}
