// The commands of a table, one after the other, without bounds: the place, the value, the store.
#![tactic(auto)]

ghost use Rattle.std.specs.Prelude.{◌≡◌};
ghost use Rattle.bare_steps.specs.Answers.{state_of};
ghost use Rattle.bare_commands.specs.Command.{CommandReady, CommandAnswered};
ghost use Rattle.bare_commands.specs.Execution.{Executable, Executed};

use bare_evaluator::{assigned, result};
use bare_steps::{Halt, Memory, number};
use layout::Section;
use lookups::Lists;

// How a bare run ended: done with U; out of memory or stuck with command number and U.
#[derive(Clone, Copy)]
pub enum Ended {
    Done(u32),
    NoRoom(u32, u32),
    Stuck(u32, u32),
}

// One command: the place, the value, the store.
fn command(l: &Lists, m: &mut Memory, p: usize, v: usize) -> Result<(), Halt>
    requires { CommandReady l.now (state_of m.old) p v }
    ensures answered { CommandAnswered l.now (state_of m.old) p v result (state_of m.new) }
    ensures same_list { m.new.values.ghost_name ≡ m.old.values.ghost_name }
{
    let at = number(assigned(l, m, p))?;
    let r = number(result(l, m, v))?;
    m.store(at, r)
}

// The commands in order over these values, up to the first that does not end well. Each stands as a place node and a value node. U is `first`.
pub fn execute(t: &[u32], commands: Section, l: &Lists, first: u32, values: &mut [u32]) -> Ended
    requires { Executable t.now l.now commands values.old }
    ensures { Executed t.now values.old first result values.new }
{
    let mut m = Memory {
        values,
        unused: first,
    };
    for (c, &[p, v]) in commands.entries::<2>(t).iter().enumerate() {
        match command(l, &mut m, p as usize, v as usize) {
            Ok(()) => {}
            Err(Halt::NoRoom) => return Ended::NoRoom(c as u32, m.unused),
            Err(Halt::Stuck) => return Ended::Stuck(c as u32, m.unused),
        }
    }
    Ended::Done(m.unused)
}
