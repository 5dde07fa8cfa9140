// The two calls for C: numbers and slices alone.
#![tactic(auto)]

ghost use Rattle.std.specs.Prelude.{◌≡◌};
ghost use Rattle.semantics.specs.Check.{check};
ghost use Rattle.semantics.specs.Run.{refusal, call};
ghost use Rattle.semantics.specs.Safety.{SpatiallySafe};
ghost use Rattle.semantics.specs.Log.{LogBelievable};
ghost use Rattle.layout.specs.Refusals.{number_of};
ghost use Rattle.capi.specs.Numbers.{verdict_numbers, answer_numbers, Is};

use commands::Ending;
use layout::Refusal;

// refused 0: the table passes, and number and place are 0.
#[repr(C)]
#[derive(Clone, Copy)]
pub struct MavistableVerdict {
    pub refused: u32,
    pub number: u32,
    pub place: usize,
}

// ending 0: refused, with number and place; 1: done; 2: abort; 3: no room. What an ending does not tell is 0.
#[repr(C)]
#[derive(Clone, Copy)]
pub struct MavistableAnswer {
    pub ending: u32,
    pub number: u32,
    pub place: usize,
    pub command: u32,
    pub unused: u32,
}

impl MavistableAnswer {
    pub fn refused(r: Refusal) -> MavistableAnswer
        ensures { result ≡ answer_numbers (refusal (number_of r.fault) r.place) }
    {
        MavistableAnswer {
            ending: 0,
            number: r.fault.number(),
            place: r.place,
            command: 0,
            unused: 0,
        }
    }

    // How a begun run ended, by the number of its ending.
    pub fn ended(ending: u32, command: u32, unused: u32) -> MavistableAnswer
        ensures { result ≡ record { ending = ending; number = 0; place = 0; command = command; unused = unused } }
    {
        MavistableAnswer {
            ending,
            number: 0,
            place: 0,
            command,
            unused,
        }
    }
}

pub fn mavistable_check(table: &[u32]) -> MavistableVerdict
    ensures { result ≡ verdict_numbers (check table.now) }
{
    match machine::check(table) {
        Ok(()) => MavistableVerdict {
            refused: 0,
            number: 0,
            place: 0,
        },
        Err(r) => MavistableVerdict {
            refused: 1,
            number: r.fault.number(),
            place: r.place,
        },
    }
}

pub fn mavistable_run(
    table: &[u32],
    inputs: &[u32],
    registers: &[u32],
    values: &mut [u32],
    bases: &mut [u32],
    ends: &mut [u32],
) -> MavistableAnswer
    ensures called { Is (call table.now inputs.now registers.now values.old bases.old ends.old) result values.new bases.new ends.new }
    ensures safe { SpatiallySafe table.now inputs.now registers.now values.old bases.old ends.old }
    ensures logged { LogBelievable table.now inputs.now registers.now values.old bases.old ends.old }
{
    match machine::run(table, inputs, registers, values, bases, ends) {
        Err(r) => MavistableAnswer::refused(r),
        Ok(Ending::Done(unused)) => MavistableAnswer::ended(1, 0, unused),
        Ok(Ending::Abort(command, unused, ())) => MavistableAnswer::ended(2, command, unused),
        Ok(Ending::NoRoom(command, unused)) => MavistableAnswer::ended(3, command, unused),
    }
}
