// The bare call for C: numbers and slices alone. A library of its own, for boxes that have no lists of bounds.
#![tactic(auto)]

ghost use Rattle.semantics.specs.Words.{Words};
ghost use Rattle.semantics.specs.Bare.{call};
ghost use Rattle.semantics.specs.Agreement.{SameResult};
ghost use Rattle.capi_bare.specs.Numbers.{Is};

use bare_commands::Ended;
use capi::MavistableAnswer;

// The numbers of `MavistableAnswer`: 1 is done, 3 no room, and 4 stuck. What an ending does not tell is 0.
pub fn mavistable_run_bare(
    table: &[u32],
    inputs: &[u32],
    registers: &[u32],
    values: &mut [u32],
) -> MavistableAnswer
    ensures called { Is (call table.now inputs.now registers.now values.old) result values.new }
    ensures agrees { (vs bs es : Words) → SameResult table.now inputs.now registers.now vs bs es values.old }
{
    match machine::run_bare(table, inputs, registers, values) {
        Err(r) => MavistableAnswer::refused(r),
        Ok(Ended::Done(unused)) => MavistableAnswer::ended(1, 0, unused),
        Ok(Ended::NoRoom(command, unused)) => MavistableAnswer::ended(3, command, unused),
        Ok(Ended::Stuck(command, unused)) => MavistableAnswer::ended(4, command, unused),
    }
}
