// The two calls of `capi`, as the static library that C links.
#![tactic(auto)]

ghost use Rattle.std.specs.Prelude.{◌≡◌};
ghost use Rattle.semantics.specs.Check.{check};
ghost use Rattle.semantics.specs.Run.{call};
ghost use Rattle.semantics.specs.Safety.{SpatiallySafe};
ghost use Rattle.semantics.specs.Log.{LogBelievable};
ghost use Rattle.capi.specs.Numbers.{verdict_numbers, Is};

use capi::{MavistableAnswer, MavistableVerdict};

#[unsafe(no_mangle)]
pub extern "C" fn mavistable_check(table: &[u32]) -> MavistableVerdict
    ensures { result ≡ verdict_numbers (check table.now) }
{
    capi::mavistable_check(table)
}

#[unsafe(no_mangle)]
pub extern "C" fn mavistable_run(
    table: &[u32],
    inputs: &[u32],
    registers: &[u32],
    values: &mut [u32],
    bases: &mut [u32],
    ends: &mut [u32],
) -> MavistableAnswer
    ensures called { Is (call table.now inputs.now registers.now values.old bases.old ends.old) result values.new bases.new ends.new }
    ensures safe { SpatiallySafe table.now inputs.now registers.now values.old bases.old ends.old }
    ensures logged { LogBelievable table.now inputs.now registers.now values.old bases.old ends.old }
{
    capi::mavistable_run(table, inputs, registers, values, bases, ends)
}
