// The call of `capi_bare`, as the static library that C links.
#![tactic(auto)]

ghost use Rattle.semantics.specs.Words.{Words};
ghost use Rattle.semantics.specs.Bare.{call};
ghost use Rattle.semantics.specs.Agreement.{SameResult};
ghost use Rattle.capi_bare.specs.Numbers.{Is};

use capi::MavistableAnswer;

#[unsafe(no_mangle)]
pub extern "C" fn mavistable_run_bare(
    table: &[u32],
    inputs: &[u32],
    registers: &[u32],
    values: &mut [u32],
) -> MavistableAnswer
    ensures called { Is (call table.now inputs.now registers.now values.old) result values.new }
    ensures agrees { (vs bs es : Words) → SameResult table.now inputs.now registers.now vs bs es values.old }
{
    capi_bare::mavistable_run_bare(table, inputs, registers, values)
}
