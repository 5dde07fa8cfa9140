// The call of `capi_explain`, as the static library that C links.
#![tactic(auto)]

ghost use Rattle.semantics.specs.Safety.{SpatiallySafe};
ghost use Rattle.semantics.specs.Log.{LogBelievable};
ghost use Rattle.semantics.specs.Explain.{explain, TrulyExplained};
ghost use Rattle.capi_explain.specs.Numbers.{Explains};

use capi_explain::MavistableExplanation;

#[unsafe(no_mangle)]
pub extern "C" fn mavistable_explain(
    table: &[u32],
    inputs: &[u32],
    registers: &[u32],
    values: &mut [u32],
    bases: &mut [u32],
    ends: &mut [u32],
) -> MavistableExplanation
    ensures explained { Explains (explain table.now inputs.now registers.now values.old bases.old ends.old) result values.new bases.new ends.new }
    ensures reasoned { TrulyExplained table.now inputs.now registers.now values.old bases.old ends.old }
    ensures safe { SpatiallySafe table.now inputs.now registers.now values.old bases.old ends.old }
    ensures logged { LogBelievable table.now inputs.now registers.now values.old bases.old ends.old }
{
    capi_explain::mavistable_explain(table, inputs, registers, values, bases, ends)
}
