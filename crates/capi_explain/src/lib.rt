// The call for C that explains an abort. It is a library of its own, so that a program which only checks and runs has neither its code nor its cost.
#![tactic(auto)]

ghost use Rattle.std.specs.Prelude.{◌≡◌};
ghost use Rattle.semantics.specs.Safety.{SpatiallySafe};
ghost use Rattle.semantics.specs.Log.{LogBelievable};
ghost use Rattle.semantics.specs.Explain.{not_aborted, explain, TrulyExplained};
ghost use Rattle.capi_explain.specs.Numbers.{with_cause, Explains};

use capi::MavistableAnswer;
use commands::Ending;

// The numbers of `MavistableAnswer`, and for an abort its cause. What an ending does not tell is 0; reason 0: the run did not abort.
#[repr(C)]
#[derive(Clone, Copy)]
pub struct MavistableExplanation {
    pub ending: u32,
    pub number: u32,
    pub place: usize,
    pub command: u32,
    pub unused: u32,
    pub node: u32,
    pub words: u32,
    pub wanted: u64,
    pub base: u32,
    pub end: u32,
    pub reason: u32,
    pub first: u32,
}

// The numbers of an answer, without a cause.
fn without_cause(a: MavistableAnswer) -> MavistableExplanation
    ensures { result ≡ with_cause a not_aborted }
{
    MavistableExplanation {
        ending: a.ending,
        number: a.number,
        place: a.place,
        command: a.command,
        unused: a.unused,
        node: 0,
        words: 0,
        wanted: 0,
        base: 0,
        end: 0,
        reason: 0,
        first: 0,
    }
}

pub fn mavistable_explain(
    table: &[u32],
    inputs: &[u32],
    registers: &[u32],
    values: &mut [u32],
    bases: &mut [u32],
    ends: &mut [u32],
) -> MavistableExplanation
    ensures explained { Explains (explain table.now inputs.now registers.now values.old bases.old ends.old) result values.new bases.new ends.new }
    ensures reasoned { TrulyExplained table.now inputs.now registers.now values.old bases.old ends.old }
    ensures safe { SpatiallySafe table.now inputs.now registers.now values.old bases.old ends.old }
    ensures logged { LogBelievable table.now inputs.now registers.now values.old bases.old ends.old }
{
    match machine::explain(table, inputs, registers, values, bases, ends) {
        Err(r) => without_cause(MavistableAnswer::refused(r)),
        Ok(Ending::Done(unused)) => without_cause(MavistableAnswer::ended(1, 0, unused)),
        Ok(Ending::NoRoom(command, unused)) => without_cause(MavistableAnswer::ended(
            3, command, unused,
        )),
        Ok(Ending::Abort(command, unused, x)) => MavistableExplanation {
            node: x.node,
            words: x.words,
            wanted: x.place,
            base: x.base,
            end: x.end,
            reason: x.reason as u32,
            first: x.first,
            ..without_cause(MavistableAnswer::ended(2, command, unused))
        },
    }
}
