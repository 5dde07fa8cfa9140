// What a call brings beside its table: the check of its lists and inputs.
#![tactic(auto)]

ghost use Rattle.std.specs.Prelude.{◌≡◌, ◌&&◌, ◌||◌, leb, ltb, eqb, length};
ghost use Rattle.semantics.specs.Table.{count};
ghost use Rattle.semantics.specs.Check.{each, input_fault, arguments_fault};
ghost use Rattle.layout.specs.Layout.{Stands};
ghost use Rattle.layout.specs.Refusals.{verdict_of};

use layout::{Fault, Refusal, Section, require};

// A variable takes any input if it is an int, and 0 else.
fn fits(of_type: u32, input: u32) -> bool
    ensures { result ≡ (eqb of_type 0 || eqb input 0) }
{
    of_type == layout::of_type::INT || input == 0
}

// The first pointer whose input is not 0 is refused.
fn check_inputs(t: &[u32], variables: Section, inputs: &[u32]) -> Result<(), Refusal>
    requires { (Stands t.now 3 variables) × (length inputs.now ≡ count t.now 3) }
    ensures { verdict_of result ≡ each (count t.now 3) (input_fault t.now inputs.now) }
{
    for (i, &input) in inputs.iter().enumerate() {
        let fit = fits(t[variables.at + i], input);
        require(fit, Fault::Input, i)?;
    }
    Ok(())
}

// The three lists are equally long, with room for the variables and word 0, and have at most 65,536 words.
fn lengths_fit(variables: usize, values: usize, bases: usize, ends: usize) -> bool
    ensures { result ≡ (eqb values bases && eqb values ends && ltb variables values && leb values 65536) }
{
    values == bases && values == ends && variables < values && values <= 65536
}

// The lengths of the three lists, then the inputs.
pub fn check_arguments(
    t: &[u32],
    variables: Section,
    inputs: &[u32],
    values: usize,
    bases: usize,
    ends: usize,
) -> Result<(), Refusal>
    requires { Stands t.now 3 variables }
    ensures { verdict_of result ≡ arguments_fault t.now inputs.now values bases ends }
{
    let n = variables.count;
    let fit = lengths_fit(n, values, bases, ends);
    require(fit, Fault::Lengths, 0)?;
    require(inputs.len() == n, Fault::Input, n)?;
    check_inputs(t, variables, inputs)
}
