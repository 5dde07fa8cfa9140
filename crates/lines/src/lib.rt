// The lines that the bench program prints for a call: how it ended, and the words of the memory. How a bare call ended.
#![tactic(auto)]

ghost use Rattle.std.specs.Prelude.{[], ◌∷◌, ◌≡◌};
ghost use Rattle.semantics.specs.Run.{refusal};
ghost use Rattle.layout.specs.Refusals.{number_of};
ghost use Rattle.machine.specs.Run.{answer_of};
ghost use Rattle.machine.specs.Bare.{bare_answer_of};
ghost use Rattle.stream.specs.Items.{word, number, Prints};
ghost use Rattle.lines.specs.Lines.{space, ending_line, bare_ending_line, unused, word_line};

use bare_commands::Ended;
use commands::Ending;
use layout::Refusal;
use machine::BareAnswer;
use stream::put_after;
use text::Output;

// A word and two numbers.
fn put_pair(out: &mut Output, bytes: &[u8], x: u64, y: u64)
    ensures { Prints (word bytes.now ∷ number x ∷ space ∷ number y ∷ []) out.old out.new }
{
    put_after(out, bytes, x);
    put_after(out, b" ", y);
}

// That a call was refused, without the line's end.
pub fn put_refusal(out: &mut Output, r: Refusal)
    ensures { Prints (ending_line (refusal (number_of r.fault) r.place)) out.old out.new }
{
    put_pair(out, b"refused ", r.fault.number() as u64, r.place as u64);
}

// How a call ended, without the line's end. What else an abort tells is not printed.
pub fn put_ending<C>(out: &mut Output, a: &Result<Ending<C>, Refusal>)
    ensures { Prints (ending_line (answer_of a.now)) out.old out.new }
{
    match a {
        Err(r) => put_refusal(out, *r),
        Ok(Ending::Done(unused)) => put_after(out, b"done ", *unused as u64),
        Ok(Ending::Abort(command, unused, _)) => {
            put_pair(out, b"abort ", *command as u64, *unused as u64);
        }
        Ok(Ending::NoRoom(command, unused)) => {
            put_pair(out, b"noroom ", *command as u64, *unused as u64);
        }
    }
}

// How a bare call ended, without the line's end.
pub fn put_bare_ending(out: &mut Output, a: BareAnswer)
    ensures { Prints (bare_ending_line (bare_answer_of a)) out.old out.new }
{
    match a {
        Err(r) => put_refusal(out, r),
        Ok(Ended::Done(unused)) => put_after(out, b"done ", unused as u64),
        Ok(Ended::NoRoom(command, unused)) => {
            put_pair(out, b"noroom ", command as u64, unused as u64);
        }
        Ok(Ended::Stuck(command, unused)) => {
            put_pair(out, b"stuck ", command as u64, unused as u64);
        }
    }
}

// U after a run; 0 after a refusal, which leaves no memory to print.
pub fn unused_after<C>(a: &Result<Ending<C>, Refusal>) -> usize
    ensures { result ≡ unused (answer_of a.now) }
{
    match a {
        Err(_) => 0,
        Ok(Ending::Done(unused)) => *unused as usize,
        Ok(Ending::Abort(_, unused, _)) => *unused as usize,
        Ok(Ending::NoRoom(_, unused)) => *unused as usize,
    }
}

// The line of one word: address, value, base, end.
pub fn put_word(out: &mut Output, address: usize, value: u32, base: u32, end: u32)
    ensures { Prints (word_line address value base end) out.old out.new }
{
    out.put_number(address as u64);
    put_after(out, b" ", value as u64);
    put_after(out, b" ", base as u64);
    put_after(out, b" ", end as u64);
    out.put_bytes(b"\n");
}
