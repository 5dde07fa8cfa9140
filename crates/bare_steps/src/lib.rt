// The steps of the bare run that touch memory: what is answered for one node from what its child answered.
// Nothing is known of the memory but its length, so a place that is read or assigned is tested here.
#![tactic(auto)]

ghost use Rattle.std.specs.Prelude.{◌&&◌, ◌≡◌, ◌+◌, ◌≤◌, ◌<◌, leb, ltb, length};
ghost use Rattle.semantics.specs.Words.{word};
ghost use Rattle.semantics.specs.Bare.{read_step, malloc_step, copy_step};
ghost use Rattle.bare_steps.specs.Answers.{full, state_of, Finishes, Tells, Assigns};

use moves::move_words;
use words::clear_part;

// The memory of a run: its values, and U, the first word that is unused. It is lent on, so that it travels through evaluation as one pointer.
#[derive(Drop)]
pub struct Memory<'a> {
    pub values: &'a mut [u32],
    pub unused: u32,
}

// The results of steps and of evaluation: below 2^32 a value or a place, else how evaluation ended: with no room, or at word 0 or a word
// outside the memory. They are one number, which goes in a register: an enum would go by a pointer, five more instructions for each node.
pub const FULL: u64 = 4294967296;

pub const STUCK: u64 = 4294967297;

// How the evaluation of a command ended before it was done.
#[derive(Clone, Copy)]
pub enum Halt {
    NoRoom,
    Stuck,
}

// The value or the place that this result is.
pub fn number(r: u64) -> Result<u32, Halt>
    ensures { Tells r result }
{
    if r < FULL {
        return Ok(r as u32);
    }
    if r == FULL {
        return Err(Halt::NoRoom);
    }
    Err(Halt::Stuck)
}

// Whether k words from w on are in a memory of len words, and none of them is word 0.
fn has_words(len: u64, w: u64, k: u64) -> bool
    requires { (w < full) × (k < full) }
    ensures { result ≡ (ltb 0 w && leb (w + k) len) }
{
    w != 0 && w + k <= len
}

impl Memory<'_> {
    // The value of variable i.
    pub fn variable(&self, i: usize) -> u64
        requires { 1 + i < length self.now.values.now }
        ensures { (result ≡ word self.now.values.now (1 + i)) × (result < full) }
    {
        self.values[1 + i] as u64
    }

    // The word at a place.
    pub fn load(&self, at: u64) -> u64
        requires { length self.now.values.now ≤ 65536 }
        ensures { Finishes read_step (state_of self.now) at (state_of self.now) result }
    {
        if at == 0 {
            return STUCK;
        }
        if at < self.values.len() as u64 {
            return self.values[at as usize] as u64;
        }
        if FULL <= at {
            return at;
        }
        STUCK
    }

    // Stores a value at a place.
    pub fn store(&mut self, at: u32, v: u32) -> Result<(), Halt>
        ensures stored { Assigns at v (state_of self.old) result (state_of self.new) }
        ensures same_list { self.new.values.ghost_name ≡ self.old.values.ghost_name }
    {
        if at == 0 {
            return Err(Halt::Stuck);
        }
        if self.values.len() <= at as usize {
            return Err(Halt::Stuck);
        }
        self.values[at as usize] = v;
        Ok(())
    }

    // A block of v words at U. They are cleared: the run may have written there.
    pub fn allocate(&mut self, v: u64) -> u64
        requires { length self.old.values.now ≤ 65536 }
        ensures finishes { Finishes malloc_step (state_of self.old) v (state_of self.new) result }
        ensures same_list { self.new.values.ghost_name ≡ self.old.values.ghost_name }
    {
        if FULL <= v {
            return v;
        }
        if v == 0 {
            return 0;
        }
        let start = self.unused;
        let top = start as u64 + v;
        if (self.values.len() as u64) < top {
            return FULL;
        }
        clear_part(self.values, start as usize, top as usize);
        self.unused = top as u32;
        start as u64
    }

    // A copy of k words to one place from another, `from`.
    pub fn copy(&mut self, to: u64, k: u32, from: u64) -> u64
        requires { (1 ≤ k) × (to < full) }
        ensures finishes { Finishes (copy_step k to) (state_of self.old) from (state_of self.new) result }
        ensures same_unused { self.new.unused ≡ self.old.unused }
        ensures same_list { self.new.values.ghost_name ≡ self.old.values.ghost_name }
    {
        if FULL <= from {
            return from;
        }
        let many = k as u64;
        let len = self.values.len() as u64;
        if !has_words(len, from, many) {
            return STUCK;
        }
        if !has_words(len, to, many) {
            return STUCK;
        }
        move_words(self.values, to as usize, from as usize, k as usize);
        many
    }
}
