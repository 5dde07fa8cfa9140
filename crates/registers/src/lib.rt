// The registers that a call hands in: the check of their list, and the memory that they are at the start of a run.
#![tactic(auto)]

ghost use Rattle.std.specs.Prelude.{◌+◌, ◌-◌, ◌≤◌, ◌<◌, ◌^◌, ◌≡◌, length};
ghost use Rattle.std.specs.Iterator.{at_most};
ghost use Rattle.semantics.specs.Words.{word};
ghost use Rattle.semantics.specs.Table.{count};
ghost use Rattle.semantics.specs.Registers.{register_count, register_place};
ghost use Rattle.semantics.specs.Check.{each, extent_fault, names_pointer, name_fault, room_fault, registers_fault};
ghost use Rattle.semantics.proofs.Registers.{Whole};
ghost use Rattle.layout.specs.Layout.{Stands};
ghost use Rattle.layout.specs.Refusals.{verdict_of};
ghost use Rattle.registers.specs.Walk.{next_register};
ghost use Rattle.registers.specs.Blocks.{RegisterSet, RegistersSet, Fits, AllFit, RegisterOf, RegisterPlaced, RegistersPlaced, Placeable, AllPlaceable};

use layout::{Fault, Refusal, Section, Table, of_type, require};
use words::store_all;

// A register of a list: its number, where it stands, the variable that it is handed to, and how many words it has.
#[derive(Clone, Copy)]
pub struct Register {
    pub number: u32,
    pub place: usize,
    pub variable: u32,
    pub length: u32,
}

// The registers of a whole list in turn: `index` of them have come, and the next one stands at place `at`.
#[derive(Drop)]
pub struct Registers<'a> {
    pub list: &'a [u32],
    pub index: u32,
    pub at: usize,
    ghost stands: { Whole list.now × (index ≤ register_count list.now) × (at ≡ register_place list.now index) },
}

impl<'a> Registers<'a> {
    pub fn of(list: &'a [u32]) -> Registers<'a>
        requires { Whole list.now }
        ensures { (result.list.now ≡ list.now) × (result.index ≡ 0) }
    {
        Registers {
            list,
            index: 0,
            at: 1,
        }
    }
}

impl<'a> Iterator for Registers<'a> {
    type Item = Register;

    ghost next_gives = { λ s r t. next_register s.list.now s.index r t.list.now t.index };

    ghost remaining = { λ s. at_most (register_count s.list.now - s.index) };

    fn next(&mut self) -> Option<Register> {
        if self.index == self.list[0] {
            return None;
        }
        let number = self.index;
        let place = self.at;
        let variable = self.list[place];
        let length = self.list[place + 1];
        self.index += 1;
        self.at = place + 2 + length as usize;
        Some(Register {
            number,
            place,
            variable,
            length,
        })
    }
}

// The most registers of a list.
const MOST: u32 = 16;

// Where the register at place p ends, and the next one stands. A length that is missing counts as 0: its register then ends past the list.
fn register_end(list: &[u32], p: usize) -> usize
    requires { p ≤ length list.now }
    ensures { result ≡ p + 2 + word list.now (p + 1) }
{
    let length = list.get(p + 1).copied().unwrap_or(0);
    p + 2 + length as usize
}

// Refuses a list of more than 16 registers, one that is cut short and one with words over.
fn check_extent(list: &[u32]) -> Result<(), Refusal>
    ensures { verdict_of result ≡ extent_fault list.now }
{
    let n = list.len();
    require(0 < n, Fault::RegisterList, 0)?;
    let count = list[0];
    require(count <= MOST, Fault::RegisterList, 0)?;
    // By place, not as a walk over `Registers`: the list may be cut short.
    let mut p = 1;
    for i in 0..count {
        p = register_end(list, p);
        require(p <= n, Fault::RegisterList, n)?;
    }
    require(n <= p, Fault::RegisterList, p)
}

// Variable v is known and a pointer.
fn names_pointer(t: &[u32], variables: Section, v: u32) -> bool
    requires { Stands t.now 3 variables }
    ensures { result ≡ names_pointer t.now v }
{
    let i = v as usize;
    i < variables.count && of_type::VOID <= t[variables.at + i]
}

// Refuses the first register whose variable is unknown, no pointer or named before.
fn check_names(t: &[u32], variables: Section, list: &[u32]) -> Result<(), Refusal>
    requires { (Stands t.now 3 variables) × (Whole list.now) }
    ensures { verdict_of result ≡ each (register_count list.now) (name_fault t.now list.now) }
{
    // Whether an earlier register names a variable.
    let mut named = [false; Table::VARIABLES];
    for register in Registers::of(list) {
        let v = register.variable;
        let known = names_pointer(t, variables, v);
        require(known, Fault::RegisterVariable, register.place)?;
        let k = v as usize;
        require(!named[k], Fault::RegisterVariable, register.place)?;
        named[k] = true;
    }
    Ok(())
}

// Refuses the first register that does not fit in `memory` words, if the first one begins at word `first`.
fn check_room(list: &[u32], first: usize, memory: usize) -> Result<(), Refusal>
    requires { (Whole list.now) × (first ≤ memory) × (memory ≤ 65536) }
    ensures { verdict_of result ≡ each (register_count list.now) (room_fault first list.now memory) }
{
    let mut end = first;
    for register in Registers::of(list) {
        end += register.length as usize;
        require(end <= memory, Fault::RegisterRoom, register.place + 1)?;
    }
    Ok(())
}

// The whole list, then the variables of all registers, then their room, for a table with these variables and lists of `memory` words.
pub fn check_registers(
    t: &[u32],
    variables: Section,
    list: &[u32],
    memory: usize,
) -> Result<(), Refusal>
    requires { (Stands t.now 3 variables) × (count t.now 3 + 1 ≤ memory) × (memory ≤ 65536) }
    ensures { verdict_of result ≡ registers_fault t.now list.now memory }
{
    check_extent(list)?;
    check_names(t, variables, list)?;
    check_room(list, variables.count + 1, memory)
}

// The register at place p becomes a block at word `at`, and its variable points to it. Answers the first word after it.
fn set_register(
    list: &[u32],
    p: usize,
    at: u32,
    values: &mut [u32],
    bases: &mut [u32],
    ends: &mut [u32],
) -> u32
    requires { Fits list.now p at values.old bases.old ends.old }
    ensures { RegisterSet list.now p values.old bases.old ends.old at values.new bases.new ends.new result }
{
    let word = 1 + list[p] as usize;
    let n = list[p + 1];
    if n == 0 {
        values[word] = 0;
        bases[word] = 0;
        ends[word] = 0;
        return at;
    }
    let from = p + 2;
    let to = from + n as usize;
    store_all(values, at as usize, &list[from..to]);
    values[word] = at;
    bases[word] = at;
    ends[word] = at + n;
    at + n
}

// The registers become blocks from word `first` on, in order. Answers the first word after the last.
pub fn set_registers(
    list: &[u32],
    first: u32,
    values: &mut [u32],
    bases: &mut [u32],
    ends: &mut [u32],
) -> u32
    requires { AllFit list.now first values.old bases.old ends.old }
    ensures { RegistersSet list.now (register_count list.now) values.old bases.old ends.old first values.new bases.new ends.new result }
{
    let mut at = first;
    for register in Registers::of(list) {
        at = set_register(list, register.place, at, values, bases, ends);
    }
    at
}

// The register at place p becomes a block at word `start` of a memory without bounds, and its variable points to it. Answers the first word after it.
// Apart from `set_register`: there is nothing to say of bases and ends here, and no word has to be clear beforehand.
fn place_register(list: &[u32], p: usize, start: u32, values: &mut [u32]) -> u32
    requires { Placeable list.now p start values.old }
    ensures { RegisterPlaced list.now p values.old start values.new result }
{
    let word = 1 + list[p] as usize;
    let n = list[p + 1];
    if n == 0 {
        values[word] = 0;
        return start;
    }
    let from = p + 2;
    let to = from + n as usize;
    store_all(values, start as usize, &list[from..to]);
    values[word] = start;
    start + n
}

// The registers become blocks of a memory without bounds, from word `first` on, in order. Answers the first word after the last.
pub fn place_registers(list: &[u32], first: u32, values: &mut [u32]) -> u32
    requires { AllPlaceable list.now first values.old }
    ensures { RegistersPlaced list.now (register_count list.now) values.old first values.new result }
{
    let mut at = first;
    for register in Registers::of(list) {
        at = place_register(list, register.place, at, values);
    }
    at
}

// The first word of the register that has word w, if the first register begins at word `first`; none where w is past the last.
pub fn start_of(list: &[u32], first: usize, w: usize) -> Option<u32>
    requires { (Whole list.now) × (first ≤ w) × (w < 2 ^ 32) }
    ensures { RegisterOf list.now first w result }
{
    let mut at = first;
    for register in Registers::of(list) {
        let end = at + register.length as usize;
        if w < end {
            return Some(at as u32);
        }
        at = end;
    }
    None
}
