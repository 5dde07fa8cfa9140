// What the numbers of a text ask of the bench program.
#![tactic(auto)]

ghost use Rattle.request.specs.Request.{Requested};

use text::{Scanner, State};

// A run in memory of some length, of the table that starts at some place in the numbers.
#[derive(Clone, Copy)]
pub struct Request {
    pub memory: usize,
    pub from: usize,
}

impl Request {
    // The most words of memory, inputs, and words of a table.
    const MEMORY: u32 = 4096;

    const INPUTS: u32 = 64;

    const TABLE: usize = 2472;

    // The memory's length, the input count, the inputs, then the table, as a scanner that has finished a text has stored them. Other
    // numbers are no input.
    pub fn of(numbers: &[u32], s: Scanner) -> Option<Request>
        ensures { Requested numbers.now s result }
    {
        if let State::Bad = s.state {
            return None;
        }
        let count = s.count;
        if numbers.len() < count || count < 2 {
            return None;
        }
        let memory = numbers[0];
        let inputs = numbers[1];
        let from = 2 + inputs as usize;
        if Request::MEMORY < memory || Request::INPUTS < inputs {
            return None;
        }
        if count < from || Request::TABLE < count - from {
            return None;
        }
        Some(Request {
            memory: memory as usize,
            from,
        })
    }
}
