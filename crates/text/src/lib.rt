// Texts of decimal numbers: a scanner that reads one in chunks, and a writer.
#![tactic(auto)]

ghost use Rattle.std.specs.Prelude.{◌≡◌, ℕ, true, ◌+◌, ◌%◌, List, [], length};
ghost use Rattle.text.specs.Numbers.{separator, digit};
ghost use Rattle.text.specs.Scan.{fresh, held, longer, value_in, take_digit, take_byte, Scanned, Scans, Finishes};
ghost use Rattle.text.specs.Decimal.{decimal, PutsIn, Written};

// What the next byte of a text goes on from.
#[derive(Clone, Copy, PartialEq, Eq)]
pub enum State {
    // A separator, or the text's start.
    Between,
    // Digits of this value.
    Within(u32),
    // The text is malformed, or has more numbers than there is room for.
    Bad,
}

// How far a text has been read: how many numbers have ended, and the number in progress.
#[derive(Clone, Copy)]
pub struct Scanner {
    pub count: usize,
    pub state: State,
}

#[tactic(auto, unfolding(crate::specs::Numbers::digit))]
fn is_digit(b: u8) -> bool
    ensures { result ≡ digit b }
{
    b'0' <= b && b <= b'9'
}

#[tactic(auto, unfolding(crate::specs::Numbers::separator))]
fn is_separator(b: u8) -> bool
    ensures { result ≡ separator b }
{
    b == b' ' || b == b'\n'
}

impl Scanner {
    // The largest number of a text.
    const MAX: u64 = 4294967295;

    // Before the first byte of a text.
    pub fn new() -> Scanner
        ensures does { result ≡ fresh }
        ensures meets { (list : List ℕ) → Scanned [] list result }
    {
        Scanner {
            count: 0,
            state: State::Between,
        }
    }

    fn bad() -> Scanner
        ensures { result ≡ Rattle.text.specs.Scan.bad }
    {
        Scanner {
            count: 0,
            state: State::Bad,
        }
    }

    // After a digit, where the digits before it have a value.
    fn longer(count: usize, value: u32, b: u8) -> Scanner
        requires { digit b ≡ true }
        ensures { result ≡ longer count value b }
    {
        let value = 10 * value as u64 + (b - b'0') as u64;
        if Scanner::MAX < value {
            return Scanner::bad();
        }
        Scanner {
            count,
            state: State::Within(value as u32),
        }
    }

    // The value of the digits since the last separator; None if the text is malformed.
    #[tactic(auto, unfolding(crate::specs::Scan::value_in))]
    fn value(self) -> Option<u32>
        ensures { result ≡ value_in self.state }
    {
        match self.state {
            State::Within(value) => Some(value),
            State::Between => Some(0),
            State::Bad => None,
        }
    }

    // After a digit.
    fn take_digit(self, b: u8) -> Scanner
        requires { digit b ≡ true }
        ensures { result ≡ take_digit b self }
    {
        match self.value() {
            Some(value) => Scanner::longer(self.count, value, b),
            None => Scanner::bad(),
        }
    }
}

// Most bytes are digits, so that these are told first.
fn take_byte(numbers: &mut [u32], s: Scanner, b: u8) -> Scanner
    ensures { held result numbers.new ≡ take_byte b (held s numbers.old) }
{
    if is_digit(b) {
        return s.take_digit(b);
    }
    if is_separator(b) {
        return finish(numbers, s);
    }
    Scanner::bad()
}

// Takes the next bytes of a text; the numbers that end in them are stored.
pub fn scan(chunk: &[u8], numbers: &mut [u32], s: Scanner) -> Scanner
    ensures { Scans chunk.now s numbers.old result numbers.new }
{
    let mut s = s;
    for b in chunk {
        s = take_byte(numbers, s, *b);
    }
    s
}

// Ends the number in progress, if there is one, and so the text.
pub fn finish(numbers: &mut [u32], s: Scanner) -> Scanner
    ensures { Finishes s numbers.old result numbers.new }
{
    let State::Within(value) = s.state else {
        return s;
    };
    if numbers.len() <= s.count {
        return Scanner::bad();
    }
    numbers[s.count] = value;
    Scanner {
        count: s.count + 1,
        state: State::Between,
    }
}

// Bytes that are to be printed: they stand in `bytes` before `at`, the next free place. Numbers and words are put by methods and not by `write!`: no contract
// tells what bytes a `Display` writes, and these do.
#[derive(Drop)]
pub struct Output<'a> {
    pub bytes: &'a mut [u8],
    pub at: usize,
}

impl<'a> Output<'a> {
    // Nothing is to be printed.
    pub fn new(bytes: &'a mut [u8]) -> Output<'a>
        ensures same_bytes { result.bytes.ghost_name ≡ bytes.entry.ghost_name }
        ensures value { result.bytes.now ≡ bytes.old }
        ensures start { result.at ≡ 0 }
    {
        Output { bytes, at: 0 }
    }

    // Puts some bytes at the next free place, if there is room for them.
    pub fn put_bytes(&mut self, bytes: &[u8])
        ensures { PutsIn (length bytes.now) bytes.now self.old self.new }
    {
        let room = self.bytes.len();
        if room < self.at || room - self.at < bytes.len() {
            return;
        }
        // Most pieces are one byte between two numbers: a store, where a copy is a call of the C library.
        if let [b] = bytes {
            self.bytes[self.at] = *b;
            self.at += 1;
            return;
        }
        let end = self.at + bytes.len();
        self.bytes[self.at..end].copy_from_slice(bytes);
        self.at = end;
    }

    // Puts x in decimal, if there is room for 20 bytes.
    pub fn put_number(&mut self, x: u64)
        ensures { PutsIn 20 (decimal x) self.old self.new }
    {
        let room = self.bytes.len();
        if room < self.at || room - self.at < 20 {
            return;
        }
        let mut digits = [48u8; 20];
        let start = write_digits(x, &mut digits);
        self.put_bytes(&digits[start..]);
    }
}

fn last_digit(x: u64) -> u8
    ensures { result ≡ 48 + x % 10 }
{
    b'0' + (x % 10) as u8
}

// Writes the digits of x to the end of `digits`, and answers where they start.
fn write_digits(x: u64, digits: &mut [u8; 20]) -> usize
    ensures { Written x digits.new result }
{
    let mut y = x;
    for i in (0..20).rev() {
        digits[i] = last_digit(y);
        y = y / 10;
        if y == 0 {
            return i;
        }
    }
    0
}
