// The steps of evaluation: what is answered for one node from what its child answered.
// A result is one number, below 2^32 a value or a place, else how evaluation ended. Beside it are slots: base and end of what was worked out,
// U, where a check was not passed that check, and which block has a word that is watched for.
#![tactic(auto)]

ghost use Rattle.std.specs.Prelude.{◌≡◌, ◌+◌, ◌*◌, ◌%◌, ◌^◌, ◌<◌, ◌≤◌, true, [], length};
ghost use Rattle.semantics.specs.Table.{is_pointer};
ghost use Rattle.semantics.specs.Rules.{Datum, unbounded, variable_location, words_left, contents, bounds_from};
ghost use Rattle.steps.specs.Answers.{failed, state_of, SameLists, DatumIs, LocationIs, Bounded, Given, Told, Tells, Says, Reserved, Moved, Inside, DerefFinishes, FieldFinishes, SumFinishes, LoadFinishes, CastFinishes, MallocFinishes, CopyFinishes};

use moves::move_words;

// The memory: its values, its bases and its ends.
#[derive(Drop)]
pub struct Memory<'a> {
    pub values: &'a mut [u32],
    pub bases: &'a mut [u32],
    pub ends: &'a mut [u32],
}

// What stands beside a result: base and end of what was worked out, and U; of a check that was not passed its node, the place and the number of
// words wanted; up to where words are handed out as a matter of course, and the start of the block that has the word watched for, or 0.
#[derive(Clone, Copy, Default)]
pub struct Slots {
    pub base: u32,
    pub end: u32,
    pub unused: u32,
    pub node: u32,
    pub place: u64,
    pub words: u32,
    pub limit: u32,
    pub found: u32,
}

// Where a copy goes, kept while its source is worked out: base, end and value of the pointer, and the copy's node.
#[derive(Clone, Copy)]
pub struct Target {
    pub base: u32,
    pub end: u32,
    pub value: u32,
    pub node: u32,
}

// A check that was not passed: its node, the place and the number of words wanted, and the bounds; and the start of the block that has the word
// watched for, or 0.
#[derive(Clone, Copy)]
pub struct FailedCheck {
    pub node: u32,
    pub place: u64,
    pub words: u32,
    pub base: u32,
    pub end: u32,
    pub block: u32,
}

// How evaluation ended: with a check that was not passed, or with no room. Numbers, since an enum as result goes through memory at each call.
pub const FAILED: u64 = 4294967296;

pub const FULL: u64 = 4294967297;

// How the evaluation of a command ended before it was done.
#[derive(Clone, Copy)]
pub enum Halt {
    Failed,
    NoRoom,
}

// What sums are taken modulo.
const MODULUS: u64 = 4294967296;

// The value or the place that this result is, which is below 2^32. As 64 bits: cut to 32 here, it costs each command four instructions more.
pub fn worked_out(r: u64) -> Result<u64, Halt>
    ensures { Says r result }
{
    if r < FAILED {
        Ok(r)
    } else if r == FAILED {
        Err(Halt::Failed)
    } else {
        Err(Halt::NoRoom)
    }
}

// How many words from w on lie within [base, end). Nothing is added, so nothing can wrap.
fn words_left(base: u32, end: u32, w: u64) -> u64
    ensures { result ≡ words_left base end w }
{
    if base as u64 <= w && w < end as u64 {
        end as u64 - w
    } else {
        0
    }
}

// v moved by w steps, modulo 2^32. The product is exact in 64 bits before it is cut.
pub fn add(v: u64, step: u32, w: u64) -> u64
    requires { (v < failed) × (w < failed) }
    ensures { (result ≡ (v + step * w) % 4294967296) × (result < failed) }
{
    let moved = (step as u64 * w % MODULUS) as u32;
    (v as u32).wrapping_add(moved) as u64
}

// The steps from `deref` on finish a node from what its child answered, v; where evaluation has ended, they pass that on, and the slots with it.
impl Slots {
    // Sets base and end.
    fn bound(&mut self, base: u32, end: u32)
        ensures { Bounded base end self.old self.new }
    {
        self.base = base;
        self.end = end;
    }

    // A number has no bounds.
    pub fn number(&mut self, x: u32) -> u64
        ensures { Given DatumIs (unbounded x) self.old result self.new }
    {
        self.bound(0, 0);
        x as u64
    }

    // A variable's word, with itself as bounds.
    pub fn variable(&mut self, i: u32) -> u64
        requires { i < 65536 }
        ensures { Given LocationIs (variable_location i) self.old result self.new }
    {
        let at = i + 1;
        self.bound(at, at + 1);
        at as u64
    }

    // The check of node n for k words from w on was not passed: it goes beside its bounds.
    fn fail(&mut self, n: usize, w: u64, k: u32) -> u64
        requires { n < 2 ^ 32 }
        ensures is_failed { result ≡ failed }
        ensures told { Told n w k self.old self.new }
    {
        *self = Slots {
            node: n as u32,
            place: w,
            words: k,
            ..*self
        };
        FAILED
    }

    // What the slots tell of it.
    pub fn failure(&self) -> FailedCheck
        ensures { Tells self.now result }
    {
        FailedCheck {
            node: self.node,
            place: self.place,
            words: self.words,
            base: self.base,
            end: self.end,
            block: self.found,
        }
    }

    // The place that a pointer points to, with the pointer's bounds.
    pub fn deref(&mut self, n: usize, v: u64) -> u64
        requires { n < 2 ^ 32 }
        ensures { (m : Memory) → DerefFinishes n m v self.old result self.new }
    {
        if FAILED <= v {
            return v;
        }
        if 1 <= words_left(self.base, self.end, v) {
            v
        } else {
            self.fail(n, v, 1)
        }
    }

    // The place of a field: all its words are checked, at least one, and its bounds are its own words.
    pub fn field(&mut self, n: usize, v: u64, offset: u32, count: u32) -> u64
        requires { (n < 2 ^ 32) × (1 ≤ count) }
        ensures { (m : Memory) → FieldFinishes n offset count m v self.old result self.new }
    {
        if FAILED <= v {
            return v;
        }
        let w = v + offset as u64;
        let k = count as u64;
        if k <= words_left(self.base, self.end, w) {
            self.bound(w as u32, (w + k) as u32);
            w
        } else {
            self.fail(n, w, count)
        }
    }

    // The bounds of a sum: those of the left operand, if its end isn't 0; else the right one's, which the slots have. That is edition 2's rule. In
    // edition 1 it comes to the left operand's in any case: the right one is an int, which has none.
    fn choose_bounds(&mut self, base: u32, end: u32)
        ensures { (p x : Datum) → p.base ≡ base → p.end ≡ end → x.base ≡ self.old.base → x.end ≡ self.old.end → Bounded (bounds_from true p x).base (bounds_from true p x).end self.old self.new }
    {
        if end != 0 {
            self.bound(base, end);
        }
    }

    // A sum from its right operand, w: the left one is v, with this base and this end.
    pub fn sum(&mut self, v: u64, base: u32, end: u32, step: u32, w: u64) -> u64
        requires { v < failed }
        ensures { (m : Memory) (p : Datum) → p.value ≡ v → p.base ≡ base → p.end ≡ end → SumFinishes step p m w self.old result self.new }
    {
        if FAILED <= w {
            w
        } else {
            self.choose_bounds(base, end);
            add(v, step, w)
        }
    }

    // A cast that drops bounds.
    pub fn drop_bounds(&mut self, v: u64) -> u64
        ensures { (m : Memory) → CastFinishes m v self.old result self.new }
    {
        if v < FAILED {
            self.bound(0, 0);
        }
        v
    }

    // Whether a memory of len words has room for a block from U up to `top`. One that ends past the limit, if there is room, has the word that is
    // watched for: its start is kept, and nothing is watched for any more.
    fn has_room(&mut self, top: u64, len: usize) -> bool
        requires { len < 2 ^ 32 }
        ensures { Reserved top len self.old self.new result }
    {
        if top <= self.limit as u64 {
            return true;
        }
        if top <= len as u64 {
            self.found = self.unused;
            self.limit = len as u32;
            return true;
        }
        false
    }

    // A block of v words at U, in a memory of len words.
    pub fn allocate(&mut self, v: u64, len: usize) -> u64
        requires { len < 2 ^ 32 }
        ensures { (m : Memory) → length m.values.now ≡ len → MallocFinishes m v self.old result self.new }
    {
        if FAILED <= v {
            return v;
        }
        if v == 0 {
            return self.number(0);
        }
        let u = self.unused;
        let top = u as u64 + v;
        if self.has_room(top, len) {
            self.bound(u, top as u32);
            self.unused = top as u32;
            u as u64
        } else {
            FULL
        }
    }
}

impl Memory<'_> {
    // How many words the memory has.
    pub fn words(&self) -> usize
        ensures { result ≡ length self.now.values.now }
    {
        self.values.len()
    }

    // What stands at word w, with its bounds unless `bounds` is 0.
    pub fn fetch(&self, w: usize, bounds: u32, s: &mut Slots) -> u64
        requires { Inside (w + 1) self.now }
        ensures { Given DatumIs (contents (is_pointer bounds) (state_of self.now 0 []) w) s.old result s.new }
    {
        let x = self.values[w];
        if bounds == 0 {
            s.number(x)
        } else {
            s.bound(self.bases[w], self.ends[w]);
            x as u64
        }
    }

    // The word at a place, with its bounds unless `bounds` is 0.
    pub fn load(&self, at: u64, bounds: u32, s: &mut Slots) -> u64
        requires { at < failed → Inside (at + 1) self.now }
        ensures { LoadFinishes bounds self.now at s.old result s.new }
    {
        if FAILED <= at {
            at
        } else {
            self.fetch(at as usize, bounds, s)
        }
    }

    // Moves n words of each of the three lists.
    fn move_all(&mut self, to: usize, from: usize, n: usize)
        requires to_inside { Inside (to + n) self.old }
        requires from_inside { Inside (from + n) self.old }
        ensures moved { Moved to from n self.old self.new }
        ensures same_lists { SameLists self.old self.new }
    {
        move_words(self.values, to, from, n);
        move_words(self.bases, to, from, n);
        move_words(self.ends, to, from, n);
    }

    // A copy of k words to the left operand, `to`, from the right one, w. The check of the left one comes first.
    pub fn copy(&mut self, to: &Target, k: u32, w: u64, s: &mut Slots) -> u64
        requires le_k { 1 ≤ k }
        requires to_inside { Inside to.now.end self.old }
        requires from_inside { w < failed → Inside s.old.end self.old }
        ensures finishes { (p : Datum) → p.value ≡ to.now.value → p.base ≡ to.now.base → p.end ≡ to.now.end → CopyFinishes to.now.node k p self.old w s.old result self.new s.new }
        ensures same_lists { SameLists self.old self.new }
    {
        if FAILED <= w {
            return w;
        }
        let many = k as u64;
        let v = to.value as u64;
        if words_left(to.base, to.end, v) < many {
            s.bound(to.base, to.end);
            return s.fail(to.node as usize, v, k);
        }
        if words_left(s.base, s.end, w) < many {
            return s.fail(to.node as usize, w, k);
        }
        self.move_all(v as usize, w as usize, k as usize);
        s.number(k)
    }
}
