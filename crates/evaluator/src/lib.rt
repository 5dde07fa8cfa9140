// Evaluation of places and values: the nodes are read as they stand in the table, which has passed the check, whose lists are `l`.
// One match on the kind in `place` and one in `value`. Where the check has noted that no call is needed for a child, a constant or a variable
// that is read, none is made. A call is made for a child alone, so no more are open than nodes are on a path downwards: at most 512. So the
// short way to a child is written out where it is taken: as a function it would call `value` for the node that it was called for.
#![tactic(auto)]

ghost use Rattle.std.specs.Prelude.{◌+◌, ◌*◌, ◌<◌, length};
ghost use Rattle.semantics.specs.Words.{Words};
ghost use Rattle.semantics.specs.Table.{known_target, size_of};
ghost use Rattle.semantics.specs.Rules.{unbounded};
ghost use Rattle.steps.specs.Answers.{SameLists, DatumIs, Given};
ghost use Rattle.lookups.specs.Lists.{part, KnownWord, KnownReady};
ghost use Rattle.lookups.specs.Nodes.{ReadsVariable};
ghost use Rattle.evaluator.specs.Result.{PlaceReady, ValueReady, PlaceAnswered, ValueAnswered, AssignedAnswered};

use layout::kind;
use lookups::{A, B, KIND, Lists, bounds_in, is_constant, of_variable};
use steps::{FAILED, Memory, Slots, Target, add};

// The size that node n asks for, a number.
fn size(l: &Lists, n: usize, s: &mut Slots) -> u64
    requires n_bound { (n < 512) × (n * 3 + 1 < length l.now.nodes.now) }
    requires known_ready { KnownReady known_target l.now (part l.now n 1) }
    ensures { (t : Words) → KnownWord known_target t l.now (part l.now n 1) → Given DatumIs (unbounded (size_of t (part l.now n 1))) s.old result s.new }
{
    s.number(l.size_of(l.item(n, A)))
}

// The value of node n, which reads a variable.
fn read_variable(l: &Lists, m: &Memory, n: usize, s: &mut Slots) -> u64
    requires ready { ValueReady l.now m.now n s.old }
    requires reads_variable { ReadsVariable l.now n }
    ensures { ValueAnswered l.now m.now n s.old result m.now s.new }
{
    let c = l.child(n, A);
    m.fetch(l.child(c, A) + 1, l.bounds_of(c), s)
}

// The place that node n is, with its bounds.
#[cycle(place_value)]
pub fn place(l: &Lists, m: &mut Memory, n: usize, s: &mut Slots) -> u64
    requires { PlaceReady l.now m.old n s.old }
    ensures answered { PlaceAnswered l.now m.old n s.old result m.new s.new }
    ensures same_lists { SameLists m.old m.new }
{
    match l.item(n, KIND) {
        kind::VARIABLE => s.variable(l.item(n, A)),
        kind::DEREF => {
            let c = l.child(n, A);
            let v = if of_variable(l.noted(c)) {
                read_variable(l, m, c, s)
            } else {
                value(l, m, c, s)
            };
            s.deref(n, v)
        }
        _ => {
            let c = l.child(n, A);
            let v = if of_variable(l.noted(c)) {
                read_variable(l, m, c, s)
            } else {
                value(l, m, c, s)
            };
            s.field(n, v, l.offset(n), l.count(n))
        }
    }
}

// The value that node n has, with its bounds.
#[cycle(place_value)]
pub fn value(l: &Lists, m: &mut Memory, n: usize, s: &mut Slots) -> u64
    requires { ValueReady l.now m.old n s.old }
    ensures answered { ValueAnswered l.now m.old n s.old result m.new s.new }
    ensures same_lists { SameLists m.old m.new }
{
    match l.item(n, KIND) {
        kind::CONSTANT => s.number(l.item(n, A)),
        kind::SUM => {
            let c = l.child(n, A);
            let v = if of_variable(l.noted(c)) {
                read_variable(l, m, c, s)
            } else {
                value(l, m, c, s)
            };
            if FAILED <= v {
                return v;
            }
            // The child's number is read again: kept over the call, it would be one register more for every call to save.
            let by = l.step(l.type_of(l.child(n, A)));
            let d = l.child(n, B);
            if is_constant(l.noted(d)) {
                return add(v, by, l.item(d, A) as u64);
            }
            let base = s.base;
            let end = s.end;
            let w = value(l, m, d, s);
            s.sum(v, base, end, by, w)
        }
        kind::READ => {
            let c = l.child(n, A);
            let x = l.noted(c);
            if of_variable(x) {
                return read_variable(l, m, n, s);
            }
            let at = place(l, m, c, s);
            m.load(at, bounds_in(x), s)
        }
        kind::ADDRESS => place(l, m, l.child(n, A), s),
        kind::CAST => {
            let c = l.child(n, A);
            if l.drops(n) {
                let v = value(l, m, c, s);
                return s.drop_bounds(v);
            }
            value(l, m, c, s)
        }
        kind::SIZE => size(l, n, s),
        // An allocation or a copy. A copy's left operand is no constant: an allocation of a constant is not asked which of both it is.
        _ => {
            let c = l.child(n, A);
            if is_constant(l.noted(c)) {
                return s.allocate(l.item(c, A) as u64, m.words());
            }
            if l.item(n, KIND) == kind::MALLOC {
                let v = value(l, m, c, s);
                return s.allocate(v, m.words());
            }
            // In a struct that is lent: kept over the calls, these numbers would be more registers for every call to save.
            let mut to = Target {
                base: 0,
                end: 0,
                value: 0,
                node: n as u32,
            };
            let v = value(l, m, c, s);
            if FAILED <= v {
                return v;
            }
            to.base = s.base;
            to.end = s.end;
            to.value = v as u32;
            // The words of the record: 1 moves a pointer to it by as many.
            let k = l.step(l.type_of(l.child(n, A)));
            let d = l.child(n, B);
            if of_variable(l.noted(d)) {
                let w = read_variable(l, m, d, s);
                return m.copy(&to, k, w, s);
            }
            let w = value(l, m, d, s);
            m.copy(&to, k, w, s)
        }
    }
}

// The value that a command assigns, node n.
pub fn result(l: &Lists, m: &mut Memory, n: usize, s: &mut Slots) -> u64
    requires { ValueReady l.now m.old n s.old }
    ensures answered { ValueAnswered l.now m.old n s.old result m.new s.new }
    ensures same_lists { SameLists m.old m.new }
{
    let x = l.noted(n);
    if is_constant(x) {
        return s.number(l.item(n, A));
    }
    if of_variable(x) {
        return read_variable(l, m, n, s);
    }
    value(l, m, n, s)
}

// The place that a command assigns to, node n: for a variable its word, with no more work. Its bounds are not asked.
pub fn assigned(l: &Lists, m: &mut Memory, n: usize, s: &mut Slots) -> u64
    requires { PlaceReady l.now m.old n s.old }
    ensures answered { AssignedAnswered l.now m.old n s.old result m.new s.new }
    ensures same_lists { SameLists m.old m.new }
{
    if of_variable(l.noted(n)) {
        return l.item(n, A) as u64 + 1;
    }
    place(l, m, n, s)
}
