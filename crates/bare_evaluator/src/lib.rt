// Evaluation of places and values without bounds. As in `evaluator`, the nodes are read as they stand in the table, with one match on the kind in
// `place` and one in `value`, and no call is made for a constant or a variable that is read.
#![tactic(auto)]

ghost use Rattle.std.specs.Prelude.{◌≡◌};
ghost use Rattle.lookups.specs.Nodes.{ReadsVariable};
ghost use Rattle.bare_steps.specs.Answers.{state_of};
ghost use Rattle.bare_evaluator.specs.Result.{PlaceReady, ValueReady, PlaceAnswered, ValueAnswered};

use bare_steps::{FULL, Memory};
use layout::kind;
use lookups::{A, B, KIND, Lists, is_constant, of_variable};
use steps::add;

// The value of node n, which reads a variable.
fn read_variable(l: &Lists, m: &Memory, n: usize) -> u64
    requires ready { ValueReady l.now (state_of m.now) n }
    requires reads { ReadsVariable l.now n }
    ensures { ValueAnswered l.now (state_of m.now) n result (state_of m.now) }
{
    let c = l.child(n, A);
    m.variable(l.child(c, A))
}

// The place that node n is.
#[cycle(place_value)]
pub fn place(l: &Lists, m: &mut Memory, n: usize) -> u64
    requires { PlaceReady l.now (state_of m.old) n }
    ensures answered { PlaceAnswered l.now (state_of m.old) n result (state_of m.new) }
    ensures same_list { m.new.values.ghost_name ≡ m.old.values.ghost_name }
{
    match l.item(n, KIND) {
        kind::VARIABLE => l.item(n, A) as u64 + 1,
        kind::DEREF => {
            let c = l.child(n, A);
            if of_variable(l.noted(c)) {
                return read_variable(l, m, c);
            }
            value(l, m, c)
        }
        _ => {
            let c = l.child(n, A);
            let v = if of_variable(l.noted(c)) {
                read_variable(l, m, c)
            } else {
                value(l, m, c)
            };
            if FULL <= v {
                return v;
            }
            add(v, 1, l.offset(n) as u64)
        }
    }
}

// The value that node n has.
#[cycle(place_value)]
pub fn value(l: &Lists, m: &mut Memory, n: usize) -> u64
    requires { ValueReady l.now (state_of m.old) n }
    ensures answered { ValueAnswered l.now (state_of m.old) n result (state_of m.new) }
    ensures same_list { m.new.values.ghost_name ≡ m.old.values.ghost_name }
{
    match l.item(n, KIND) {
        kind::CONSTANT => l.item(n, A) as u64,
        kind::SUM => {
            let c = l.child(n, A);
            let v = if of_variable(l.noted(c)) {
                read_variable(l, m, c)
            } else {
                value(l, m, c)
            };
            if FULL <= v {
                return v;
            }
            // The child's number is read again: kept over the call, it would be one register more for every call to save.
            let by = l.step(l.type_of(l.child(n, A)));
            let d = l.child(n, B);
            if is_constant(l.noted(d)) {
                return add(v, by, l.item(d, A) as u64);
            }
            let w = value(l, m, d);
            if FULL <= w {
                return w;
            }
            add(v, by, w)
        }
        kind::READ => {
            let c = l.child(n, A);
            if of_variable(l.noted(c)) {
                return read_variable(l, m, n);
            }
            let at = place(l, m, c);
            m.load(at)
        }
        kind::ADDRESS => place(l, m, l.child(n, A)),
        kind::CAST => value(l, m, l.child(n, A)),
        kind::SIZE => l.size_of(l.item(n, A)) as u64,
        // An allocation or a copy. A copy's left operand is no constant: an allocation of a constant is not asked which of both it is.
        _ => {
            let c = l.child(n, A);
            if is_constant(l.noted(c)) {
                return m.allocate(l.item(c, A) as u64);
            }
            let v = value(l, m, c);
            if l.item(n, KIND) == kind::MALLOC {
                return m.allocate(v);
            }
            if FULL <= v {
                return v;
            }
            // The words of the record: 1 moves a pointer to it by as many.
            let k = l.step(l.type_of(l.child(n, A)));
            let w = value(l, m, l.child(n, B));
            m.copy(v, k, w)
        }
    }
}

// The value that a command assigns, node n.
pub fn result(l: &Lists, m: &mut Memory, n: usize) -> u64
    requires { ValueReady l.now (state_of m.old) n }
    ensures answered { ValueAnswered l.now (state_of m.old) n result (state_of m.new) }
    ensures same_list { m.new.values.ghost_name ≡ m.old.values.ghost_name }
{
    let x = l.noted(n);
    if is_constant(x) {
        return l.item(n, A) as u64;
    }
    if of_variable(x) {
        return read_variable(l, m, n);
    }
    value(l, m, n)
}

// The place that a command assigns to, node n: for a variable its word, with no more work.
pub fn assigned(l: &Lists, m: &mut Memory, n: usize) -> u64
    requires { PlaceReady l.now (state_of m.old) n }
    ensures answered { PlaceAnswered l.now (state_of m.old) n result (state_of m.new) }
    ensures same_list { m.new.values.ghost_name ≡ m.old.values.ghost_name }
{
    if of_variable(l.noted(n)) {
        return l.item(n, A) as u64 + 1;
    }
    place(l, m, n)
}
