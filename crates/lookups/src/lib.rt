// What is looked up in the lists of a table that has passed the check, `l`: words of its nodes, notes, fields, sizes and steps.
#![tactic(auto)]

ghost use Rattle.std.specs.Prelude.{◌≡◌, ◌+◌, ◌*◌, ◌≤◌, ◌<◌, ◌/◌, ◌%◌, eqb, length};
ghost use Rattle.semantics.specs.Words.{Words, word};
ghost use Rattle.semantics.specs.Table.{known_type, known_target, target, pointed_record, first_field, field_offset, field_count, size_of, node_a, node_b, node_type};
ghost use Rattle.semantics.specs.Syntax.{step_of};
ghost use Rattle.lookups.specs.Lists.{part, pointer_by_type, drops_bounds, FieldNode, FieldReady, KnownWord, KnownReady};

use layout::{Table, note, of_type};

// The lists of a table: its nodes, their notes, the targets of its pointers, its fields, the first field of each record, the size of each
// record, and the offset of each field. It is lent on, so that it travels through evaluation as one pointer.
#[derive(Clone, Copy)]
pub struct Lists<'a> {
    pub nodes: &'a [u32],
    pub notes: &'a [u32],
    pub targets: &'a [u32],
    pub fields: &'a [u32],
    pub firsts: &'a [u32],
    pub sizes: &'a [u32],
    pub offsets: &'a [u32],
}

// The words of a node.
pub const KIND: usize = 0;

pub const A: usize = 1;

pub const B: usize = 2;

// Not 0 where base and end go with the value: its type is a pointer's, or the table is of edition 2.
pub fn bounds_in(x: u32) -> u32
    ensures { result ≡ x % 256 }
{
    x % note::CONSTANT
}

// A note of a constant.
pub fn is_constant(x: u32) -> bool
    ensures { result ≡ eqb (x / 256 % 2) 1 }
{
    x / note::CONSTANT % 2 == 1
}

// A note of a variable, or of the read of one.
pub fn of_variable(x: u32) -> bool
    ensures { result ≡ eqb (x / 512 % 2) 1 }
{
    x / note::VARIABLE % 2 == 1
}

// A note of a pointer whose bounds go by its type, as in edition 1. In a byte, so that the compiler asks both with one test of its sign.
#[tactic(auto, unfolding(semantics::specs::Table::is_pointer))]
fn by_type(x: u32) -> bool
    ensures { result ≡ pointer_by_type x }
{
    let low = (x % note::CONSTANT) as u8;
    1 <= low && low < 128
}

impl Lists<'_> {
    // Word j of node n.
    pub fn item(&self, n: usize, j: usize) -> u32
        requires { (n < 512) × (j < 3) × (n * 3 + j < length self.now.nodes.now) }
        ensures { result ≡ part self.now n j }
    {
        self.nodes[n * 3 + j]
    }

    // The node or the number that word j of node n is.
    pub fn child(&self, n: usize, j: usize) -> usize
        requires { (n < 512) × (j < 3) × (n * 3 + j < length self.now.nodes.now) }
        ensures { result ≡ part self.now n j }
    {
        self.item(n, j) as usize
    }

    // What the check has noted of node n.
    pub fn noted(&self, n: usize) -> u32
        requires { (n < 512) × (n < length self.now.notes.now) }
        ensures { result ≡ word self.now.notes.now n }
    {
        self.notes[n]
    }

    // The type of node n.
    pub fn type_of(&self, n: usize) -> u32
        requires { (n < 512) × (n < length self.now.notes.now) }
        ensures { result ≡ word self.now.notes.now n % 128 }
    {
        self.noted(n) % note::BOUNDS
    }

    // Not 0 where base and end go with the value of node n.
    pub fn bounds_of(&self, n: usize) -> u32
        requires { (n < 512) × (n < length self.now.notes.now) }
        ensures { result ≡ word self.now.notes.now n % 256 }
    {
        bounds_in(self.noted(n))
    }

    // Whether node n, a cast, drops bounds: in edition 1 from pointer to int. Else they stay as they are, since an int has none there.
    #[tactic(auto, unfolding(semantics::specs::Table::is_pointer))]
    pub fn drops(&self, n: usize) -> bool
        requires { (n < 512) × (n * 3 + 2 < length self.now.nodes.now) × (part self.now n 1 < 512) × (part self.now n 1 < length self.now.notes.now) }
        ensures { result ≡ drops_bounds self.now n }
    {
        if self.item(n, B) != 0 {
            return false;
        }
        by_type(self.noted(self.child(n, A)))
    }

    // What this pointer type, an entry, points to.
    fn target(&self, of: u32) -> u32
        requires { (KnownReady known_type self.now of) × (2 ≤ of) }
        ensures { (t : Words) → KnownWord known_type t self.now of → result ≡ target t of }
    {
        self.targets[of as usize - of_type::ENTRY as usize]
    }

    // The record that the child of node n, a field, points to.
    fn record(&self, n: usize) -> usize
        requires { FieldReady self.now n }
        ensures { (t : Words) → FieldNode t self.now n → result ≡ pointed_record t (node_type t (node_a t n)) }
    {
        (self.target(self.type_of(self.child(n, A))) - Table::RECORD) as usize
    }

    // The number, among the fields of all records, of node n, a field.
    fn number(&self, n: usize) -> usize
        requires { FieldReady self.now n }
        ensures { (t : Words) → FieldNode t self.now n → result ≡ first_field t (pointed_record t (node_type t (node_a t n))) + node_b t n }
    {
        self.firsts[self.record(n)] as usize + self.child(n, B)
    }

    // How many words of the record stand before node n, a field.
    pub fn offset(&self, n: usize) -> u32
        requires { FieldReady self.now n }
        ensures { (t : Words) → FieldNode t self.now n → result ≡ field_offset t (pointed_record t (node_type t (node_a t n))) (node_b t n) }
    {
        self.offsets[self.number(n)]
    }

    // How many words node n, a field, has.
    pub fn count(&self, n: usize) -> u32
        requires { FieldReady self.now n }
        ensures { (t : Words) → FieldNode t self.now n → result ≡ field_count t (pointed_record t (node_type t (node_a t n))) (node_b t n) }
    {
        self.fields[2 * self.number(n) + 1]
    }

    // The words of a record, or of a type.
    pub fn size_of(&self, x: u32) -> u32
        requires { KnownReady known_target self.now x }
        ensures { (t : Words) → KnownWord known_target t self.now x → result ≡ size_of t x }
    {
        if x < Table::RECORD {
            return 1;
        }
        self.sizes[(x - Table::RECORD) as usize]
    }

    // The words by which 1 moves a value of this type: those of the record that it points to, else one.
    pub fn step(&self, of: u32) -> u32
        requires { KnownReady known_type self.now of }
        ensures { (t : Words) → KnownWord known_type t self.now of → result ≡ step_of t of }
    {
        if of < of_type::ENTRY {
            return 1;
        }
        self.size_of(self.target(of))
    }
}
