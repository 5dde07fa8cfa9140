// The check of one node: its verdict, its note, and its uses of other nodes.
// Parameters: `records` and `pointers` are counts; `targets` and `fields` are the places of the first pointer and the first field; `notes` has the
// notes of the nodes before it.
#![tactic(auto)]

ghost use Rattle.std.specs.Prelude.{◌≡◌, true, OnOk, [], ◌∷◌, ℕ, ◌+◌, ◌<◌, ◌≤◌, ◌^◌, ◌%◌, eqb, length};
ghost use Rattle.semantics.specs.Words.{Words, word};
ghost use Rattle.semantics.specs.Table.{count_place, count, target, deref, field, variable, constant, sum, read, address, cast, size, malloc, copy};
ghost use Rattle.semantics.specs.Check.{passes, require, ◌or_else◌, is_child};
ghost use Rattle.layout.specs.Layout.{Stands};
ghost use Rattle.layout.specs.Refusals.{verdict_of, outcome_of};
ghost use Rattle.layout.specs.Types.{Marks};
ghost use Rattle.nodes.specs.Nodes.{sort_named, read_bit, typed_kind, field_found};
ghost use Rattle.nodes.specs.Promises.{NotedTo, Placed, Reached, Reaches, TargetAt, FieldsAt, Lookups, typed_verdict, Small, Counted, Countable, CountableBoth, Room, Told, Noted};

use layout::{
    Entries, Fault, Firsts, Notes, Refusal, Section, Table, Uses, kind, note, of_type, require,
};

// What a node is to be where another names it.
#[derive(Clone, Copy)]
pub enum Sort {
    Value,
    Place,
}

// x is a node below n of the sort wanted.
pub fn is_child(notes: &Notes, n: usize, x: u32, wanted: Sort) -> bool
    requires { n ≤ 512 }
    ensures below { result ≡ true → x < n }
    ensures sorted { (t : Words) → NotedTo t notes.now n → result ≡ is_child t (sort_named wanted) n x }
{
    let i = x as usize;
    if n <= i {
        return false;
    }
    match wanted {
        Sort::Value => notes[i] < note::PLACE,
        Sort::Place => note::PLACE <= notes[i],
    }
}

// The type in a note.
pub fn type_of(notes: &Notes, x: u32) -> u32
    requires { x < 512 }
    ensures { result ≡ word notes.now x % 128 }
{
    notes[x as usize] % note::BOUNDS
}

// The target of a pointer entry's type.
fn target(t: &[u32], targets: usize, ty: u32) -> u32
    requires { TargetAt t.now targets ty }
    ensures { result ≡ target t.now ty }
{
    t[targets + (ty as usize - of_type::ENTRY as usize)]
}

// The type of field b of record r, or that it has none, for a node at this place.
fn record_field(
    t: &[u32],
    first: &Firsts,
    fields: usize,
    r: usize,
    place: usize,
    b: u32,
) -> Result<u32, Refusal>
    requires { (FieldsAt t.now first.now fields) × (r < count t.now 0) }
    ensures { outcome_of result ≡ field_found t.now r b place }
{
    let f = first[r] as usize + b as usize;
    require(f < first[r + 1] as usize, Fault::Types, place)?;
    Ok(t[fields + 2 * f])
}

// A node: its number, the place of its kind, and the two words after it.
#[derive(Clone, Copy)]
struct Node {
    n: usize,
    place: usize,
    a: u32,
    b: u32,
    ghost few: { n < 512 },
    ghost room: { place + 2 < 2 ^ 64 },
}

// Each of the methods checks a node of one kind: its two other words, then its types. They are named as the rules are: `deref` is document 01's
// follow, `malloc` its obtain.
impl Node {
    // Word a is a child of the sort wanted, and word b is 0.
    fn only_child(&self, notes: &Notes, wanted: Sort) -> Result<(), Refusal>
        ensures below { OnOk result (self.now.a < self.now.n) }
        ensures faults { (t : Words) → NotedTo t notes.now self.now.n → verdict_of result ≡ require (is_child t (sort_named wanted) self.now.n self.now.a) 7 (self.now.place + 1) or_else require (eqb self.now.b 0) 7 (self.now.place + 2) }
    {
        require(
            is_child(notes, self.n, self.a, wanted),
            Fault::Operand,
            self.place + 1,
        )?;
        require(self.b == 0, Fault::Operand, self.place + 2)
    }

    fn variable(&self, t: &[u32], variables: Section) -> Result<u32, Refusal>
        requires { Stands t.now 3 variables }
        ensures { Placed t.now self.now.n self.now.place → outcome_of result ≡ typed_kind t.now self.now.n variable self.now.a self.now.b }
    {
        let i = self.a as usize;
        require(i < variables.count, Fault::Operand, self.place + 1)?;
        require(self.b == 0, Fault::Operand, self.place + 2)?;
        Ok(t[variables.at + i])
    }

    fn deref(&self, t: &[u32], notes: &Notes, targets: usize) -> Result<u32, Refusal>
        requires { (Reached t.now notes.now self.now.n self.now.place) × (targets ≡ count_place t.now 2 + 1) }
        ensures { outcome_of result ≡ typed_kind t.now self.now.n deref self.now.a self.now.b }
    {
        self.only_child(notes, Sort::Value)?;
        let pointer = type_of(notes, self.a);
        require(of_type::ENTRY <= pointer, Fault::Types, self.place)?;
        let ty = target(t, targets, pointer);
        require(ty < Table::RECORD, Fault::Types, self.place)?;
        Ok(ty)
    }

    fn field(
        &self,
        t: &[u32],
        notes: &Notes,
        first: &Firsts,
        fields: usize,
        targets: usize,
    ) -> Result<u32, Refusal>
        requires { (Reached t.now notes.now self.now.n self.now.place) × (targets ≡ count_place t.now 2 + 1) × (FieldsAt t.now first.now fields) }
        ensures { outcome_of result ≡ typed_kind t.now self.now.n field self.now.a self.now.b }
    {
        require(
            is_child(notes, self.n, self.a, Sort::Value),
            Fault::Operand,
            self.place + 1,
        )?;
        let pointer = type_of(notes, self.a);
        require(of_type::ENTRY <= pointer, Fault::Types, self.place)?;
        let pointed = target(t, targets, pointer);
        require(Table::RECORD <= pointed, Fault::Types, self.place)?;
        let record = (pointed - Table::RECORD) as usize;
        record_field(t, first, fields, record, self.place, self.b)
    }

    fn constant(&self) -> Result<u32, Refusal>
        ensures { (t : Words) → Placed t self.now.n self.now.place → outcome_of result ≡ typed_kind t self.now.n constant self.now.a self.now.b }
    {
        require(self.b == 0, Fault::Operand, self.place + 2)?;
        Ok(of_type::INT)
    }

    fn sum(&self, notes: &Notes) -> Result<u32, Refusal>
        ensures { (t : Words) → Reached t notes.now self.now.n self.now.place → outcome_of result ≡ typed_kind t self.now.n sum self.now.a self.now.b }
    {
        require(
            is_child(notes, self.n, self.a, Sort::Value),
            Fault::Operand,
            self.place + 1,
        )?;
        require(
            is_child(notes, self.n, self.b, Sort::Value),
            Fault::Operand,
            self.place + 2,
        )?;
        require(
            type_of(notes, self.b) == of_type::INT,
            Fault::Types,
            self.place,
        )?;
        Ok(type_of(notes, self.a))
    }

    fn read(&self, notes: &Notes) -> Result<u32, Refusal>
        ensures { (t : Words) → Reached t notes.now self.now.n self.now.place → outcome_of result ≡ typed_kind t self.now.n read self.now.a self.now.b }
    {
        self.only_child(notes, Sort::Place)?;
        Ok(type_of(notes, self.a))
    }

    fn address(&self, notes: &Notes, entry: &Entries) -> Result<u32, Refusal>
        requires { Reaches notes.now self.now.n self.now.place }
        ensures { (t : Words) → Reached t notes.now self.now.n self.now.place → Marks t entry.now (count t 2) → outcome_of result ≡ typed_kind t self.now.n address self.now.a self.now.b }
    {
        self.only_child(notes, Sort::Place)?;
        // 0 where no pointer entry has this target.
        let ty = entry[layout::target_slot(type_of(notes, self.a))];
        require(0 < ty, Fault::Types, self.place)?;
        Ok(ty)
    }

    fn cast(&self, notes: &Notes, pointers: usize) -> Result<u32, Refusal>
        requires { pointers ≤ 64 }
        ensures { (t : Words) → Reached t notes.now self.now.n self.now.place → pointers ≡ count t 2 → outcome_of result ≡ typed_kind t self.now.n cast self.now.a self.now.b }
    {
        require(
            is_child(notes, self.n, self.a, Sort::Value),
            Fault::Operand,
            self.place + 1,
        )?;
        require(
            layout::known_type(pointers, self.b),
            Fault::UnknownType,
            self.place + 2,
        )?;
        Ok(self.b)
    }

    fn size(&self, records: usize, pointers: usize) -> Result<u32, Refusal>
        requires { (records ≤ 32) × (pointers ≤ 64) }
        ensures { (t : Words) → records ≡ count t 0 → pointers ≡ count t 2 → Placed t self.now.n self.now.place → outcome_of result ≡ typed_kind t self.now.n size self.now.a self.now.b }
    {
        require(
            layout::known_target(records, pointers, self.a),
            Fault::UnknownType,
            self.place + 1,
        )?;
        require(self.b == 0, Fault::Operand, self.place + 2)?;
        Ok(of_type::INT)
    }

    fn malloc(&self, notes: &Notes) -> Result<u32, Refusal>
        ensures { (t : Words) → Reached t notes.now self.now.n self.now.place → outcome_of result ≡ typed_kind t self.now.n malloc self.now.a self.now.b }
    {
        self.only_child(notes, Sort::Value)?;
        require(
            type_of(notes, self.a) == of_type::INT,
            Fault::Types,
            self.place,
        )?;
        Ok(of_type::VOID)
    }

    // a and b point to the same record.
    fn copy(&self, t: &[u32], notes: &Notes, targets: usize) -> Result<u32, Refusal>
        requires { (Reached t.now notes.now self.now.n self.now.place) × (targets ≡ count_place t.now 2 + 1) }
        ensures { outcome_of result ≡ typed_kind t.now self.now.n copy self.now.a self.now.b }
    {
        require(
            is_child(notes, self.n, self.a, Sort::Value),
            Fault::Operand,
            self.place + 1,
        )?;
        require(
            is_child(notes, self.n, self.b, Sort::Value),
            Fault::Operand,
            self.place + 2,
        )?;
        let pointer = type_of(notes, self.a);
        require(of_type::ENTRY <= pointer, Fault::Types, self.place)?;
        require(
            Table::RECORD <= target(t, targets, pointer),
            Fault::Types,
            self.place,
        )?;
        require(pointer == type_of(notes, self.b), Fault::Types, self.place)?;
        Ok(of_type::INT)
    }
}

// Counts one more use of node x.
pub fn count_use(uses: &mut Uses, x: u32)
    requires { Countable uses.old x }
    ensures { Counted uses.old uses.new (x ∷ []) }
{
    let i = x as usize;
    uses[i] += 1;
}

// The methods below tell a node's answer. Where it has a type, they note it with the bits `mark` and count the uses of the node's children.
impl Node {
    fn enter(&self, x: Result<u32, Refusal>, notes: &mut Notes, mark: u32) -> Result<(), Refusal>
        requires small { Small x × (length notes.old ≡ 512) }
        requires mark_bound { mark ≤ 2048 }
        ensures { (used : Words) → Told x mark self.now.n [] result notes.old notes.new used used }
    {
        notes[self.n] = x? + mark;
        Ok(())
    }

    fn with_child(
        &self,
        x: Result<u32, Refusal>,
        notes: &mut Notes,
        uses: &mut Uses,
        mark: u32,
    ) -> Result<(), Refusal>
        requires small { Small x × (length notes.old ≡ 512) × (typed_verdict x ≡ passes → Countable uses.old self.now.a) }
        requires mark_bound { mark ≤ 2048 }
        ensures { Told x mark self.now.n (self.now.a ∷ []) result notes.old notes.new uses.old uses.new }
    {
        self.enter(x, notes, mark)?;
        count_use(uses, self.a);
        Ok(())
    }

    fn with_children(
        &self,
        x: Result<u32, Refusal>,
        notes: &mut Notes,
        uses: &mut Uses,
        mark: u32,
    ) -> Result<(), Refusal>
        requires small { Small x × (length notes.old ≡ 512) × (typed_verdict x ≡ passes → CountableBoth uses.old self.now.a self.now.b) }
        requires mark_bound { mark ≤ 2048 }
        ensures { Told x mark self.now.n (self.now.a ∷ self.now.b ∷ []) result notes.old notes.new uses.old uses.new }
    {
        self.with_child(x, notes, uses, mark)?;
        count_use(uses, self.b);
        Ok(())
    }

    // Only a read with a type has a place that is noted. The read's bit is that of a variable, if its place is one.
    fn with_read(
        &self,
        x: Result<u32, Refusal>,
        notes: &mut Notes,
        uses: &mut Uses,
    ) -> Result<(), Refusal>
        requires { Small x × (length notes.old ≡ 512) × (typed_verdict x ≡ passes → Countable uses.old self.now.a) }
        ensures { Told x (read_bit (word notes.old self.now.a)) self.now.n (self.now.a ∷ []) result notes.old notes.new uses.old uses.new }
    {
        let ty = x?;
        let mark = notes[self.a as usize] % note::PLACE / note::VARIABLE * note::VARIABLE;
        self.with_child(Ok(ty), notes, uses, mark)
    }
}

// Checks node n, whose kind stands at this place.
pub fn check_node(
    t: &[u32],
    l: &Table,
    first: &Firsts,
    entry: &Entries,
    notes: &mut Notes,
    uses: &mut Uses,
    n: usize,
    place: usize,
) -> Result<(), Refusal>
    requires { (Reached t.now notes.old n place) × (Lookups t.now first.now entry.now l.now) × (Room notes.old uses.old) }
    ensures { Noted t.now n result notes.old notes.new uses.old uses.new }
{
    let kind = t[place];
    let node = Node {
        n,
        place,
        a: t[place + 1],
        b: t[place + 2],
    };
    let targets = l.pointers.at;
    // Places are the kinds 1..=3, values 4..=11. Within a range all kinds are listed, so that the compiler tests the range only once. 0 is refused
    // beside the places: apart, it would be a test more for every node.
    match kind {
        0 | kind::VARIABLE..=kind::FIELD => match kind {
            kind::VARIABLE => {
                let x = node.variable(t, l.variables);
                node.enter(x, notes, note::PLACE + note::VARIABLE)
            }
            kind::DEREF => {
                let x = node.deref(t, notes, targets);
                node.with_child(x, notes, uses, note::PLACE)
            }
            kind::FIELD => {
                let x = node.field(t, notes, first, l.fields.at, targets);
                node.with_child(x, notes, uses, note::PLACE)
            }
            _ => Err(Refusal {
                fault: Fault::Operand,
                place,
            }),
        },
        kind::CONSTANT..=kind::COPY => match kind {
            kind::CONSTANT => node.enter(node.constant(), notes, note::CONSTANT),
            kind::SUM => {
                let x = node.sum(notes);
                node.with_children(x, notes, uses, note::VALUE)
            }
            kind::READ => {
                let x = node.read(notes);
                node.with_read(x, notes, uses)
            }
            kind::ADDRESS => {
                let x = node.address(notes, entry);
                node.with_child(x, notes, uses, note::VALUE)
            }
            kind::CAST => {
                let x = node.cast(notes, l.pointers.count);
                node.with_child(x, notes, uses, note::VALUE)
            }
            kind::SIZE => node.enter(
                node.size(l.records.count, l.pointers.count),
                notes,
                note::VALUE,
            ),
            kind::MALLOC => {
                let x = node.malloc(notes);
                node.with_child(x, notes, uses, note::VALUE)
            }
            kind::COPY => {
                let x = node.copy(t, notes, targets);
                node.with_children(x, notes, uses, note::VALUE)
            }
            _ => Err(Refusal {
                fault: Fault::Operand,
                place,
            }),
        },
        _ => Err(Refusal {
            fault: Fault::Operand,
            place,
        }),
    }
}
