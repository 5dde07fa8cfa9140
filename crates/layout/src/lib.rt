// The layout of a table, and the check of everything before its nodes: edition, sections, records, fields, pointers, variables.
#![tactic(auto)]

ghost use Rattle.std.specs.Prelude.{◌≡◌, true, false, OnOk, OnErr, ℕ, ◌+◌, ◌*◌, ◌≤◌, ◌<◌, length, replicate, get_or, []};
ghost use Rattle.semantics.specs.Words.{Words, word};
ghost use Rattle.semantics.specs.Table.{edition, count_place, count, entry_words, limits, known_type, known_target, first_field};
ghost use Rattle.semantics.specs.Check.{require, edition_fault, each, section_fault, record_fault, field_fault, pointer_fault, variable_fault};
ghost use Rattle.layout.specs.Refusals.{number_of, outcome_of, verdict_of};
ghost use Rattle.layout.specs.Layout.{edition_by, start_by, section_by, parsed, Stands, LaidOut};
ghost use Rattle.layout.specs.Lists.{filled, passed_below};
ghost use Rattle.layout.specs.Types.{types_fault, slot, Marks, Room, marked, first_left, entry_left, Checked, LookedUp};

// Where a section's first entry stands, and how many entries it has.
#[derive(Clone, Copy)]
pub struct Section {
    pub at: usize,
    pub count: usize,
}

// The layout of a table: its six sections.
#[derive(Clone, Copy)]
pub struct Table {
    pub records: Section,
    pub fields: Section,
    pub pointers: Section,
    pub variables: Section,
    pub nodes: Section,
    pub commands: Section,
}

// The first field of each record, and the number of all fields after the last.
pub type Firsts = [u32; Table::RECORDS + 1];

// The pointer to each target: the types, then the records.
pub type Entries = [u32; Table::TYPES + Table::RECORDS];

// The size of each record.
pub type Sizes = [u32; Table::RECORDS];

// The offset of each field.
pub type Offsets = [u32; Table::FIELDS];

// The note of each node.
pub type Notes = [u32; Table::NODES];

// How often each node is used. Apart from the notes, since a run has no need of it.
pub type Uses = [u32; Table::NODES];

// The kinds of nodes: places, then values. Numbers and not an enum: the check matches a table's own word, once, with ranges for places and values.
pub mod kind {
    pub const VARIABLE: u32 = 1;

    pub const DEREF: u32 = 2;

    pub const FIELD: u32 = 3;

    pub const CONSTANT: u32 = 4;

    pub const SUM: u32 = 5;

    pub const READ: u32 = 6;

    pub const ADDRESS: u32 = 7;

    pub const CAST: u32 = 8;

    pub const SIZE: u32 = 9;

    pub const MALLOC: u32 = 10;

    pub const COPY: u32 = 11;
}

// Types: int, then the pointer to void, then the pointer entries. Numbers, since a type is a word of the table.
pub mod of_type {
    pub const INT: u32 = 0;

    pub const VOID: u32 = 1;

    pub const ENTRY: u32 = 2;
}

// The bits of a node's note. Types are below the lowest. In one word a node, of which each question is one test: a run looks at one for each child.
pub mod note {
    // A value that is neither a constant nor the read of a variable.
    pub const VALUE: u32 = 0;

    // Base and end go with the value whatever the type, as in edition 2. The check of nodes does not set it.
    pub const BOUNDS: u32 = 128;

    pub const CONSTANT: u32 = 256;

    // A variable, or the read of one.
    pub const VARIABLE: u32 = 512;

    pub const PLACE: u32 = 1024;
}

// Why a table, or what a call brings beside it, is turned away. As a number each is the one by which documents and C know it.
#[derive(Clone, Copy, PartialEq, Eq)]
pub enum Fault {
    // The table ends before a count, or within a section.
    CutShort = 1,

    // Words follow the last section.
    WordsOver = 2,

    // A count is above its limit.
    OverLimit = 3,

    // A record without fields, a wrong number of fields in all, or a field of no words or too many.
    WrongCount = 4,

    UnknownType = 5,

    // A second pointer to the same target.
    SameTarget = 6,

    // An unknown kind of node; an operand that names nothing of its sort before the node; or one that is not used and not 0.
    Operand = 7,

    // The types of a node or a command do not fit.
    Types = 8,

    // A node that is not used exactly once.
    Uses = 9,

    // The lengths of the lists.
    Lengths = 10,

    Input = 11,

    // The list of registers is too long, cut short, or has words over.
    RegisterList = 13,

    // A register's variable is unknown, no pointer, or named before.
    RegisterVariable = 14,

    // The registers do not fit in the memory.
    RegisterRoom = 15,

    // An edition that is not known.
    Edition = 16,
}

impl Fault {
    pub fn number(self) -> u32
        ensures { result ≡ number_of self }
    {
        self as u32
    }
}

// What is turned away, and the place of the word at fault.
#[derive(Clone, Copy, PartialEq, Eq)]
pub struct Refusal {
    pub fault: Fault,
    pub place: usize,
}

// All is well, or this is at fault.
pub fn require(ok: bool, fault: Fault, place: usize) -> Result<(), Refusal>
    ensures met { OnOk result (ok ≡ true) }
    ensures unmet { OnErr result (ok ≡ false) }
    ensures faults { verdict_of result ≡ require ok (number_of fault) place }
{
    if ok {
        Ok(())
    } else {
        Err(Refusal { fault, place })
    }
}

impl Section {
    // The section whose count stands at `place` and whose entries have `words` words each, or the refusal: cut short, over the limit, then cut short.
    fn parse(t: &[u32], place: usize, words: usize, limit: usize) -> Result<Section, Refusal>
        requires { (words ≤ 3) × (limit ≤ 512) }
        ensures { (s : ℕ) → place ≡ count_place t.now s → words ≡ word entry_words s → limit ≡ word limits s → outcome_of result ≡ section_by t.now s (section_fault t.now s) }
    {
        let length = t.len();
        require(place < length, Fault::CutShort, length)?;
        let count = t[place] as usize;
        require(count <= limit, Fault::OverLimit, place)?;
        let at = place + 1;
        require(at + words * count <= length, Fault::CutShort, length)?;
        Ok(Section { at, count })
    }

    // Its entries, which have N words each.
    pub fn entries<const N: usize>(self, t: &[u32]) -> &[[u32; N]]
        requires { (0 < N) × (self.at + N * self.count ≤ length t.now) }
        ensures all { length result.now ≡ self.count }
        ensures same { (i j : ℕ) → i < self.count → j < N → word (get_or result.now i []) j ≡ word t.now (self.at + N * i + j) }
    {
        let (entries, _) = t[self.at..self.at + N * self.count].as_chunks::<N>();
        entries
    }
}

// Whether a table starts with the mark: it is of edition 2, or else refused.
#[tactic(auto, unfolding(semantics::specs::Table::edition))]
pub fn is_marked(t: &[u32]) -> bool
    ensures { edition_by result ≡ edition t.now }
{
    !t.is_empty() && t[0] == Table::MARK
}

// Where the first section stands, or that the edition is another.
fn first_section(t: &[u32]) -> Result<usize, Refusal>
    ensures { outcome_of result ≡ start_by (edition t.now) (edition_fault t.now) }
{
    if !is_marked(t) {
        return Ok(0);
    }
    require(t.len() <= 1 || t[1] == Table::EDITION, Fault::Edition, 1)?;
    Ok(2)
}

impl Table {
    // The word that marks a table of an edition, and the edition that is known.
    pub const MARK: u32 = 4294967295;

    pub const EDITION: u32 = 2;

    pub const RECORDS: usize = 32;

    pub const FIELDS: usize = 128;

    pub const POINTERS: usize = 64;

    pub const VARIABLES: usize = 64;

    pub const NODES: usize = 512;

    pub const COMMANDS: usize = 256;

    // Types: int, the pointer to void, and the pointer entries.
    pub const TYPES: usize = of_type::ENTRY as usize + Table::POINTERS;

    pub const FIELD_WORDS: u32 = 4096;

    // The target that is record 0.
    pub const RECORD: u32 = 65536;

    // The layout of a table, or the refusal: another edition, the sections in turn, then words over.
    pub fn parse(t: &[u32]) -> Result<Table, Refusal>
        ensures { outcome_of result ≡ parsed t.now }
    {
        let first = first_section(t)?;
        let records = Section::parse(t, first, 1, Table::RECORDS)?;
        let fields = Section::parse(t, records.at + records.count, 2, Table::FIELDS)?;
        let pointers = Section::parse(t, fields.at + 2 * fields.count, 1, Table::POINTERS)?;
        let variables = Section::parse(t, pointers.at + pointers.count, 1, Table::VARIABLES)?;
        let nodes = Section::parse(t, variables.at + variables.count, 3, Table::NODES)?;
        let commands = Section::parse(t, nodes.at + 3 * nodes.count, 2, Table::COMMANDS)?;
        let end = commands.at + 2 * commands.count;
        require(t.len() <= end, Fault::WordsOver, end)?;
        Ok(Table {
            records,
            fields,
            pointers,
            variables,
            nodes,
            commands,
        })
    }
}

// x is int, pointer to void or one of the pointer entries.
#[tactic(auto, unfolding(semantics::specs::Table::known_type))]
pub fn known_type(pointers: usize, x: u32) -> bool
    requires { pointers ≤ 64 }
    ensures { (t : Words) → pointers ≡ count t 2 → result ≡ known_type t x }
{
    (x as usize) < of_type::ENTRY as usize + pointers
}

// x is a known type, or 65,536 + the number of a record.
#[tactic(auto, unfolding(semantics::specs::Table::known_target))]
pub fn known_target(records: usize, pointers: usize, x: u32) -> bool
    requires { (records ≤ 32) × (pointers ≤ 64) }
    ensures { (t : Words) → records ≡ count t 0 → pointers ≡ count t 2 → result ≡ known_target t x }
{
    if x < Table::RECORD {
        known_type(pointers, x)
    } else {
        ((x - Table::RECORD) as usize) < records
    }
}

// Where the pointer to a known target is noted.
#[tactic(auto, unfolding(crate::specs::Types::slot))]
pub fn target_slot(x: u32) -> usize
    ensures { result ≡ slot x }
{
    if x < Table::RECORD {
        x as usize
    } else {
        Table::TYPES + (x - Table::RECORD) as usize
    }
}

// Refuses the first record without fields.
#[tactic(auto, unfolding(semantics::specs::Check::each))]
fn check_records(t: &[u32], records: Section) -> Result<(), Refusal>
    requires { Stands t.now 0 records }
    ensures { verdict_of result ≡ each (count t.now 0) (record_fault t.now) }
{
    for (i, &[total]) in records.entries::<1>(t).iter().enumerate() {
        require(0 < total, Fault::WrongCount, records.at + i)?;
    }
    Ok(())
}

// The number of fields of all records together.
#[tactic(auto, unfolding(semantics::specs::Table::first_field, semantics::specs::Words::sum_below))]
fn total_fields(t: &[u32], records: Section) -> usize
    requires { Stands t.now 0 records }
    ensures { result ≡ first_field t.now (count t.now 0) }
{
    let mut sum = 0;
    for &[total] in records.entries::<1>(t) {
        sum += total as usize;
    }
    sum
}

// Notes the first field of each record, and their number after the last.
fn note_first(t: &[u32], records: Section, first: &mut Firsts)
    requires stands { Stands t.now 0 records }
    requires t_bound { (first_field t.now (count t.now 0) ≤ 128) × (length first.old ≡ 33) }
    ensures { first.new ≡ filled first.old 0 (count t.now 0 + 1) (first_field t.now) }
{
    let mut sum = 0;
    first[0] = 0;
    for (i, &[total]) in records.entries::<1>(t).iter().enumerate() {
        sum += total;
        first[i + 1] = sum;
    }
}

// Refuses the first field of an unknown type or of a wrong count of words.
#[tactic(auto, unfolding(semantics::specs::Check::each))]
fn check_fields(t: &[u32], fields: Section, pointers: usize) -> Result<(), Refusal>
    requires { (Stands t.now 1 fields) × (pointers ≡ count t.now 2) × (pointers ≤ 64) }
    ensures { verdict_of result ≡ each (count t.now 1) (field_fault t.now) }
{
    for (i, &[of_type, words]) in fields.entries::<2>(t).iter().enumerate() {
        let place = fields.at + 2 * i;
        require(known_type(pointers, of_type), Fault::UnknownType, place)?;
        let few = 0 < words && words <= Table::FIELD_WORDS;
        require(few, Fault::WrongCount, place + 1)?;
    }
    Ok(())
}

// Refuses the first pointer with an unknown target or one seen before. Notes the pointer to each target before it.
fn check_pointers(
    t: &[u32],
    pointers: Section,
    records: usize,
    entry: &mut Entries,
) -> Result<(), Refusal>
    requires { (Stands t.now 2 pointers) × (records ≡ count t.now 0) × (records ≤ 32) × (entry.old ≡ replicate 98 0) }
    ensures found { Checked result (each (count t.now 2) (pointer_fault t.now)) (Marks t.now entry.new (count t.now 2)) }
    ensures lists { entry.new ≡ marked t.now (passed_below (count t.now 2) (pointer_fault t.now)) entry.old }
{
    for (i, &[target]) in pointers.entries::<1>(t).iter().enumerate() {
        let place = pointers.at + i;
        let known = known_target(records, pointers.count, target);
        require(known, Fault::UnknownType, place)?;
        let slot = target_slot(target);
        require(entry[slot] == 0, Fault::SameTarget, place)?;
        entry[slot] = of_type::ENTRY + i as u32;
    }
    Ok(())
}

// Refuses the first variable of an unknown type.
#[tactic(auto, unfolding(semantics::specs::Check::each))]
fn check_variables(t: &[u32], variables: Section, pointers: usize) -> Result<(), Refusal>
    requires { (Stands t.now 3 variables) × (pointers ≡ count t.now 2) × (pointers ≤ 64) }
    ensures { verdict_of result ≡ each (count t.now 3) (variable_fault t.now) }
{
    for (i, &[x]) in variables.entries::<1>(t).iter().enumerate() {
        let known = known_type(pointers, x);
        require(known, Fault::UnknownType, variables.at + i)?;
    }
    Ok(())
}

// What is turned away of sections 1 to 4. Where these pass, the two lists are filled with what the check of nodes looks up; where one is
// refused, they are as they were, or filled as far as the check had come.
pub fn check_types(
    t: &[u32],
    l: Table,
    first: &mut Firsts,
    entry: &mut Entries,
) -> Result<(), Refusal>
    requires laid_out { LaidOut t.now l }
    requires room { Room first.old entry.old }
    ensures found { Checked result (types_fault t.now) (LookedUp t.now first.new entry.new) }
    ensures lists { (first.new ≡ first_left t.now first.old) × (entry.new ≡ entry_left t.now entry.old) }
{
    check_records(t, l.records)?;
    let total = total_fields(t, l.records);
    require(total == l.fields.count, Fault::WrongCount, l.fields.at - 1)?;
    note_first(t, l.records, first);
    check_fields(t, l.fields, l.pointers.count)?;
    check_pointers(t, l.pointers, l.records.count, entry)?;
    check_variables(t, l.variables, l.pointers.count)
}
