// The sizes of a table's records and the offsets of their fields, for a run to look up.
#![tactic(auto)]

ghost use Rattle.std.specs.Prelude.{◌≡◌, ℕ, ◌+◌, ◌≤◌, ◌<◌, ◌^◌, length, get_or, []};
ghost use Rattle.semantics.specs.Words.{Words, word};
ghost use Rattle.semantics.specs.Table.{count, item, record_target, field_total, first_field, field_offset, size_of};
ghost use Rattle.semantics.proofs.Passed.{TypesPassed};
ghost use Rattle.layout.specs.Layout.{Stands};
ghost use Rattle.layout.specs.Lists.{filled};
ghost use Rattle.layout.specs.Types.{Tabulated, RecordIn};
ghost use Rattle.sizes.specs.Sizes.{sizes_noted, offsets_noted};

use layout::{Firsts, Offsets, Section, Sizes};

// The fields of record r: the number of its first, and how many there are.
fn fields_of(first: &Firsts, r: usize) -> Section
    requires { (r < 32) × (word first.now r ≤ word first.now (r + 1)) }
    ensures { (t : Words) → RecordIn t first.now r → (result.at ≡ first_field t r) × (result.count ≡ field_total t r) }
{
    let at = first[r] as usize;
    let count = first[r + 1] as usize - at;
    Section { at, count }
}

// Their entries: a type and a count of words each.
fn entries_of(t: &[u32], fields: Section, own: Section) -> &[[u32; 2]]
    requires { (Stands t.now 1 fields) × (own.at + own.count ≤ count t.now 1) }
    ensures all { length result.now ≡ own.count }
    ensures words { (f : ℕ) → f < own.count → word (get_or result.now f []) 1 ≡ item t.now 1 (own.at + f) 1 }
{
    &fields.entries::<2>(t)[own.at..own.at + own.count]
}

// The size of record r: its fields' words added up in one number, straight from the table, last field first.
fn add_up(t: &[u32], fields: Section, first: &Firsts, r: usize) -> u32
    requires { (Stands t.now 1 fields) × (RecordIn t.now first.now r) × (size_of t.now (record_target r) < 2 ^ 32) }
    ensures { result ≡ size_of t.now (record_target r) }
{
    let own = fields_of(first, r);
    let mut sum = 0;
    for &[_, words] in entries_of(t, fields, own).iter().rev() {
        sum += words;
    }
    sum
}

// Notes the offset of each field of record r, first field first: the words of those before it.
fn note_offsets(t: &[u32], fields: Section, first: &Firsts, r: usize, offsets: &mut Offsets)
    requires { (Stands t.now 1 fields) × (RecordIn t.now first.now r) × (size_of t.now (record_target r) < 2 ^ 32) × (length offsets.old ≡ 128) }
    ensures { offsets.new ≡ filled offsets.old (first_field t.now r) (field_total t.now r) (field_offset t.now r) }
{
    let own = fields_of(first, r);
    let mut offset = 0;
    for (f, &[_, words]) in entries_of(t, fields, own).iter().enumerate() {
        let next = offset + words;
        offsets[own.at + f] = offset;
        offset = next;
    }
}

// Notes the size of each record and the offset of each of its fields.
pub fn note_sizes(
    t: &[u32],
    fields: Section,
    records: usize,
    first: &Firsts,
    sizes: &mut Sizes,
    offsets: &mut Offsets,
)
    requires stands { (Stands t.now 1 fields) × (TypesPassed t.now) × (records ≡ count t.now 0) × (Tabulated first.now (count t.now 0) (first_field t.now)) }
    requires sizes_len { (length sizes.old ≡ 32) × (length offsets.old ≡ 128) }
    ensures { (sizes.new ≡ sizes_noted t.now (count t.now 0) sizes.old) × (offsets.new ≡ offsets_noted t.now (count t.now 0) offsets.old) }
{
    for (r, size) in sizes[..records].iter_mut().enumerate() {
        *size = add_up(t, fields, first, r);
        note_offsets(t, fields, first, r, offsets);
    }
}
