// The whole check of a table, which leaves the notes of its nodes and what its records are looked up by. Then, for a run, what the edition adds to the notes.
#![tactic(auto)]

ghost use Rattle.std.specs.Prelude.{◌≡◌, true, ℕ, ◌+◌, ◌*◌, ◌<◌, ◌≤◌, ◌^◌};
ghost use Rattle.semantics.specs.Words.{Words, word};
ghost use Rattle.semantics.specs.Table.{edition, edition_2, nodes, count};
ghost use Rattle.semantics.specs.Check.{each, node_fault, command_fault, use_fault};
ghost use Rattle.semantics.proofs.Passed.{TypesPassed};
ghost use Rattle.layout.specs.Layout.{Stands, LaidOut};
ghost use Rattle.layout.specs.Refusals.{verdict_of};
ghost use Rattle.layout.specs.Types.{Checked, LookedUp};
ghost use Rattle.nodes.specs.Promises.{NotedTo};
ghost use Rattle.table.specs.Promises.{Clear, notes_noted, NodesNoted, command_verdict, CommandsReady, CommandsCounted, AllCounted, ListsReady, Checks, edition_noted};

use layout::{
    Entries, Fault, Firsts, Notes, Offsets, Refusal, Section, Sizes, Table, Uses, note, require,
};
use nodes::Sort;
use sizes::note_sizes;

// Refuses the first node at fault. The nodes before it are noted; where all pass, the uses by nodes are counted.
fn check_nodes(
    t: &[u32],
    l: &Table,
    first: &Firsts,
    entry: &Entries,
    notes: &mut Notes,
    uses: &mut Uses,
) -> Result<(), Refusal>
    requires { (LaidOut t.now l.now) × (TypesPassed t.now) × (LookedUp t.now first.now entry.now) × (Clear notes.old uses.old) }
    ensures found { Checked result (each (count t.now nodes) (node_fault t.now)) (NodesNoted t.now notes.new uses.new (count t.now nodes)) }
    ensures lists { notes.new ≡ notes_noted t.now notes.old }
{
    // By number: that is what a node's notes and uses are kept by.
    for n in 0..l.nodes.count {
        nodes::check_node(t, l, first, entry, notes, uses, n, l.nodes.at + 3 * n)?;
    }
    Ok(())
}

// A command with a place node x and a value node v, both of n nodes, which stand at `place`: its operands, then its types.
fn check_command(notes: &Notes, n: usize, place: usize, x: u32, v: u32) -> Result<(), Refusal>
    requires { (n ≤ 512) × (place + 1 < 2 ^ 64) }
    ensures { (t : Words) → NotedTo t notes.now n → n ≡ count t nodes → verdict_of result ≡ command_verdict t place x v }
{
    let left = nodes::is_child(notes, n, x, Sort::Place);
    require(left, Fault::Operand, place)?;
    let right = nodes::is_child(notes, n, v, Sort::Value);
    require(right, Fault::Operand, place + 1)?;
    let same = nodes::type_of(notes, x) == nodes::type_of(notes, v);
    require(same, Fault::Types, place)
}

// Refuses the first command at fault. Counts their uses of the n nodes.
fn check_commands(
    t: &[u32],
    notes: &Notes,
    n: usize,
    commands: Section,
    uses: &mut Uses,
) -> Result<(), Refusal>
    requires { (Stands t.now 5 commands) × (CommandsReady t.now notes.now uses.old n) }
    ensures { Checked result (each (count t.now 5) (command_fault t.now)) (CommandsCounted t.now uses.old uses.new (count t.now 5)) }
{
    for (c, &[x, v]) in commands.entries::<2>(t).iter().enumerate() {
        check_command(notes, n, commands.at + 2 * c, x, v)?;
        nodes::count_use(uses, x);
        nodes::count_use(uses, v);
    }
    Ok(())
}

// Whether each of n nodes is used exactly once. Without an early return the loop takes several nodes in one step.
fn all_used_once(n: usize, uses: &Uses) -> bool
    requires { n ≤ 512 }
    ensures { result ≡ true → (i : ℕ) → i < n → word uses.now i ≡ 1 }
{
    let mut once = 0u32;
    for used in &uses[..n] {
        once += (*used == 1) as u32;
    }
    once as usize == n
}

// Refuses the lowest node that isn't used exactly once.
fn check_uses(nodes: Section, uses: &Uses) -> Result<(), Refusal>
    requires { (nodes.count ≤ 512) × (nodes.at + 3 * nodes.count < 2 ^ 64) }
    ensures { (t : Words) → Stands t 4 nodes → AllCounted t uses.now → verdict_of result ≡ each (count t 4) (use_fault t) }
{
    if all_used_once(nodes.count, uses) {
        return Ok(());
    }
    for (n, used) in uses[..nodes.count].iter().enumerate() {
        require(*used == 1, Fault::Uses, nodes.at + 3 * n)?;
    }
    Ok(())
}

// The whole check. Where it passes: the layout; the note of each node; the first field and the size of each record; the offset of each field.
pub fn check(
    t: &[u32],
    first: &mut Firsts,
    sizes: &mut Sizes,
    offsets: &mut Offsets,
    notes: &mut Notes,
) -> Result<Table, Refusal>
    requires { ListsReady first.old sizes.old offsets.old notes.old }
    ensures { Checks t.now first.old first.new sizes.old sizes.new offsets.old offsets.new notes.old notes.new result }
{
    let l = Table::parse(t)?;
    let mut entry = [0u32; Table::TYPES + Table::RECORDS];
    let mut uses = [0u32; Table::NODES];
    layout::check_types(t, l, first, &mut entry)?;
    check_nodes(t, &l, first, &entry, notes, &mut uses)?;
    check_commands(t, notes, l.nodes.count, l.commands, &mut uses)?;
    check_uses(l.nodes, &uses)?;
    note_sizes(t, l.fields, l.records.count, first, sizes, offsets);
    Ok(l)
}

// Adds to the notes of n nodes that base and end go with every value.
fn note_bounds(n: usize, notes: &mut Notes)
    requires { (n ≤ 512) × ((i : ℕ) → i < n → word notes.old i < 4096) }
    ensures { notes.new ≡ edition_noted edition_2 n notes.old }
{
    for x in &mut notes[..n] {
        *x += note::BOUNDS;
    }
}

// Adds to the notes of a table's n nodes what its edition asks for. Only a run goes by it, and an unmarked table has it already.
pub fn note_edition(t: &[u32], n: usize, notes: &mut Notes)
    requires { (n ≤ 512) × ((i : ℕ) → i < n → word notes.old i < 4096) }
    ensures { notes.new ≡ edition_noted (edition t.now) n notes.old }
{
    if layout::is_marked(t) {
        note_bounds(n, notes);
    }
}
