// Words of a list that go to another place of it, where the two may overlap. By loops and not by the library's `copy_within`, which calls `memmove`: C links
// nothing from outside but `memset`.
#![tactic(auto)]

ghost use Rattle.std.specs.Prelude.{◌≡◌, ◌+◌, ◌≤◌, ◌<◌, length};
ghost use Rattle.semantics.specs.Words.{moved};

// From the first word on: each word is read before it is written, as the words go down.
fn move_down(list: &mut [u32], to: usize, from: usize, n: usize)
    requires { (to ≤ from) × (from + n ≤ length list.old) }
    ensures { list.new ≡ moved list.old to from n }
{
    for i in 0..n {
        list[to + i] = list[from + i];
    }
}

// From the last word on, as the words go up.
fn move_up(list: &mut [u32], to: usize, from: usize, n: usize)
    requires { (from < to) × (to + n ≤ length list.old) }
    ensures { list.new ≡ moved list.old to from n }
{
    for i in (0..n).rev() {
        list[to + i] = list[from + i];
    }
}

// Puts the n words from `from` on to `to` on as well, as they were before.
pub fn move_words(list: &mut [u32], to: usize, from: usize, n: usize)
    requires { (to + n ≤ length list.old) × (from + n ≤ length list.old) }
    ensures { list.new ≡ moved list.old to from n }
{
    if to <= from {
        move_down(list, to, from, n);
    } else {
        move_up(list, to, from, n);
    }
}
