// Lists of words, whatever they mean: clearing one, and storing words in it.
#![tactic(auto)]

ghost use Rattle.std.specs.Prelude.{◌≡◌, ◌+◌, ◌-◌, ◌≤◌, ◌++◌, length, take, replicate};
ghost use Rattle.std.proofs.lemmas.List.Edits.{sets};

// Sets every word of a list to 0.
pub fn clear(list: &mut [u32])
    ensures { list.new ≡ replicate (length list.old) 0 }
{
    // No fill: it sets the last word by itself, which costs each call of the evaluator two registers more to save.
    for word in list.iter_mut() {
        *word = 0;
    }
}

// Stores words one after the other, the first at place `at` of a list. By a loop and not by `copy_from_slice`, which calls `memcpy`: C links nothing from
// outside but `memset`.
pub fn store_all(list: &mut [u32], at: usize, words: &[u32])
    requires { at + length words.now ≤ length list.old }
    ensures { list.new ≡ sets list.old at words.now }
{
    for (i, word) in words.iter().enumerate() {
        list[at + i] = *word;
    }
}

// Sets every word of a list from place `at` on to 0.
pub fn clear_from(list: &mut [u32], at: usize)
    requires { at ≤ length list.old }
    ensures { list.new ≡ take at list.old ++ replicate (length list.old - at) 0 }
{
    clear(&mut list[at..]);
}

// Sets the words of a list from place `at` up to `to` to 0.
pub fn clear_part(list: &mut [u32], at: usize, to: usize)
    requires { (at ≤ to) × (to ≤ length list.old) }
    ensures { list.new ≡ sets list.old at (replicate (to - at) 0) }
{
    clear(&mut list[at..to]);
}
