// The three verbs on a lent word. It relies on nothing.
#![tactic(auto)]

ghost use Rattle.std.specs.Prelude.{◌≡◌};
ghost use Rattle.word_layout.specs.Word.{add_of, swap_of};

use std::mem;

// add k: the word becomes (word + k) modulo 2^64; the word before comes back.
pub fn add(word: &mut u64, k: u64) -> u64
    ensures returned { result ≡ word.old }
    ensures left { word.new ≡ add_of word.old k }
{
    let after = word.wrapping_add(k);
    mem::replace(word, after)
}

// read: no change; the word comes back.
pub fn read(word: &u64) -> u64
    ensures returned { result ≡ word.now }
{
    *word
}

// swap old, new: the word becomes new if it equals old, else it stays; the word before comes back.
pub fn swap(word: &mut u64, old: u64, new: u64) -> u64
    ensures returned { result ≡ word.old }
    ensures left { word.new ≡ swap_of word.old old new }
{
    if *word != old {
        return *word;
    }
    mem::replace(word, new)
}
