// The row of changes, two words for each: its author and what became of it.
#![tactic(auto)]

ghost use Rattle.std.specs.Prelude.{◌≡◌, ◌+◌, ◌*◌, ◌<◌, ◌≤◌, Some, None, [], ◌∷◌, ◌++◌, length, slice_set};
ghost use Rattle.changes.specs.Row.{change_at, changes_of};
ghost use Rattle.model.specs.Calls.{with_became};
ghost use Rattle.model.specs.Values.{change_of};

use model::Change;

/// The first `len` changes whose words are lent.
/// No `PartialEq` and no `Hash`: the words behind the changes are no part of the row.
#[derive(Clone, Copy, Debug)]
pub struct Row<'a> {
    pub words: &'a [u32],
    pub len: usize,
    ghost fits: { 2 * len ≤ length words.now },
}

impl<'a> Row<'a> {
    /// Change number `k`, if it is there.
    pub fn get(&self, k: usize) -> Option<Change>
        ensures { elim result [ Some x ↦ (k < self.now.len) × (change_of x ≡ change_at self.now.words.now k) | None ↦ self.now.len ≤ k ] }
    {
        if k < self.len {
            Some(read(self.words, k))
        } else {
            None
        }
    }
}

// Change number k.
pub fn read(words: &[u32], k: usize) -> Change
    requires { 2 * k + 1 < length words.now }
    ensures { change_of result ≡ change_at words.now k }
{
    Change {
        author: words[2 * k],
        became: words[2 * k + 1],
    }
}

// Change number n, which is open, after the n that there are; no other word moves.
// The words and their number apart, here and below: the number is a word that stands before these, and the session writes it itself.
pub fn add(words: &mut [u32], n: usize, author: u32)
    requires { 2 * n + 1 < length words.old }
    ensures row { changes_of words.new (n + 1) ≡ changes_of words.old n ++ (record { author = author; became = 0 } ∷ []) }
    ensures words { words.new ≡ slice_set (slice_set words.old (2 * n) author) (2 * n + 1) 0 }
{
    words[2 * n] = author;
    words[2 * n + 1] = 0;
}

// What became of change number k, of n; no other word moves.
// A number, as a `Change` has it. `n` is for the contract alone: it says how many changes the words have.
pub fn decide(words: &mut [u32], n: usize, k: usize, became: u32)
    requires { (k < n) × (2 * n ≤ length words.old) }
    ensures row { changes_of words.new n ≡ with_became (changes_of words.old n) k became }
    ensures words { words.new ≡ slice_set words.old (2 * k + 1) became }
{
    words[2 * k + 1] = became;
}
