// Cells in lent words, four words a cell: go over them, read one, write one, take a part, copy a run of cells, paste in those of other words, fill in new letters.
#![tactic(auto)]

ghost use Rattle.std.specs.Prelude.{◌≡◌, ◌+◌, ◌*◌, ◌/◌, ◌<◌, ◌≤◌, length};
ghost use Rattle.std.specs.Iterator.{YieldsFirstBy, item_count};
ghost use Rattle.model.specs.Paper.{new_cells};
ghost use Rattle.model.specs.Values.{cell_of};
ghost use Rattle.slots.specs.Cells.{all_cells, cell_at, cells_at, Kept};

use model::Cell;

/// The cells whose words are lent, one after the other.
/// No `PartialEq` and no `Hash`: it is gone over once, and never compared.
#[derive(Clone, Copy, Debug)]
pub struct Cells<'a> {
    pub words: &'a [u32],
}

impl<'a> Iterator for Cells<'a> {
    type Item = Cell;

    ghost next_gives = { YieldsFirstBy cell_of (λ s. all_cells s.words.now) };

    ghost remaining = { item_count (λ s. all_cells s.words.now) };

    fn next(&mut self) -> Option<Cell> {
        // Not by `read`: the four words are at hand by name, and the words that are left come with them.
        let (first, others) = self.words.split_first_chunk::<4>()?;
        let [letter, style, put_in, struck] = *first;
        self.words = others;
        Some(Cell {
            letter,
            style,
            put_in,
            struck,
        })
    }
}

// Cell number `a`. By its number, here and below, as a piece tells the number of a cell; and its four words by their places, as a conversion would first
// have to make an array of them.
pub fn read(c: &[u32], a: usize) -> Cell
    requires { 4 * a + 4 ≤ length c.now }
    ensures { cell_of result ≡ cell_at c.now a }
{
    let at = 4 * a;
    Cell {
        letter: c[at],
        style: c[at + 1],
        put_in: c[at + 2],
        struck: c[at + 3],
    }
}

// Writes cell number `a`.
pub fn write(c: &mut [u32], a: usize, cell: Cell)
    requires { 4 * a + 4 ≤ length c.old }
    ensures written { cell_at c.new a ≡ cell_of cell }
    ensures kept { Kept c.old c.new a 1 }
{
    let at = 4 * a;
    c[at] = cell.letter;
    c[at + 1] = cell.style;
    c[at + 2] = cell.put_in;
    c[at + 3] = cell.struck;
}

// The words of the `n` cells from number `a` on.
pub fn part(c: &[u32], a: usize, n: usize) -> &[u32]
    requires { 4 * (a + n) ≤ length c.now }
    ensures cells { all_cells result.now ≡ cells_at c.now a n }
    ensures long { length result.now ≡ 4 * n }
{
    &c[4 * a..4 * (a + n)]
}

// Copies `n` cells from number `from` on to number `to` on.
// By their numbers, as the two runs stand in the same words and may overlap.
pub fn copy(c: &mut [u32], from: usize, to: usize, n: usize)
    requires source { 4 * (from + n) ≤ length c.old }
    requires target { 4 * (to + n) ≤ length c.old }
    ensures copied { cells_at c.new to n ≡ cells_at c.old from n }
    ensures kept { Kept c.old c.new to n }
{
    if from == to {
        return;
    }
    let start = 4 * from;
    let end = 4 * (from + n);
    c.copy_within(start..end, 4 * to);
}

// Copies the cells whose words `new` has to number `a` on.
pub fn paste(c: &mut [u32], a: usize, new: &[u32])
    requires { 4 * (a + length new.now / 4) ≤ length c.old }
    ensures pasted { cells_at c.new a (length new.now / 4) ≡ all_cells new.now }
    ensures kept { Kept c.old c.new a (length new.now / 4) }
{
    // Cell by cell, and not by the library's `copy_from_slice`: that one becomes a call of `memmove`, which the archive for C would then need from outside.
    for (i, cell) in (Cells { words: new }).enumerate() {
        write(c, a + i, cell);
    }
}

// Writes the letters as new cells from number `a` on: in one style, put in by one change.
pub fn fill(c: &mut [u32], a: usize, letters: &[u8], style: u32, change: u32)
    requires room { 4 * (a + length letters.now) ≤ length c.old }
    requires mark { change < 4294967295 }
    ensures filled { cells_at c.new a (length letters.now) ≡ new_cells letters.now style change }
    ensures kept { Kept c.old c.new a (length letters.now) }
{
    // The mark of a change is one more than its number, which is why the greatest number is none of a change.
    let put_in = change + 1;
    // By number, as `write` takes it: in chunks of words the four of a cell would be written once more.
    for (i, letter) in letters.iter().enumerate() {
        let cell = Cell {
            letter: u32::from(*letter),
            style,
            put_in,
            struck: 0,
        };
        write(c, a + i, cell);
    }
}
