// Changes of the text in the desk's memory. These are functions of the slices and not methods of `Desk`: that a part of one field is lent while
// another field is used gets no proof yet.
ghost use Rattle.std.specs.Prelude.{◌+◌, ◌<◌, ◌≤◌, ◌++◌, length, take, drop, slice_index};
ghost use Rattle.history.specs.Entry.{undo_of};
ghost use Rattle.model.specs.Paper.{new_cells};
ghost use Rattle.session.specs.Acts.{Wrote, with_cells};
ghost use Rattle.session.specs.Memory.{Held, paper_of};
ghost use Rattle.session.specs.Undoing.{CanUndo, entry_in};
ghost use Rattle.sweep.specs.Sweep.{swept, swept_run};

use crate::calls::Rows;
use crate::desk::{row_in, slots_in, tables_from};
use kept::TextMut;
use sweep::Action;

/// Puts letters into the text, put in by change number `change`. (Of both slices, for the reason above.)
pub fn insert(
    cells: &mut [u32],
    pieces: &mut [u32],
    place: usize,
    letters: &[u8],
    style: u32,
    change: u32,
)
    requires held { Held cells.old pieces.old }
    requires place { place ≤ length (paper_of cells.old pieces.old).cells }
    requires few { length letters.now ≤ 1024 }
    requires fits { length (paper_of cells.old pieces.old).cells + length letters.now ≤ slice_index pieces.old 0 }
    requires mark { change < 4294967295 }
    ensures { Wrote cells.old pieces.old cells.new pieces.new (with_cells (paper_of cells.old pieces.old) (take place (paper_of cells.old pieces.old).cells ++ (new_cells letters.now style change ++ drop place (paper_of cells.old pieces.old).cells))) }
{
    let slots = slots_in(pieces);
    let from = tables_from(pieces);
    let (_, tables) = pieces.split_at_mut(from);
    let mut text = TextMut {
        cells,
        tables,
        slots,
    };
    text.put(place, letters, style, change);
}

/// A run of cells is swept. (Of both slices, for the reason above.)
pub fn sweep_run(cells: &mut [u32], pieces: &mut [u32], place: usize, n: usize, action: Action)
    requires held { Held cells.old pieces.old }
    requires within { place + n ≤ length (paper_of cells.old pieces.old).cells }
    ensures { Wrote cells.old pieces.old cells.new pieces.new (with_cells (paper_of cells.old pieces.old) (swept_run action (paper_of cells.old pieces.old).changes (paper_of cells.old pieces.old).cells place n)) }
{
    let slots = slots_in(pieces);
    let from = tables_from(pieces);
    let (head, tables) = pieces.split_at_mut(from);
    let row = row_in(head);
    let mut text = TextMut {
        cells,
        tables,
        slots,
    };
    sweep::sweep_run(&mut text, &row, place, n, action);
}

/// All cells are swept. (Of both slices, for the reason above.)
pub fn sweep_all(cells: &mut [u32], pieces: &mut [u32], action: Action)
    requires { Held cells.old pieces.old }
    ensures { Wrote cells.old pieces.old cells.new pieces.new (with_cells (paper_of cells.old pieces.old) (swept action (paper_of cells.old pieces.old).changes (paper_of cells.old pieces.old).cells)) }
{
    let slots = slots_in(pieces);
    let from = tables_from(pieces);
    let (head, tables) = pieces.split_at_mut(from);
    let row = row_in(head);
    let mut text = TextMut {
        cells,
        tables,
        slots,
    };
    // How many cells it was about is known already: the log had to have room for them.
    sweep::sweep_all(&mut text, &row, action);
}

/// What was found of rows that are shown is kept. (Of both slices, for the reason above.)
pub fn keep(cells: &mut [u32], pieces: &mut [u32], rows: Rows)
    requires held { Held cells.old pieces.old }
    requires least { 1 ≤ rows.width }
    requires most { rows.width ≤ 256 }
    ensures { Wrote cells.old pieces.old cells.new pieces.new (paper_of cells.old pieces.old) }
{
    let slots = slots_in(pieces);
    let from = tables_from(pieces);
    let (_, tables) = pieces.split_at_mut(from);
    layout::keep(cells, tables, slots, rows.way, rows.width, rows.first);
}

/// What the call of the entry at word `at` of the log did to the cells is taken back. (Of the slices, for the reason above.)
pub fn take_back(cells: &mut [u32], pieces: &mut [u32], undo: &[u32], at: usize)
    requires held { Held cells.old pieces.old }
    requires can { CanUndo cells.old pieces.old undo.now at }
    ensures { Wrote cells.old pieces.old cells.new pieces.new (with_cells (paper_of cells.old pieces.old) (undo_of (entry_in undo.now at) (paper_of cells.old pieces.old)).cells) }
{
    let slots = slots_in(pieces);
    let from = tables_from(pieces);
    let (_, tables) = pieces.split_at_mut(from);
    let mut text = TextMut {
        cells,
        tables,
        slots,
    };
    restore::undo(&mut text, undo, at);
}
