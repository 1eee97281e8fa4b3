// The entry of a call that is about to write, in the log of what can be undone. These are functions of the slices, for the reason in cells.rt.
ghost use Rattle.std.specs.Prelude.{◌≡◌, ◌+◌, ◌<◌, ◌≤◌, length, slice_index};
ghost use Rattle.history.specs.Entry.{entry_of};
ghost use Rattle.history.specs.Log.{Keeps};
ghost use Rattle.model.specs.Calls.{strikes, styles};
ghost use Rattle.model.specs.Paper.{touched as touches};
ghost use Rattle.recorder.specs.Records.{decided};
ghost use Rattle.session.specs.Acts.{Recorded};
ghost use Rattle.session.specs.Memory.{Held, paper_of};

use crate::desk::{row_in, text_in};
use model::Verdict;

/// An author is about to strike out cells, from one on.
pub fn strike(cells: &[u32], pieces: &[u32], undo: &mut [u32], author: u32, place: u32, count: u32)
    requires held { Held cells.now pieces.now }
    requires log { Keeps undo.old (slice_index pieces.now 2) }
    requires within { place + count ≤ length (paper_of cells.now pieces.now).cells }
    ensures { Recorded undo.old undo.new (slice_index pieces.now 2) (entry_of (paper_of cells.now pieces.now) (strikes author place count)) }
{
    let text = text_in(cells, pieces);
    let row = row_in(pieces);
    recorder::strike(undo, pieces[2], &text, &row, author, place, count);
}

/// Cells from one on are about to get a style.
pub fn style(cells: &[u32], pieces: &[u32], undo: &mut [u32], place: u32, count: u32, style: u32)
    requires held { Held cells.now pieces.now }
    requires log { Keeps undo.old (slice_index pieces.now 2) }
    requires within { place + count ≤ length (paper_of cells.now pieces.now).cells }
    ensures { Recorded undo.old undo.new (slice_index pieces.now 2) (entry_of (paper_of cells.now pieces.now) (styles place count style)) }
{
    let text = text_in(cells, pieces);
    recorder::style(undo, pieces[2], &text, place, count, style);
}

/// A change is about to be accepted or rejected; `marked` cells have its mark.
pub fn decision(
    cells: &[u32],
    pieces: &[u32],
    undo: &mut [u32],
    change: u32,
    verdict: Verdict,
    marked: u32,
)
    requires held { Held cells.now pieces.now }
    requires log { Keeps undo.old (slice_index pieces.now 2) }
    requires mark { change < 4294967295 }
    requires count { marked ≡ touches (paper_of cells.now pieces.now).cells change }
    ensures { Recorded undo.old undo.new (slice_index pieces.now 2) (entry_of (paper_of cells.now pieces.now) (decided verdict change)) }
{
    let text = text_in(cells, pieces);
    recorder::decision(undo, pieces[2], &text, change, verdict, marked);
}
