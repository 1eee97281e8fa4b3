// The writes of the calls, with no checks of their own: a call makes its write after its checks, and redo makes the same write again.
ghost use Rattle.std.specs.Prelude.{◌+◌, ◌<◌, ◌≤◌, length, slice_index};

use crate::cells;
use crate::desk::Desk;
use model::Verdict;
use sweep::Action;

impl<'a> Desk<'a> {
    ghost use Rattle.model.specs.Calls.{put as puts, rewritten, strikes, styles};
    ghost use Rattle.recorder.specs.Records.{decided};
    ghost use Rattle.session.specs.Desks.{Writes, paper_in};

    /// An author puts letters before a cell, or at the end: a new change.
    pub fn write_put(&mut self, author: u32, at: usize, style: u32, letters: &[u8])
        requires place { at ≤ length (paper_in self.old).cells }
        requires few { length letters.now ≤ 1024 }
        requires fits { length (paper_in self.old).cells + length letters.now ≤ slice_index self.old.pieces.now 0 }
        requires room { slice_index self.old.pieces.now 3 < slice_index self.old.pieces.now 1 }
        ensures { Writes self.old self.new (rewritten (paper_in self.old) (puts author at style letters.now)) }
    {
        let number = self.pieces[3];
        cells::insert(self.cells, self.pieces, at, letters, style, number);
        self.add_change(author);
    }

    /// An author strikes out cells, from one on: a new change.
    pub fn write_strike(&mut self, author: u32, at: usize, count: usize)
        requires within { at + count ≤ length (paper_in self.old).cells }
        requires room { slice_index self.old.pieces.now 3 < slice_index self.old.pieces.now 1 }
        ensures { Writes self.old self.new (rewritten (paper_in self.old) (strikes author at count)) }
    {
        let action = Action::Strike {
            author,
            mark: self.pieces[3] + 1,
        };
        cells::sweep_run(self.cells, self.pieces, at, count, action);
        self.add_change(author);
    }

    /// Cells from one on get a style.
    pub fn write_style(&mut self, at: usize, count: usize, style: u32)
        requires { at + count ≤ length (paper_in self.old).cells }
        ensures { Writes self.old self.new (rewritten (paper_in self.old) (styles at count style)) }
    {
        let action = Action::Style { style };
        cells::sweep_run(self.cells, self.pieces, at, count, action);
    }

    /// A change is accepted or rejected.
    pub fn write_verdict(&mut self, change: u32, verdict: Verdict)
        requires { change < slice_index self.old.pieces.now 3 }
        ensures { Writes self.old self.new (rewritten (paper_in self.old) (decided verdict change)) }
    {
        let action = match verdict {
            Verdict::Accepted => Action::Accept { change },
            Verdict::Rejected => Action::Reject { change },
        };
        cells::sweep_all(self.cells, self.pieces, action);
        self.judge(change, u32::from(verdict));
    }
}
