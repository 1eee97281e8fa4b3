// Striking out, styles, accepting, rejecting, and asking for a change.
ghost use Rattle.std.specs.Prelude.{◌≡◌, ◌+◌, true, false, Some, None, nat_le};

use crate::desk::Desk;
use crate::{Refusal, recording};
use codec::Answer;
use model::Verdict;

/// Where a run of cells begins, if all of it is there. A run of none may begin at the end.
/// A place and how many, as calls have them: a range would be made only to be taken apart.
pub fn run_in(total: usize, place: u32, count: u32) -> Option<usize>
    ensures { elim result [ Some at ↦ (at ≡ place) × (nat_le (place + count) total ≡ true) | None ↦ nat_le (place + count) total ≡ false ] }
{
    if place as usize + count as usize <= total {
        Some(place as usize)
    } else {
        None
    }
}

impl<'a> Desk<'a> {
    ghost use Rattle.model.specs.Calls.{change as asks, good_fields, strikes, styles};
    ghost use Rattle.recorder.specs.Records.{decided};
    ghost use Rattle.session.specs.Desks.{Acts, InOrder, Looks};
    ghost use Rattle.session.specs.Refusals.{outcome};

    /// An author strikes out cells, from one on: a new change, whose number is the answer.
    pub fn strike(&mut self, author: u32, place: u32, count: u32) -> Result<Answer, Refusal>
        requires sound { InOrder self.old }
        requires good { good_fields (strikes author place count) ≡ true }
        ensures { Acts self.old self.new (strikes author place count) (outcome result) }
    {
        let total = self.count_cells();
        let Some(at) = run_in(total, place, count) else {
            return Err(Refusal::NoSuchCells { field: 1 });
        };
        let number = self.room(total)?;
        // Lent again by hand, here and below: of a field that is lent to be read, nothing is known after that.
        let cells = &mut *self.cells;
        let pieces = &mut *self.pieces;
        recording::strike(cells, pieces, self.undo, author, place, count);
        self.write_strike(author, at, count as usize);
        Ok(Answer::Number(number))
    }

    /// Cells from one on get a style; how many is the answer.
    pub fn style(&mut self, place: u32, count: u32, style: u32) -> Result<Answer, Refusal>
        requires sound { InOrder self.old }
        requires good { good_fields (styles place count style) ≡ true }
        ensures { Acts self.old self.new (styles place count style) (outcome result) }
    {
        let total = self.count_cells();
        let Some(at) = run_in(total, place, count) else {
            return Err(Refusal::NoSuchCells { field: 0 });
        };
        let cells = &mut *self.cells;
        let pieces = &mut *self.pieces;
        recording::style(cells, pieces, self.undo, place, count, style);
        self.write_style(at, count as usize, style);
        Ok(Answer::Number(count))
    }

    /// Of a change its author and what became of it.
    pub fn ask(&self, change: u32) -> Result<Answer, Refusal>
        ensures { Looks self.now (asks change) (outcome result) }
    {
        let found = self.find_change(change)?;
        Ok(Answer::Two(found.author, found.became))
    }

    /// A change is accepted or rejected; how many cells had its mark before is the answer.
    pub fn decide(&mut self, change: u32, verdict: Verdict) -> Result<Answer, Refusal>
        requires { InOrder self.old }
        ensures { Acts self.old self.new (decided verdict change) (outcome result) }
    {
        let found = self.find_change(change)?;
        if found.became != 0 {
            return Err(Refusal::NotOpen);
        }
        let marked = self.touched(change);
        let cells = &mut *self.cells;
        let pieces = &mut *self.pieces;
        recording::decision(cells, pieces, self.undo, change, verdict, marked);
        self.write_verdict(change, verdict);
        Ok(Answer::Number(marked))
    }
}
