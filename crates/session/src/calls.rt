// A call that could be read: it is done, or refused. The checks run in the order of the refusals' numbers.
ghost use Rattle.std.specs.Prelude.{◌≡◌, ◌≤◌, true, false, length};
ghost use Rattle.model.specs.Calls.{count as counts, find as finds, good_fields, number, put as puts, save as saves, show as shows};
ghost use Rattle.model.specs.Values.{way_number};
ghost use Rattle.codec.specs.Values.{meaning};
ghost use Rattle.session.specs.Range.{is_long};

use crate::cells::keep;
use crate::deciding::run_in;
use crate::desk::Desk;
use crate::{Refusal, range};
use codec::{Answer, Call};
use model::{Verdict, Way};

/// Which rows are shown: in which way to look, how wide, from which on, how many.
#[derive(Clone, Copy, Debug, PartialEq, Eq, Hash)]
pub struct Rows {
    pub way: Way,
    pub width: u32,
    pub first: u32,
    pub count: u32,
}

impl<'a> Desk<'a> {
    ghost use Rattle.session.specs.Desks.{Acts, InOrder, Looks, Serves, Tells};
    ghost use Rattle.session.specs.Refusals.{outcome};

    /// Does a call, or refuses it. The answer is written into the first bytes of `answer`, and how many those are is returned.
    pub fn serve(&mut self, call: Call, letters: &[u8], answer: &mut [u8]) -> Result<usize, Refusal>
        requires sound { InOrder self.old }
        requires room { 262405 ≤ length answer.old }
        ensures { Serves self.old self.new (meaning call letters.now) answer.old answer.new result }
    {
        if !range::within(call, letters) {
            return Err(Refusal::OutOfRange);
        }
        match call {
            Call::Show {
                way,
                width,
                row,
                count,
            } => {
                let way = Way::try_from(way)?;
                let rows = Rows {
                    way,
                    width,
                    first: row,
                    count,
                };
                self.show(rows, answer)
            }
            Call::Save { from, count } => self.save(from, count, answer),
            _ => {
                let short = self.act(call, letters)?;
                Ok(codec::write(short, answer))
            }
        }
    }

    /// Does a call in range whose answer is short, or refuses it.
    /// (That the numbers are in range is asked of the fields of each call, here and below: a type for a call in range would be taken apart at once.)
    fn act(&mut self, call: Call, letters: &[u8]) -> Result<Answer, Refusal>
        requires sound { InOrder self.old }
        requires good { good_fields (meaning call letters.now) ≡ true }
        requires short { is_long call ≡ false }
        ensures { Acts self.old self.new (meaning call letters.now) (outcome result) }
    {
        match call {
            Call::Put {
                author,
                place,
                style,
            } => self.put(author, place, style, letters),
            Call::Strike {
                author,
                place,
                count,
            } => self.strike(author, place, count),
            Call::Accept { change } => self.decide(change, Verdict::Accepted),
            Call::Reject { change } => self.decide(change, Verdict::Rejected),
            Call::Style {
                place,
                count,
                style,
            } => self.style(place, count, style),
            Call::Count { way } => {
                let way = Way::try_from(way)?;
                Ok(Answer::Number(self.count(way)))
            }
            Call::Change { change } => self.ask(change),
            Call::Undo => self.undo(),
            Call::Redo => self.redo(),
            Call::Find { way, from } => {
                let way = Way::try_from(way)?;
                Ok(Answer::Number(self.find(way, from, letters)))
            }
            Call::Show { .. } | Call::Save { .. } => unreachable!(),
        }
    }

    /// An author puts letters before a cell, or at the end: a new change, whose number is the answer.
    fn put(
        &mut self,
        author: u32,
        place: u32,
        style: u32,
        letters: &[u8],
    ) -> Result<Answer, Refusal>
        requires sound { InOrder self.old }
        requires good { good_fields (puts author place style letters.now) ≡ true }
        ensures { Acts self.old self.new (puts author place style letters.now) (outcome result) }
    {
        let count = self.count_cells();
        let Some(at) = run_in(count, place, 0) else {
            return Err(Refusal::NoSuchCells { field: 1 });
        };
        let number = self.room(count + letters.len())?;
        let limit = self.pieces[2];
        recorder::put(self.undo, limit, author, place, style, letters);
        self.write_put(author, at, style, letters);
        Ok(Answer::Number(number))
    }

    /// How many letters are seen in a way to look.
    fn count(&self, way: Way) -> u32
        ensures { Looks self.now (counts (way_number way)) (number result) }
    {
        self.text().seen(way) as u32
    }

    /// One more than the place in a way to look at which the letters first stand, at or after `from`; or 0.
    fn find(&self, way: Way, from: u32, letters: &[u8]) -> u32
        requires { good_fields (finds (way_number way) from letters.now) ≡ true }
        ensures { Looks self.now (finds (way_number way) from letters.now) (number result) }
    {
        match search::find(&self.text(), way, from, letters) {
            Some(place) => place + 1,
            None => 0,
        }
    }

    /// Numbers of the paper's file, from one on: the whole answer is written, and its length is returned.
    fn save(&self, from: u32, count: u32, answer: &mut [u8]) -> Result<usize, Refusal>
        requires sound { InOrder self.now }
        requires good { good_fields (saves from count) ≡ true }
        requires room { 262405 ≤ length answer.old }
        ensures { Tells self.now (saves from count) answer.old answer.new result }
    {
        saving::save(&self.text(), &self.row(), from, count, answer).ok_or(Refusal::NoSuchNumbers)
    }

    /// Rows of a width in a way to look: the whole answer is written, and its length is returned. Where rows that are shown had to be found anew, it is kept how.
    fn show(&mut self, rows: Rows, answer: &mut [u8]) -> Result<usize, Refusal>
        requires sound { InOrder self.old }
        requires good { good_fields (shows (way_number rows.way) rows.width rows.first rows.count) ≡ true }
        requires room { 262405 ≤ length answer.old }
        ensures { Serves self.old self.new (shows (way_number rows.way) rows.width rows.first rows.count) answer.old answer.new result }
    {
        // Apart again, as the contract of `layout::show` speaks of each of them.
        let Some(showing) = layout::show(
            &self.text(),
            rows.way,
            rows.width,
            rows.first,
            rows.count,
            answer,
        ) else {
            return Err(Refusal::NoSuchRows);
        };
        if showing.anew {
            keep(self.cells, self.pieces, rows);
        }
        Ok(showing.long)
    }
}
