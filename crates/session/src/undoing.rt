// Undo and redo: the latest call that wrote is taken back by its entry in the log, and done again from it.
ghost use Rattle.std.specs.Prelude.{◌≡◌, ◌+◌, ◌-◌, ◌<◌, ◌≤◌, true, length, take, drop, slice_index};
ghost use Rattle.history.specs.Entry.{call_of, undo_of};
ghost use Rattle.history.specs.declared.entry.Kind.TheVariants.{Put};
ghost use Rattle.model.specs.Calls.{good_letters, redo as redoes, rewritten, turned, undo as undoes};

use crate::desk::Desk;
use crate::{Refusal, cells};
use codec::Answer;
use history::entry::{self, HEAD, Head, Kind};
use history::log;
use model::Verdict;

/// The most letters of a put.
const LETTERS: usize = 1024;

impl<'a> Desk<'a> {
    ghost use Rattle.session.specs.Acts.{desk_of, with_changes};
    ghost use Rattle.session.specs.Desks.{Acts, InOrder, Writes, paper_in};
    ghost use Rattle.session.specs.Memory.{limits_of};
    ghost use Rattle.session.specs.Refusals.{outcome};
    ghost use Rattle.session.specs.Undoing.{CanRedo, CanUndo, RowCan, call_again, entry_in, row_back};

    /// The latest call that wrote is undone; how many there were to undo is the answer.
    pub fn undo(&mut self) -> Result<Answer, Refusal>
        requires { InOrder self.old }
        ensures { Acts self.old self.new undoes (outcome result) }
    {
        // Lent again by hand, here and below: of a field that is lent to be read, nothing is known after that.
        let undo = &mut *self.undo;
        let behind = log::behind(undo);
        if behind == 0 {
            return Err(Refusal::NothingToUndo);
        }
        let at = log::step_back(undo);
        self.take_back(at);
        Ok(Answer::Number(behind as u32))
    }

    /// What was undone last is done again; how many there were to do again is the answer.
    pub fn redo(&mut self) -> Result<Answer, Refusal>
        requires { InOrder self.old }
        ensures { Acts self.old self.new redoes (outcome result) }
    {
        let undo = &mut *self.undo;
        let ahead = log::ahead(undo);
        if ahead == 0 {
            return Err(Refusal::NothingToRedo);
        }
        let at = log::step_ahead(undo);
        self.do_again(at);
        Ok(Answer::Number(ahead as u32))
    }

    /// The call of the entry at word `at` of the log is taken back.
    fn take_back(&mut self, at: usize)
        requires { CanUndo self.old.cells.now self.old.pieces.now self.old.undo.now at }
        ensures { Writes self.old self.new (undo_of (entry_in self.old.undo.now at) (paper_in self.old)) }
    {
        let undo = &mut *self.undo;
        let head = entry::read_head(undo, at);
        cells::take_back(self.cells, self.pieces, undo, at);
        self.take_back_change(head.kind, head.who);
    }

    /// What such a call did to the row of changes is taken back: the change that it made goes, or the one that it decided is open again.
    fn take_back_change(&mut self, kind: Kind, who: u32)
        requires { RowCan kind who (slice_index self.old.pieces.now 3) }
        ensures { Writes self.old self.new (with_changes (paper_in self.old) (row_back kind who (paper_in self.old).changes)) }
    {
        match kind {
            Kind::Put | Kind::Strike => self.drop_change(),
            Kind::Accept | Kind::Reject => self.judge(who, 0),
            Kind::Style => {}
        }
    }

    /// The call of the entry at word `at` of the log is done again.
    fn do_again(&mut self, at: usize)
        requires { CanRedo self.old.cells.now self.old.pieces.now self.old.undo.now at }
        ensures { Writes self.old self.new (rewritten (paper_in self.old) (call_of (entry_in self.old.undo.now at))) }
    {
        let undo = &mut *self.undo;
        let head = entry::read_head(undo, at);
        self.again(head, at + HEAD);
    }

    /// The call with this head is done again; if it is a put, its letters stand in the log from word `from` on.
    fn again(&mut self, head: Head, from: usize)
        requires some { 1 ≤ head.count }
        requires inside { from + (head.count - 1) ≤ length self.old.undo.now }
        requires allowed { turned (limits_of self.old.pieces.now) (desk_of self.old.cells.now self.old.pieces.now) (call_again head.kind head (take (head.count - 1) (drop from self.old.undo.now))) ≡ 0 }
        ensures { Writes self.old self.new (rewritten (paper_in self.old) (call_again head.kind head (take (head.count - 1) (drop from self.old.undo.now)))) }
    {
        let n = head.count as usize - 1;
        let place = head.place as usize;
        match head.kind {
            Kind::Put => self.put_again(head, from, n),
            Kind::Strike => self.write_strike(head.who, place, n),
            Kind::Accept => self.write_verdict(head.who, Verdict::Accepted),
            Kind::Reject => self.write_verdict(head.who, Verdict::Rejected),
            Kind::Style => self.write_style(place, n, head.style),
        }
    }

    /// The `n` letters that stand in the log from word `from` on are put in again.
    fn put_again(&mut self, head: Head, from: usize, n: usize)
        requires inside { from + n ≤ length self.old.undo.now }
        requires allowed { turned (limits_of self.old.pieces.now) (desk_of self.old.cells.now self.old.pieces.now) (call_again Put head (take n (drop from self.old.undo.now))) ≡ 0 }
        ensures { Writes self.old self.new (rewritten (paper_in self.old) (call_again Put head (take n (drop from self.old.undo.now)))) }
    {
        let undo = &mut *self.undo;
        let letters = letters_at(undo, from, n);
        self.write_put(head.who, head.place as usize, head.style, &letters[..n]);
    }
}

/// The `n` letters that stand in the log from word `from` on, as bytes.
fn letters_at(undo: &[u32], from: usize, n: usize) -> [u8; LETTERS]
    requires inside { from + n ≤ length undo.now }
    requires few { n ≤ 1024 }
    requires good { good_letters (take n (drop from undo.now)) ≡ true }
    ensures { take n result ≡ take n (drop from undo.now) }
{
    let mut letters = [0; LETTERS];
    copy_letters(&undo[from..from + n], &mut letters);
    letters
}

/// Letters that have a word each, as bytes.
fn copy_letters(words: &[u32], letters: &mut [u8])
    requires room { length words.now ≤ length letters.old }
    requires good { good_letters words.now ≡ true }
    ensures { take (length words.now) letters.new ≡ words.now }
{
    // An index, as nothing says what `letters` are after a loop over `iter_mut().zip(words)`.
    for (i, word) in words.iter().enumerate() {
        letters[i] = *word as u8;
    }
}
