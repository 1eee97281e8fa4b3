// The laws of changes: each is the contract of a function, and holds of every paper.
ghost use Rattle.model.specs.Valid.{ValidPapers};
ghost use Rattle.model.specs.Faults.{AllMarksGone, StrikeThenReject, PutThenReject, NothingToRedo};
ghost use Rattle.model.specs.Orders.{AnyListOrder};
ghost use Rattle.model.specs.Promise.{OneReading, AnyOrder, AsIf, AsItWas, Undone, TurnedAway};

// A file is read in one way only.
pub fn one_reading()
    ensures { OneReading }
{}

// It does not matter in which order two changes are decided.
pub fn any_order()
    ensures { AnyOrder }
{}

// When all open changes were accepted, or all rejected, what there is is what was seen as if they were.
pub fn as_if()
    ensures { AsIf }
{}

// The paper as it was stays: no call but accept, undo and redo changes a letter that is seen as if all open changes were rejected.
pub fn as_it_was()
    ensures { AsItWas }
{}

// Undo brings back the paper as it was, and redo the paper that was undone.
pub fn undone()
    ensures { Undone }
{}

// A call that is turned away changes nothing that can be told afterwards.
pub fn turned_away()
    ensures { TurnedAway }
{}

// It does not matter in which order any list of distinct changes is decided.
pub fn any_list_order()
    ensures { AnyListOrder }
{}

// Once a change is decided, no cell has its mark.
pub fn all_marks_gone()
    ensures { AllMarksGone }
{}

// A strike at letters of others that is rejected leaves every cell as it was: what was struck out before stays with the first strike.
pub fn strike_then_reject()
    ensures { StrikeThenReject }
{}

// Letters that are put in and rejected leave every cell as it was.
pub fn put_then_reject()
    ensures { PutThenReject }
{}

// After a call that writes there is nothing to redo.
pub fn nothing_to_redo()
    ensures { NothingToRedo }
{}

// Every paper that calls make fits the limits, and every mark in it is of an open change.
pub fn valid_papers()
    ensures { ValidPapers }
{}
