// Laws on letters: how they stand in rows, where they are found, and where they come from. Each law is the contract of a function.
ghost use Rattle.model.specs.Origin.{NothingFromNowhere};
ghost use Rattle.model.specs.Promise.{FoundFirst, LettersKept, NotEarlier, NotFound, RowsFit};
ghost use Rattle.model.specs.Worked.{WorkedPapers};

// Every letter stands on a row, in order, but for ends of paragraphs and spaces at which a row was broken.
pub fn letters_kept()
    ensures { LettersKept }
{}

// No row is longer than the width.
pub fn rows_fit()
    ensures { RowsFit }
{}

// No row could have gone to a later space.
pub fn not_earlier()
    ensures { NotEarlier }
{}

// What is found stands there and nowhere earlier.
pub fn found_first()
    ensures { FoundFirst }
{}

// What is not found stands nowhere.
pub fn not_found()
    ensures { NotFound }
{}

// Each letter of a paper was put in by a call that was not turned away.
pub fn nothing_from_nowhere()
    ensures { NothingFromNowhere }
{}

// A paper of three people, as it is seen in each way to look after each one's change.
pub fn worked_papers()
    ensures { WorkedPapers }
{}
