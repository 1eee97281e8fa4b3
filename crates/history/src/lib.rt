// What can be undone and done again: not whole papers, but an entry for each call that wrote, and what holds of entries (specs/).
#![tactic(auto)]

ghost use Rattle.history.specs.Entry.{UndoBringsBack, RedoDoesAgain, CountsAsMuch, UndoFinds};
ghost use Rattle.history.specs.Steps.{KeptRemembered, KeptWithin, KeptAll, KeptForgets, Opens, WriteSteps, UndoSteps, RedoSteps, UndoTurned, RedoTurned, TurnedKeeps, LookingKeeps, AlwaysStands};
ghost use Rattle.history.specs.Words.{ReadsBack, OneEntry, EntryLong, LogLong, OneLog, LogBack, LogAhead, LogForgets, LogDrops, LogPushes, LogMoves};

pub mod entry;
pub mod log;

// An entry brings back the paper before its call, does the call again, and counts one and the cells that the call was about.
// Undo finds the cells and the change that it needs.
pub fn undo_brings_back()
    ensures undo { UndoBringsBack }
    ensures redo { RedoDoesAgain }
    ensures counts { CountsAsMuch }
    ensures finds { UndoFinds }
{}

// What is kept of the entries is what the desk remembers: the oldest are forgotten until the rest counts no more than the limit.
pub fn kept_is_remembered()
    ensures same { KeptRemembered }
    ensures within { KeptWithin }
    ensures all { KeptAll }
    ensures forgets { KeptForgets }
{}

// A paper and its entries stand for a desk, from the empty one on, over every call.
pub fn entries_stand()
    ensures opens { Opens }
    ensures write { WriteSteps }
    ensures undo { UndoSteps }
    ensures redo { RedoSteps }
    ensures nothing_behind { UndoTurned }
    ensures nothing_ahead { RedoTurned }
    ensures turned { TurnedKeeps }
    ensures looking { LookingKeeps }
    ensures always { AlwaysStands }
{}

// An entry is read back from its words in one way only, and these are at most 8 for each that it counts.
pub fn words_read_back()
    ensures reads { ReadsBack }
    ensures one { OneEntry }
    ensures long { EntryLong }
{}

// A log is stepped over by the sizes at both ends of each entry, forgets the oldest at its start, grows at its cursor, and can be moved.
pub fn log_steps()
    ensures long { LogLong }
    ensures one { OneLog }
    ensures back { LogBack }
    ensures ahead { LogAhead }
    ensures forgets { LogForgets }
    ensures drops { LogDrops }
    ensures pushes { LogPushes }
    ensures moves { LogMoves }
{}
