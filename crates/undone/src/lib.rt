// Undo and redo on the session's own functions: what memory stands for after a call that wrote, undo and redo.
#![tactic(auto)]

ghost use Rattle.undone.specs.Steps.{UndoBringsBack, RedoDoesAgain};

/// Undo after a call that wrote, and that counts no more than the limit, leaves memory that stands for the paper before that call, and redo after it for the
/// paper after it.
pub fn undo_and_redo()
    ensures undo { UndoBringsBack }
    ensures redo { RedoDoesAgain }
{}
