// There is a keeper that does what the contracts of the session say, so that its main promise is not empty.
#![tactic(auto)]

ghost use Rattle.session.specs.Keeping.{SomeKeeper};

/// There is a keeper that does what the contracts say.
pub fn some_keeper()
    ensures { SomeKeeper }
{}
