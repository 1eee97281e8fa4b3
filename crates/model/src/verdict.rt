// How a change is decided.
ghost use Rattle.std.specs.Prelude.{◌≡◌};
ghost use Rattle.model.specs.Values.{verdict_number};

#[derive(Clone, Copy, Debug, PartialEq, Eq, Hash)]
pub enum Verdict {
    Accepted,
    Rejected,
}

/// The number that says what became of a change which is decided.
impl From<Verdict> for u32 {
    ghost from_gives = { λ verdict n. n ≡ verdict_number verdict };

    fn from(verdict: Verdict) -> u32 {
        match verdict {
            Verdict::Accepted => 1,
            Verdict::Rejected => 2,
        }
    }
}
