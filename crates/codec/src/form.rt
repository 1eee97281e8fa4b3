// The five forms of an answer: the first byte says which it is.
ghost use Rattle.std.specs.Prelude.{◌≡◌};
ghost use Rattle.codec.specs.Kinds.{form_number};

/// The forms in the order of their bytes: the first three have up to two numbers.
#[derive(Clone, Copy, Debug, PartialEq, Eq, Hash)]
pub enum Form {
    Refused,
    Number,
    Two,
    Rows,
    Numbers,
}

// The first bytes are numbers here, and in `text`, which writes lines of them.
impl From<Form> for u8 {
    ghost from_gives = { λ form byte. byte ≡ form_number form };

    fn from(form: Form) -> u8 {
        match form {
            Form::Refused => 0,
            Form::Number => 1,
            Form::Two => 2,
            Form::Rows => 3,
            Form::Numbers => 4,
        }
    }
}
