// The number that a refusal is told by. No `From`: a `u8::from` would not say what the `u8` is.
ghost use Rattle.std.specs.Prelude.{◌≡◌};
ghost use Rattle.shelf.specs.Answers.{number_of};

use crate::refusal::Refusal;

impl Refusal {
    pub fn number(self) -> u8
        ensures { result ≡ number_of self }
    {
        match self {
            Refusal::NoSuchPlace => 81,
            Refusal::NoSuchVariable => 82,
            Refusal::VariableStands => 83,
            Refusal::ClauseFull => 84,
        }
    }
}
