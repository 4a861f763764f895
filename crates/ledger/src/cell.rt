// A cell of the ledger: the clause at its place must be met, or leaving it unmet
// costs an amount. An enum of its own and no Option: a hard clause lacks no amount, and each
// case has the word that the rules have for it.
ghost use Rattle.ledger.specs.Meaning.{ForSoft, IsMapped};

#[derive(Clone, Copy, PartialEq, Eq, Debug)]
pub enum Cell<R> {
    Hard,
    Soft(R),
}

impl<R> Cell<R> {
    // The cell with what f makes of its amount; a hard one stays hard.
    pub(crate) fn map<T, F: FnOnce(R) -> T>(self, f: F) -> Cell<T>
        requires { ForSoft self (F.pre f) }
        ensures { IsMapped (F.post f) self result }
    {
        match self {
            Cell::Hard => Cell::Hard,
            Cell::Soft(a) => Cell::Soft(f(a)),
        }
    }
}
