// Why a shelf refuses a call.
pub mod numbers;

#[derive(Clone, Copy, PartialEq, Eq, Debug)]
pub enum Refusal {
    // The place is not below the number of places.
    NoSuchPlace,
    // The variable is not 1 to the highest.
    NoSuchVariable,
    // The variable stands there already, in either sign.
    VariableStands,
    // The place has as many literals as the longest clause.
    ClauseFull,
}
