// The results of defining a variable as "some of these literals is true": first
// the opposite of the variable with all the literals, then the variable with the
// opposite of each literal in turn.
ghost use Rattle.results.specs.Definition.{definition_of};

use crate::codes::{ResultCodes, put};
use crate::listed::Listed;
use shelf::literal::Literal;
use shelf::places::ClauseCodes;

// The variable, and the codes of the literals of which one must be true for it to be.
#[derive(Drop)]
pub(crate) struct Definition {
    pub variable: u16,
    pub literals: ClauseCodes,
}

impl Listed for Definition {
    ghost listed = { definition_of };

    // One for all literals, and one for each.
    fn count(&self) -> usize {
        1 + self.literals.len()
    }

    // All literals first, then each in turn.
    fn result(&self, t: usize, codes: &mut ResultCodes) {
        let Some(k) = t.checked_sub(1) else {
            return put(&self.literals, Literal::not(self.variable).code, codes);
        };
        let Some(code) = self.literals.get(k) else {
            return codes.clear();
        };
        let turned = Literal { code: *code }.opposite().code;
        put(&[turned], Literal::of(self.variable).code, codes);
    }
}
