// The defining of a variable: its results placed.
ghost use Rattle.clauses.specs.Codes.{codes as literal_codes};
ghost use Rattle.rules.specs.Results.{defining};
ghost use Rattle.results.specs.Definition.{Definable};
ghost use Rattle.results.specs.Placing.{Framed, Placed};

use crate::definition::Definition;
use crate::placing::place_all;
use clauses::given::copy_codes;
use shelf::literal::Literal;
use shelf::places::ClauseCodes;
use shelf::store::Shelf;

// Places the results of defining the variable by the literals from `to` on, each
// with the cell m. Where they may not be placed the shelf is still in order after,
// and nothing but what is held and the cells may have changed.
pub fn place_define<S: Shelf, C: Copy>(
    shelf: &mut S,
    cells: &mut [C],
    variable: u16,
    literals: &[Literal],
    to: usize,
    m: C,
)
    ensures did { S.fine shelf.old → Definable (S.view shelf.old) variable (literal_codes literals.now) → Placed (S.fine shelf.new) (S.view shelf.old) (S.view shelf.new) to (defining variable (literal_codes literals.now)) m cells.old cells.new }
    ensures framed { S.fine shelf.old → Framed (S.fine shelf.new) (S.view shelf.old) (S.view shelf.new) }
{
    let mut definition = Definition {
        variable,
        literals: ClauseCodes::new(),
    };
    copy_codes(literals, &mut definition.literals);
    place_all(shelf, cells, &definition, to, m);
}
