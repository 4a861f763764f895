// Two places of one shelf side by side.
ghost use Rattle.std.specs.Prelude.{◌≡◌};
ghost use Rattle.rules.specs.Clauses.{same_codes};
ghost use Rattle.shelf.specs.View.{clause};

use shelf::store::Shelf;

// Whether the places hold equal clauses. By a loop: with a closure for `all` it takes twice the
// time on rows, where clauses are long.
pub fn same_clause<S: Shelf>(shelf: &S, i: usize, j: usize) -> bool
    ensures { S.fine shelf.now → result ≡ same_codes (clause (S.view shelf.now) i) (clause (S.view shelf.now) j) }
{
    let n = shelf.size(i);
    if n != shelf.size(j) {
        return false;
    }
    for k in 0..n {
        if shelf.literal(i, k).code != shelf.literal(j, k).code {
            return false;
        }
    }
    true
}
