// The laws of figures, held by contracts so that the crate fails without their
// proofs.
ghost use Rattle.cost.specs.Laws.{ExactFigures, ReachTells};

// Exact figures are an ordered commutative group at each number of tiers.
pub fn figures_stand()
    ensures { ExactFigures }
{}

// The tests of reach tell the first tier that is out of reach, and none else.
pub fn reach_stands()
    ensures { ReachTells }
{}
