// The rules of the bench. Everything here is a definition in specs/, for a
// reader to believe; the functions only hold what is proved about them.

#![tactic(auto)]

ghost use Rattle.rules.specs.Examples.{Examples};
ghost use Rattle.rules.specs.Laws.{OnlyHeld, ShownCost};

// The worked examples, by computation.
pub fn examples_stand()
    ensures { Examples }
{}

// A shown plan's cost is what the clauses on the shelf say; and no call changes a
// shelf's measures or its remainder.
pub fn rules_stand()
    ensures shown { ShownCost }
    ensures held { OnlyHeld }
{}
