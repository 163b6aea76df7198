// Theorems about the definitions that the contracts of this crate cite: each function's contract is one.
ghost use Rattle.lookup.specs.Laws.{ListsSayOneThing, OneLineMore};

/// A list says at most one thing of a name, so the contract of a lookup leaves it one answer.
#[tactic(auto, using(crate::proofs::Alone::once))]
pub fn lists_say_one_thing()
    ensures { ListsSayOneThing }
{}

/// What a sighting becomes by one line more that lists the name is what the lines with that one say.
pub fn one_line_more()
    ensures { OneLineMore }
{}
