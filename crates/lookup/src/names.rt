// Names, and at each what lines say of it.
ghost use Rattle.std.specs.Prelude.{◌≡◌, ℕ, List, [], ◌∷◌, ◌++◌, length, Option, IfSome, IsSome};
ghost use Rattle.kallsyms.specs.Line.{number_after};
ghost use Rattle.lookup.specs.Says.{Says};
ghost use Rattle.lookup.specs.declared.sighting.Sighting.{Sighting};
ghost use Rattle.lookup.specs.LookedUp.{sighting_of, MapHolds, MapKeeps, map_kept, map_has};

use crate::scan::{note_line, unlist};
use crate::sighting::Sighting;
use std::collections::BTreeMap;

/// Names, and at each what lines say of it.
pub trait Names {
    // That each name has what these lines say of it.
    ghost holds: { List (List ℕ) → Self → Type 0 };

    // That the second has the names of the first.
    ghost keeps: { Self → Self → Type 0 };

    /// Leaves every name unlisted, which is what no lines say of it.
    fn unlist(&mut self)
        ensures says { holds [] self.new }
        ensures names { keeps self.old self.new };

    /// Takes one line more into what is said of the names that it lists.
    fn note(&mut self, line_number: u64, line: &[u8])
        ensures says { (ls : List (List ℕ)) → line_number ≡ number_after (length ls) → holds ls self.old → holds (ls ++ line.now ∷ []) self.new }
        ensures names { keeps self.old self.new };

    // Names that are kept twice are kept.
    ghost kept: { (a b c : Self) → keeps a b → keeps b c → keeps a c };
}

/// Names of which one can ask what is said.
pub trait NameMap: Names {
    // What is said of the name with these bytes, if it is there.
    ghost said: { Self → List ℕ → Option Sighting };

    /// What is said of a name, if it is there.
    fn said(&self, name: &[u8]) -> Option<Sighting>
        ensures { result ≡ said self.now name.now };

    // Of each name that is there it says what the lines do that it holds.
    ghost says: { (ls : List (List ℕ)) (m : Self) → Self.holds ls m → (name : List ℕ) → IfSome (said m name) (Says ls name) };

    // A name that is kept is still there.
    ghost has: { (a b : Self) → Self.keeps a b → (name : List ℕ) → IsSome (said a name) → IsSome (said b name) };
}

/// The names that a map has.
impl Names for BTreeMap<&[u8], Sighting> {
    ghost holds = { MapHolds };

    ghost keeps = { MapKeeps };

    ghost kept = { map_kept };

    fn unlist(&mut self) {
        unlist(self);
    }

    fn note(&mut self, line_number: u64, line: &[u8]) {
        note_line(self, line_number, line);
    }
}

impl NameMap for BTreeMap<&[u8], Sighting> {
    ghost said = { sighting_of };

    ghost says = { λ ls m held. held };

    ghost has = { map_has };

    fn said(&self, name: &[u8]) -> Option<Sighting> {
        self.get(name).copied()
    }
}
