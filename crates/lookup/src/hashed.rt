// The names of a hash map.
ghost use Rattle.std.specs.Prelude.{◌≡◌, ℕ, List, [], IfSome, IfOk, OnOk};
ghost use Rattle.std.specs.HashMap.{keys};
ghost use Rattle.lookup.specs.Hashed.{HashHolds, HashKeeps, HashAdds, HashAsked, HashNotes, hash_kept, hash_has, sighting_in};

use crate::names::{NameMap, Names};
use crate::sighting::Sighting;
use kallsyms::address::read_address;
use kallsyms::fields::Fields;
use std::alloc::{AllocError, Global};
use std::collections::HashMap;

// Puts a name into a map, unlisted.
fn ask<'a>(sightings: &mut HashMap<&'a [u8], Sighting>, name: &'a [u8]) -> Result<(), AllocError>
    ensures { OnOk result (HashAdds name.now sightings.old sightings.new) }
{
    sightings.insert(name, Sighting::Unlisted)?;
    Ok(())
}

/// A hash map that has each of these names, unlisted, and no others.
// Its hash has a fixed seed: with names chosen to collide, to make it takes up to names × names, where `asked` compares no two names.
#[tactic(auto, using(crate::proofs::Asking::one_more))]
pub fn hashed(heap: Global, names: &[String]) -> Result<HashMap<&[u8], Sighting>, AllocError>
    ensures { IfOk result (λ m. HashAsked names.now m) }
{
    let mut sightings = HashMap::with_capacity(heap, names.len())?;
    for name in names {
        ask(&mut sightings, name.as_bytes())?;
    }
    Ok(sightings)
}

// Takes one line more into what is said of the name that it lists.
fn note_line(sightings: &mut HashMap<&[u8], Sighting>, line_number: u64, line: &[u8])
    ensures { HashNotes line_number line.now sightings.old sightings.new }
{
    let Some(fields) = Fields::of(line) else {
        return;
    };
    if let Some(sighting) = sightings.get_mut(fields.name().bytes) {
        *sighting = sighting.after(line_number, read_address(fields.address().bytes));
    }
}

// Leaves every name unlisted, which is what no lines say of it.
fn unlist(sightings: &mut HashMap<&[u8], Sighting>)
    ensures names { keys sightings.new ≡ keys sightings.old }
    ensures says { HashHolds [] sightings.new }
{
    // By `retain`, as for a sorted map.
    sightings.retain(|_, sighting| {
        *sighting = Sighting::Unlisted;
        true
    });
}

/// The names that a hash map has.
impl Names for HashMap<&[u8], Sighting> {
    ghost holds = { HashHolds };

    ghost keeps = { HashKeeps };

    ghost kept = { hash_kept };

    fn unlist(&mut self) {
        unlist(self);
    }

    fn note(&mut self, line_number: u64, line: &[u8]) {
        note_line(self, line_number, line);
    }
}

impl NameMap for HashMap<&[u8], Sighting> {
    ghost said = { sighting_in };

    ghost says = { λ ls m held. held };

    ghost has = { hash_has };

    fn said(&self, name: &[u8]) -> Option<Sighting> {
        self.get(name).copied()
    }
}
