// One reading of a list for several names.
ghost use Rattle.std.specs.Prelude.{◌≡◌, ℕ, List, [], IfSome, IfOk, OnOk};
ghost use Rattle.std.specs.BTreeMap.{keys};
ghost use Rattle.lookup.specs.Asked.{Adds, Asked};
ghost use Rattle.lookup.specs.LookedUp.{LookedUp, sighting_of};
ghost use Rattle.lookup.specs.Noted.{Notes};
ghost use Rattle.lookup.specs.Says.{Says};

use crate::names::Names;
use crate::sighting::Sighting;
use kallsyms::address::read_address;
use kallsyms::ends::End;
use kallsyms::fields::Fields;
use kallsyms::source::{LINE_LEN, LineSource};
use std::alloc::{AllocError, Global};
use std::collections::BTreeMap;

// Puts a name into a map, unlisted.
fn ask<'a>(sightings: &mut BTreeMap<&'a [u8], Sighting>, name: &'a [u8]) -> Result<(), AllocError>
    ensures { OnOk result (Adds name.now sightings.old sightings.new) }
{
    sightings.insert(name, Sighting::Unlisted)?;
    Ok(())
}

/// A map that has each of these names, unlisted, and no others.
#[tactic(auto, using(crate::proofs::Asking::one_more))]
pub fn unlisted(heap: Global, names: &[String]) -> Result<BTreeMap<&[u8], Sighting>, AllocError>
    ensures { IfOk result (λ m. Asked names.now m) }
{
    let mut sightings = BTreeMap::new(heap);
    for name in names {
        ask(&mut sightings, name.as_bytes())?;
    }
    Ok(sightings)
}

// Takes one line more into what is said of the name that it lists.
pub(crate) fn note_line(sightings: &mut BTreeMap<&[u8], Sighting>, line_number: u64, line: &[u8])
    ensures { Notes line_number line.now sightings.old sightings.new }
{
    let Some(fields) = Fields::of(line) else {
        return;
    };
    if let Some(sighting) = sightings.get_mut(fields.name().bytes) {
        *sighting = sighting.after(line_number, read_address(fields.address().bytes));
    }
}

/// What a reading of a list took.
#[derive(Clone, Copy, Debug, PartialEq, Eq)]
pub struct Reading {
    /// How many lines were read; the count stays at the greatest.
    pub lines: u64,
    /// How the list ended after them.
    pub end: End,
}

// Leaves every name unlisted, which is what no lines say of it.
pub(crate) fn unlist(sightings: &mut BTreeMap<&[u8], Sighting>)
    ensures names { keys sightings.new ≡ keys sightings.old }
    ensures says { (name : List ℕ) → IfSome (sighting_of sightings.new name) (Says [] name) }
{
    // By `retain`: after a loop over the values a proof does not know them.
    sightings.retain(|_, sighting| {
        *sighting = Sighting::Unlisted;
        true
    });
}

/// Reads a source to its end, once, and leaves at each name what the source's lines say of it, whatever was there.
pub fn look_up<S: LineSource, N: Names>(source: &mut S, names: &mut N) -> Reading
    ensures found { LookedUp N.holds N.keeps (S.lines source.old) (S.end source.old) names.old names.new result }
    ensures rest { S.lines source.new ≡ [] }
    ensures kept { S.end source.new ≡ S.end source.old }
{
    names.unlist();
    let mut buffer = [0u8; LINE_LEN];
    // Counted by hand: a source lends one buffer, so it is no iterator, and the count stays at the greatest.
    let mut lines: u64 = 0;
    let end = 'lines: loop {
        match source.next(&mut buffer) {
            Ok(Some(len)) => {
                lines = lines.saturating_add(1);
                names.note(lines, &buffer[..len]);
            }
            Ok(None) => break 'lines Ok(()),
            Err(fault) => break 'lines Err(fault),
        }
    };
    Reading { lines, end }
}
