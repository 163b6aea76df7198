// Names with a row for each, which a line finds by an index.
ghost use Rattle.std.specs.Prelude.{◌≡◌, ℕ, ◌≤◌, min, if◌then◌else◌, nat_lt, length, replicate, slice_index_or, slice_set, IfOk};
ghost use Rattle.kallsyms.specs.Fields.{fields as fields_of};
ghost use Rattle.lookup.specs.Rows.{noted as noted_of, name_at};
ghost use Rattle.lookup.specs.Indexed.{IndexedHolds, IndexedKeeps, indexed_kept};
ghost use Rattle.lookup.specs.declared.sighting.Sighting.TheVariants.{Unlisted};

use crate::index::Index;
use crate::names::Names;
use crate::sighting::Sighting;
use kallsyms::address::read_address;
use kallsyms::fields::Fields;
use std::alloc::{AllocError, Global};

/// Names, a row for each, and where a line finds the rows of its name.
#[derive(Drop)]
pub struct Indexed<'n> {
    index: Index<'n>,
    sightings: Vec<Sighting>,
}

impl<'n> Indexed<'n> {
    /// What is said of each name, in the order of the names.
    pub fn sightings(&self) -> &[Sighting]
        ensures { result.now ≡ self.now.sightings.items }
    {
        &self.sightings
    }

    /// What is said of each name, in the order of the names, without what they were found by.
    pub fn into_sightings(self) -> Vec<Sighting>
        ensures { result.items ≡ self.entry.sightings.items }
    {
        let Indexed {
            index: _,
            sightings,
        } = self;
        sightings
    }
}

// Takes one line more, with these fields, into what is said of a name that has a row.
#[inline(always)]
fn note_row(
    names: &[String],
    sightings: &mut [Sighting],
    row: usize,
    line_number: u64,
    fields: &Fields,
)
    requires { 3 ≤ length (fields_of 0 fields.now.line.now) }
    ensures { sightings.new ≡ (if nat_lt row (min (length names.now) (length sightings.old)) then slice_set sightings.old row (noted_of line_number fields.now.line.now (name_at names.now row) (slice_index_or sightings.old row Unlisted)) else sightings.old) }
{
    if row < names.len().min(sightings.len()) && names[row].as_bytes() == fields.name().bytes {
        let address = read_address(fields.address().bytes);
        sightings[row] = sightings[row].after(line_number, address);
    }
}

// Takes one line more into what is said of each name that the line lists.
#[inline(always)]
fn note_found(index: &Index, sightings: &mut [Sighting], line_number: u64, line: &[u8])
    ensures len { length sightings.new ≡ length sightings.old }
    ensures noted { (k : ℕ) → slice_index_or sightings.new k Unlisted ≡ (if nat_lt k (min (length index.now.names.now) (length sightings.old)) then noted_of line_number line.now (name_at index.now.names.now k) (slice_index_or sightings.old k Unlisted) else slice_index_or sightings.old k Unlisted) }
{
    let Some(fields) = Fields::of(line) else {
        return;
    };
    let mut next = index.last_like(fields.name().bytes);
    'rows: while let Some(k) = next {
        note_row(index.names, sightings, k, line_number, &fields);
        next = index.before[k];
    }
}

/// The names that have a row, found by the index.
impl Names for Indexed<'_> {
    ghost holds = { IndexedHolds };

    ghost keeps = { IndexedKeeps };

    ghost kept = { indexed_kept };

    fn unlist(&mut self) {
        self.sightings.fill(Sighting::Unlisted);
    }

    #[inline(always)]
    fn note(&mut self, line_number: u64, line: &[u8]) {
        note_found(&self.index, &mut self.sightings, line_number, line);
    }
}

/// These names, each not listed.
pub fn asked(heap: Global, names: &[String]) -> Result<Indexed<'_>, AllocError>
    ensures names { IfOk result (λ a. a.index.names.now ≡ names.now) }
    ensures sightings { IfOk result (λ a. a.sightings.items ≡ replicate (length names.now) Unlisted) }
{
    let index = Index::of(heap, names)?;
    let sightings = vec![in heap; Sighting::Unlisted; names.len()]?;
    Ok(Indexed { index, sightings })
}
