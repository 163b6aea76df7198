// Rows beside names, for what lines say of each.
ghost use Rattle.std.specs.Prelude.{◌≡◌, ℕ, ◌≤◌, min, if◌then◌else◌, nat_lt, [], length, slice_index_or};
ghost use Rattle.kallsyms.specs.Line.{count_of};
ghost use Rattle.kallsyms.specs.Fields.{fields as fields_of};
ghost use Rattle.lookup.specs.Rows.{noted as noted_of, name_at, Filled, RowsHold, RowsKeep, rows_kept};
ghost use Rattle.lookup.specs.declared.sighting.Sighting.TheVariants.{Unlisted};

use crate::names::Names;
use crate::scan::{Reading, look_up};
use crate::sighting::Sighting;
use kallsyms::address::read_address;
use kallsyms::fields::Fields;
use kallsyms::source::LineSource;

/// Names, and a row for each; a row without a name is unlisted, a name without a row is passed over.
#[derive(Drop)]
pub struct Rows<'n, 's> {
    names: &'n [String],
    sightings: &'s mut [Sighting],
}

impl<'n, 's> Rows<'n, 's> {
    /// The rows of the names of the same indices.
    pub fn new(names: &'n [String], sightings: &'s mut [Sighting]) -> Rows<'n, 's>
        ensures names { result.names.now ≡ names.now }
        ensures same_reference { result.sightings.ghost_name ≡ sightings.entry.ghost_name }
        ensures sightings { result.sightings.now ≡ sightings.old }
    {
        Rows { names, sightings }
    }
}

// What is said of a name once one line more, with these fields, is read.
#[inline(always)]
pub(crate) fn noted(sighting: Sighting, name: &[u8], line_number: u64, fields: &Fields) -> Sighting
    requires { 3 ≤ length (fields_of 0 fields.now.line.now) }
    ensures { result ≡ noted_of line_number fields.now.line.now name.now sighting }
{
    if name == fields.name().bytes {
        sighting.after(line_number, read_address(fields.address().bytes))
    } else {
        sighting
    }
}

// Takes one line more into what is said of each name that has a row.
fn note_rows(names: &[String], sightings: &mut [Sighting], line_number: u64, line: &[u8])
    ensures len { length sightings.new ≡ length sightings.old }
    ensures noted { (k : ℕ) → slice_index_or sightings.new k Unlisted ≡ (if nat_lt k (min (length names.now) (length sightings.old)) then noted_of line_number line.now (name_at names.now k) (slice_index_or sightings.old k Unlisted) else slice_index_or sightings.old k Unlisted) }
{
    let Some(fields) = Fields::of(line) else {
        return;
    };
    let rows = names.len().min(sightings.len());
    for i in 0..rows {
        sightings[i] = noted(sightings[i], names[i].as_bytes(), line_number, &fields);
    }
}

/// The names that have a row.
impl Names for Rows<'_, '_> {
    ghost holds = { RowsHold };

    ghost keeps = { RowsKeep };

    ghost kept = { rows_kept };

    fn unlist(&mut self) {
        self.sightings.fill(Sighting::Unlisted);
    }

    fn note(&mut self, line_number: u64, line: &[u8]) {
        note_rows(self.names, self.sightings, line_number, line);
    }
}

/// Reads a source to its end, once, and leaves in each row what its lines say of the name of the same index; a row without a name is unlisted, a name without a row is passed over.
pub fn look_up_rows<S: LineSource>(
    source: &mut S,
    names: &[String],
    sightings: &mut [Sighting],
) -> Reading
    ensures rows { Filled names.now (S.lines source.old) sightings.new }
    ensures len { length sightings.new ≡ length sightings.old }
    ensures count { result.lines ≡ count_of (S.lines source.old) }
    ensures end { result.end ≡ S.end source.old }
    ensures rest { S.lines source.new ≡ [] }
    ensures kept { S.end source.new ≡ S.end source.old }
{
    look_up(source, &mut Rows::new(names, sightings))
}
