// A line of a kernel list as fields: an address, a letter, a name, and what may follow.
ghost use Rattle.std.specs.Prelude.{◌≡◌, ◌<◌, ◌≤◌, [], length, drop, MatchOption};
ghost use Rattle.kallsyms.specs.Fields.{separates, Begins, field, fields as fields_from};
ghost use Rattle.kallsyms.specs.Shown.{Is, Shows};

/// A part of a line, and the index in the line at which it begins.
#[derive(Clone, Copy)]
pub struct Field<'a> {
    /// The index of the first byte.
    pub start: usize,
    /// The bytes, none of which separates fields.
    pub bytes: &'a [u8],
}

/// The first three fields of a line that has as many, each where it stands.
#[derive(Clone, Copy)]
pub struct Fields<'a> {
    line: &'a [u8],
    address: Field<'a>,
    letter: Field<'a>,
    name: Field<'a>,
    ghost shows: { Shows line.now address letter name },
}

// Whether a byte separates fields.
fn is_separator(b: u8) -> bool
    ensures { result ≡ separates b }
{
    matches!(b, 9..=13 | 32)
}

// The first field that begins at `from` or after it.
#[inline(always)]
fn field_after(line: &[u8], from: usize) -> Option<Field<'_>>
    requires { from ≤ length line.now }
    ensures { MatchOption result (fields_from from (drop from line.now) ≡ []) (λ f. Begins line.now from f.start f.bytes.now) }
{
    let tail = &line[from..];
    let gap = tail.iter().position(|b| !is_separator(*b))?;
    let word = &tail[gap..];
    let len = word
        .iter()
        .position(|b| is_separator(*b))
        .unwrap_or(word.len());
    Some(Field {
        start: from + gap,
        bytes: &word[..len],
    })
}

impl<'a> Fields<'a> {
    /// The first three fields of the line, or none if it has fewer.
    #[inline(always)]
    pub fn of(line: &'a [u8]) -> Option<Fields<'a>>
        ensures { MatchOption result (length (fields_from 0 line.now) < 3) (λ f. (3 ≤ length (fields_from 0 line.now)) × (f.line.now ≡ line.now)) }
    {
        let address = field_after(line, 0)?;
        let letter = field_after(line, address.start + address.bytes.len())?;
        let name = field_after(line, letter.start + letter.bytes.len())?;
        Some(Fields {
            line,
            address,
            letter,
            name,
        })
    }

    // Three methods and not one with a number: a rule of the project has a method for each field.
    /// The first field of the line.
    pub fn address(&self) -> Field<'a>
        ensures held { result ≡ self.now.address }
        ensures shown { Is result (field 0 self.now.line.now) }
    {
        self.address
    }

    /// The second field of the line.
    pub fn letter(&self) -> Field<'a>
        ensures held { result ≡ self.now.letter }
        ensures shown { Is result (field 1 self.now.line.now) }
    {
        self.letter
    }

    /// The third field of the line.
    pub fn name(&self) -> Field<'a>
        ensures held { result ≡ self.now.name }
        ensures shown { Is result (field 2 self.now.line.now) }
    {
        self.name
    }
}
