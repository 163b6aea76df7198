// What is printed for people.
ghost use Rattle.std.specs.Prelude.{◌≡◌, Some};
ghost use Rattle.ksyms.specs.Answers.{found_in};
ghost use Rattle.ksyms.specs.Texts.{told_text, summary_text};

use lookup::sighting::Sighting;
use std::fmt;
use texts::hex::Hex;

/// What a list says of a name.
#[derive(Clone, Copy)]
pub struct Told<'a> {
    /// The name.
    pub name: &'a str,
    /// What the lines of the list say of it.
    pub sighting: Sighting,
}

impl fmt::Display for Told<'_> {
    ghost output = { λ t. Some (told_text t.name.now t.sighting) };

    fn fmt<W: fmt::Write>(&self, f: &mut fmt::Formatter<W>) -> fmt::Result {
        let name = self.name;
        match self.sighting {
            Sighting::Unlisted => write!(f, "{name}: not listed"),
            Sighting::OnlyZero { line } => write!(
                f,
                "{name}: only at address zero, first on line {line}"
            ),
            Sighting::At { line, address } => {
                let address = Hex(address);
                write!(f, "{name}: {address}, line {line}")
            }
            Sighting::TwoAddresses {
                line,
                address,
                other_line,
                other_address,
            } => {
                let address = Hex(address);
                let other_address = Hex(other_address);
                write!(
                    f,
                    "{name}: two addresses, {address} on line {line} and {other_address} on line {other_line}"
                )
            }
            Sighting::Unreadable { line } => write!(
                f,
                "{name}: the address on line {line} does not read"
            ),
        }
    }
}

/// What was done with a whole list.
#[derive(Clone, Copy)]
pub struct Summary {
    /// How many lines were read.
    pub lines: u64,
    /// How many of the names have one nonzero address.
    pub found: usize,
    /// How many names were asked for.
    pub asked: usize,
}

impl fmt::Display for Summary {
    ghost output = { λ s. Some (summary_text s.lines s.found s.asked) };

    fn fmt<W: fmt::Write>(&self, f: &mut fmt::Formatter<W>) -> fmt::Result {
        let lines = self.lines;
        let found = self.found;
        let asked = self.asked;
        write!(f, "lines read: {lines}, names found: {found} of {asked}")
    }
}

/// How many of the names have one nonzero address.
pub fn found(tolds: &[Told]) -> usize
    ensures { result ≡ found_in tolds.now }
{
    tolds.iter().filter(|told| told.sighting.is_found()).count()
}
