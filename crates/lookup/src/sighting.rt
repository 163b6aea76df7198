// What the lines read so far say of one name.
ghost use Rattle.std.specs.Prelude.{◌≡◌};
ghost use Rattle.lookup.specs.After.{after as after_of, is_found};

/// What the lines of a list say of one name; lines are counted from 1.
// Line and address are fields by name: with a struct for the two, each pattern would have one level more.
#[derive(Clone, Copy, Debug, PartialEq, Eq)]
pub enum Sighting {
    /// No line lists the name.
    Unlisted,
    /// Each line that lists the name gives address zero; this is the first.
    OnlyZero {
        line: u64,
    },
    /// The lines that list the name give this nonzero address, first on this line, or zero.
    At {
        line: u64,
        address: u64,
    },
    /// A line gives a nonzero address, and a later line another one.
    TwoAddresses {
        line: u64,
        address: u64,
        other_line: u64,
        other_address: u64,
    },
    /// The address on this line does not read.
    Unreadable {
        line: u64,
    },
}

impl Sighting {
    /// What the lines say once one more of them, of this number, has given this address for the name.
    pub fn after(self, line: u64, address: Option<u64>) -> Sighting
        ensures { result ≡ after_of line address self }
    {
        match (self, address) {
            (Sighting::TwoAddresses { .. } | Sighting::Unreadable { .. }, _) => self,
            (_, None) => Sighting::Unreadable { line },
            (Sighting::Unlisted, Some(0)) => Sighting::OnlyZero { line },
            (_, Some(0)) => self,
            (
                Sighting::At {
                    line: first,
                    address: known,
                },
                Some(other),
            ) => {
                if known == other {
                    self
                } else {
                    Sighting::TwoAddresses {
                        line: first,
                        address: known,
                        other_line: line,
                        other_address: other,
                    }
                }
            }
            (_, Some(address)) => Sighting::At { line, address },
        }
    }

    /// Whether the name has one nonzero address.
    pub fn is_found(self) -> bool
        ensures { result ≡ is_found self }
    {
        matches!(self, Sighting::At { .. })
    }
}
