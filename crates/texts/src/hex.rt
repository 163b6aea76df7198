// Numbers in hexadecimal.
ghost use Rattle.std.specs.Prelude.{Some};
ghost use Rattle.texts.specs.Hex.{hex_text, HexReadsBack};

use std::fmt;

/// A number that is printed as `0x` and sixteen hexadecimal digits.
#[derive(Clone, Copy)]
pub struct Hex(pub u64);

impl fmt::Display for Hex {
    ghost output = { λ h. Some (hex_text h.0) };

    #[tactic(auto, using(crate::proofs::Padded::sixteen))]
    fn fmt<W: fmt::Write>(&self, f: &mut fmt::Formatter<W>) -> fmt::Result {
        let number = self.0;
        write!(f, "0x{number:016x}")
    }
}

/// The digits that are printed of an address read back as that address.
#[tactic(auto, using(crate::proofs::ReadBack::hex_reads))]
pub fn hex_reads_back()
    ensures { HexReadsBack }
{}
