// What a source of lines means, and how one is read.
ghost use Rattle.std.specs.Prelude.{ℕ, List};
ghost use Rattle.kallsyms.specs.Ends.{End};
ghost use Rattle.kallsyms.specs.Line.{GoodLines};
ghost use Rattle.kallsyms.specs.Steps.{Steps};

use crate::ends::Fault;

/// The most bytes that a line may have, and the size of a line buffer.
pub const LINE_LEN: usize = 1024;

/// A list of lines that are still to come, and how it ends after them.
pub trait LineSource {
    // The lines that are to come.
    ghost lines: { Self → List (List ℕ) };

    // How the source ends after them.
    ghost end: { Self → End };

    // The buffer and the length stand apart since a rule of the project fixes the buffer: 1,024 bytes of the caller's, and no heap.
    /// Puts the next line at the front of the buffer, with zeros after it, and answers its length; or none if every line was given, or the fault that ends the source.
    fn next(&mut self, buffer: &mut [u8; LINE_LEN]) -> Result<Option<usize>, Fault>
        ensures { Steps (lines self.old) (end self.old) buffer.old result (lines self.new) (end self.new) buffer.new };

    // Each line that is to come has at most 1024 bytes, all below 128.
    ghost good: { (s : Self) → GoodLines (lines s) };
}
