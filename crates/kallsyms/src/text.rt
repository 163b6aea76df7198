// The lines of a text in memory.
ghost use Rattle.std.specs.Prelude.{◌≡◌, ◌<◌, ◌≤◌, ◌∷◌, ◌++◌, length, drop};
ghost use Rattle.memchr.specs.Find.{IsFirstByte, is_byte};
ghost use Rattle.kallsyms.specs.Cut.{lines_from, end_from, pieces, verdict};
ghost use Rattle.kallsyms.specs.Pieces.{bare};
ghost use Rattle.kallsyms.specs.Goodness.{good_kept};

use crate::ends::{End, Fault};
use crate::source::{LINE_LEN, LineSource};
use memchr::memchr;

/// A text, from the line that is next.
#[derive(Clone, Copy)]
pub struct Text<'a> {
    rest: &'a [u8],
    // The number of the line that is next, from 1; it stays at the greatest.
    line: u64,
}

impl<'a> Text<'a> {
    /// The lines of these bytes, from the first.
    pub fn new(bytes: &'a [u8]) -> Text<'a>
        ensures rest { result.rest.now ≡ bytes.now }
        ensures line { result.line ≡ 1 }
    {
        Text {
            rest: bytes,
            line: 1,
        }
    }
}

// What stands before the first line feed of a text, and what follows it.
#[derive(Clone, Copy)]
struct Piece<'a> {
    bytes: &'a [u8],
    rest: &'a [u8],
}

// Without a carriage return at the end.
#[inline(always)]
fn stripped(piece: &[u8]) -> &[u8]
    ensures { result.now ≡ bare piece.now }
{
    piece.strip_suffix(b"\r").unwrap_or(piece)
}

// The index of the first line feed; the first bytes are looked at one by one, since a search does not repay itself on a line of a few bytes.
#[inline(always)]
fn line_feed(bytes: &[u8]) -> Option<usize>
    ensures { IsFirstByte (is_byte 10) bytes.now result }
{
    match bytes {
        [b'\n', ..] => Some(0),
        [_, b'\n', ..] => Some(1),
        [_, _, b'\n', ..] => Some(2),
        [_, _, _, b'\n', ..] => Some(3),
        _ => memchr(b'\n', bytes),
    }
}

// The first piece of a text that is not empty.
#[tactic(auto, using(crate::proofs::Pieced::piece_last))]
#[inline(always)]
fn first_piece(bytes: &[u8]) -> Piece<'_>
    requires { 0 < length bytes.now }
    ensures cut { pieces bytes.now ≡ result.bytes.now ∷ pieces result.rest.now }
{
    match line_feed(bytes) {
        Some(at) => Piece {
            bytes: stripped(&bytes[..at]),
            rest: &bytes[at + 1..],
        },
        None => Piece {
            bytes,
            rest: &bytes[bytes.len()..],
        },
    }
}

// Whether the piece at a line number is a line, or else its fault.
#[tactic(auto, using(crate::proofs::Pieced::ascii_plain, crate::proofs::Pieced::not_plain))]
#[inline(always)]
fn judged(line: u64, piece: &[u8]) -> End
    ensures { result ≡ verdict line piece.now }
{
    if piece.len() > LINE_LEN {
        Err(Fault::LineTooLong { line })
    } else if piece.is_ascii() {
        Ok(())
    } else {
        Err(Fault::ByteTooLarge { line })
    }
}

// Puts a line at the front of the buffer.
#[inline(always)]
fn put(buffer: &mut [u8; LINE_LEN], line: &[u8])
    requires { length line.now ≤ 1024 }
    ensures { buffer.new ≡ line.now ++ drop (length line.now) buffer.old }
{
    buffer[..line.len()].copy_from_slice(line);
}

impl<'a> LineSource for Text<'a> {
    ghost lines = { λ s. lines_from s.line s.rest.now };

    ghost end = { λ s. end_from s.line s.rest.now };

    ghost good = { λ s. good_kept s.line (pieces s.rest.now) };

    #[inline(always)]
    fn next(&mut self, buffer: &mut [u8; LINE_LEN]) -> Result<Option<usize>, Fault> {
        let bytes = self.rest;
        if bytes.is_empty() {
            return Ok(None);
        }
        let piece = first_piece(bytes);
        judged(self.line, piece.bytes)?;
        *buffer = [0; LINE_LEN];
        put(buffer, piece.bytes);
        self.rest = piece.rest;
        self.line = self.line.saturating_add(1);
        Ok(Some(piece.bytes.len()))
    }
}
