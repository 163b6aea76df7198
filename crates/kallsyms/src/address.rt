// The address that a field holds, in hexadecimal.
ghost use Rattle.std.specs.Prelude.{◌≡◌, ◌+◌, ◌*◌, ◌<◌, Some};
ghost use Rattle.kallsyms.specs.Address.{unsigned as unsigned_of, limited, address as address_of};

use crate::digits::digit;

// The greatest number that one digit more still leaves below 2 ^ 64.
const LAST_TO_SHIFT: u64 = 1152921504606846975;

// Without one `+` at the front.
fn unsigned(field: &[u8]) -> &[u8]
    ensures { result.now ≡ unsigned_of field.now }
{
    field.strip_prefix(b"+").unwrap_or(field)
}

// A number with one digit more, or none if that passes 64 bits.
fn with_digit(value: u64, d: u8) -> Option<u64>
    requires { d < 16 }
    ensures { result ≡ limited (Some (value * 16 + d)) }
{
    if value > LAST_TO_SHIFT {
        None
    } else {
        Some(value * 16 + d as u64)
    }
}

/// The address that a field holds, or none if it does not read.
pub fn read_address(field: &[u8]) -> Option<u64>
    ensures { result ≡ address_of field.now }
{
    let digits = unsigned(field);
    if digits.is_empty() {
        return None;
    }
    let mut value: u64 = 0;
    for b in digits {
        value = with_digit(value, digit(*b)?)?;
    }
    Some(value)
}
