//! Lower-case hexadecimal.
ghost use Rattle.std.specs.Prelude.{◌≡◌, ◌*◌, ◌<◌, true, length, slice_index};
ghost use Rattle.std.specs.List.{list_all};
ghost use Rattle.hex.specs.Hex.{encode_lower, lower_digits};
ghost use Rattle.blobref.specs.Blobref.{is_lower_digit};

/// Whether each byte is one of `0` to `9` and `a` to `f`. It looks at all of them.
pub(crate) fn are_lower_digits(bytes: &[u8]) -> bool
    ensures { result ≡ list_all is_lower_digit bytes.now }
{
    let mut all = true;
    'bytes: for i in 0..bytes.len() {
        all = is_lower_digit(bytes[i]) & all;
    }
    all
}

// Without a branch, so that many bytes are compared at once.
#[inline(always)]
fn is_lower_digit(byte: u8) -> bool
    ensures { result ≡ is_lower_digit byte }
{
    (byte.wrapping_sub(b'0') < 10) | (byte.wrapping_sub(b'a') < 6)
}

/// Writes the bytes that these digits spell, each by two of them.
pub(crate) fn decode_lower(digits: &[u8], bytes: &mut [u8])
    requires two { length digits.now ≡ 2 * length bytes.old }
    requires lower { list_all is_lower_digit digits.now ≡ true }
    ensures long { length bytes.new ≡ length bytes.old }
    ensures spelled { encode_lower bytes.new ≡ digits.now }
{
    'bytes: for i in 0..bytes.len() {
        bytes[i] = 16 * value_of(digits[2 * i]) + value_of(digits[2 * i + 1]);
    }
}

// The letters are the codes from 97 on, whose low four bits are those of their values less 9.
#[inline(always)]
fn value_of(digit: u8) -> u8
    requires { is_lower_digit digit ≡ true }
    ensures small { result < 16 }
    ensures spelled { slice_index lower_digits result ≡ digit }
{
    (digit & 15) + 9 * (digit >> 6)
}
