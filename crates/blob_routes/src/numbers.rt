//! Numbers in decimal.
ghost use Rattle.std.specs.Prelude.{◌≡◌, ◌<◌, ◌≤◌, true, length, Some};
ghost use Rattle.std.specs.List.{list_all};
ghost use Rattle.std.specs.Char.{is_ascii_digit};
ghost use Rattle.std.specs.Str.Parse.{digits_value};
ghost use Rattle.blob_routes.specs.Numbers.{number_in};

/// The number that 1 to 9 digits are.
pub fn number_in(text: &str) -> Option<u32>
    ensures { result ≡ number_in text.now }
{
    if text.is_empty() || text.len() > 9 || !are_digits(text.as_bytes()) {
        return None;
    }
    parsed(text)
}

fn are_digits(text: &[u8]) -> bool
    ensures { result ≡ list_all is_ascii_digit text.now }
{
    text.iter().all(|byte| byte.is_ascii_digit())
}

fn parsed(digits: &str) -> Option<u32>
    requires digits { list_all is_ascii_digit digits.now ≡ true }
    requires some { 0 < length digits.now }
    requires few { length digits.now ≤ 9 }
    ensures { result ≡ Some (digits_value 10 digits.now) }
{
    digits.parse().ok()
}
