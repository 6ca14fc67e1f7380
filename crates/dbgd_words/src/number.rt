//! Numbers of a command line.

ghost use Rattle.std.specs.Prelude.{◌≡◌, ◌&&◌};
ghost use Rattle.std.specs.Char.{is_ascii_digit};
ghost use Rattle.std.specs.List.{list_all};
ghost use Rattle.dbgd_words.specs.Numbers.{is_number, spelled_number};

/// The most digits that a number may have.
pub const MOST_DIGITS: usize = 20;

/// The number that a text of 1 to 20 digits spells, where it is one of these.
pub fn number_in(text: &str, least: u64, most: u64) -> Option<u64>
    ensures { result ≡ spelled_number least most text.now }
{
    if !is_number(text) {
        return None;
    }
    match text.parse::<u64>() {
        Ok(number) if least <= number && number <= most => Some(number),
        _ => None,
    }
}

/// Whether a text has 1 to 20 digits and nothing else.
fn is_number(text: &str) -> bool
    ensures { result ≡ is_number text.now }
{
    1 <= text.len() && text.len() <= MOST_DIGITS && has_digits_alone(text)
}

/// Whether each byte of a text is a digit.
fn has_digits_alone(text: &str) -> bool
    ensures { result ≡ list_all is_ascii_digit text.now }
{
    text.as_bytes().iter().all(|b| b.is_ascii_digit())
}
