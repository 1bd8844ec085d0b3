// A word as a line of text.
#![tactic(auto)]

ghost use Rattle.std.specs.Prelude.{◌≡◌, ◌%◌};
ghost use Rattle.listing.specs.Listing.{hex_digit, hex_line};

// The last digit of a number in hexadecimal, capitals.
// By a sum: `char::from_digit` answers a small letter, or none, and as a char.
#[tactic(auto, unfolding(crate::specs::Listing::hex_digit))]
fn digit(w: u32) -> u8
    ensures { result ≡ hex_digit (w % 16) }
{
    let d = (w % 16) as u8;
    if d < 10 { b'0' + d } else { b'A' + (d - 10) }
}

// Eight digits and the line's end.
// As bytes and not by a format: the contract names the nine bytes.
pub fn line(w: u32) -> [u8; 9]
    ensures { result ≡ hex_line w }
{
    [
        digit(w >> 28),
        digit(w >> 24),
        digit(w >> 20),
        digit(w >> 16),
        digit(w >> 12),
        digit(w >> 8),
        digit(w >> 4),
        digit(w),
        b'\n',
    ]
}
