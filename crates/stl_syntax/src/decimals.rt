//! Numbers of ticks as decimals of a unit.
ghost use Rattle.std.specs.Prelude.{◌≡◌, ◌<◌, ◌≤◌, ◌*◌, ◌^◌, ◌++◌, OnOk};
ghost use Rattle.stl_syntax.specs.Characters.{without_zeros};
ghost use Rattle.stl_syntax.specs.Print.{after_point};
ghost use Rattle.stl_syntax.specs.Printing.{last_digits, decimal_text};

use crate::Text;
use frac128::Memory;
use itoa::Buffer;

/// Appends `ticks` ticks of 1/10^digits as a decimal with the fewest digits.
pub(crate) fn put_decimal(text: &mut Text, ticks: u32, digits: u8) -> Result<(), Memory>
    requires { digits ≤ 6 }
    ensures { OnOk result (text.new ≡ text.old ++ decimal_text digits ticks) }
{
    let unit = 10u32.pow(u32::from(digits));
    text.push(Buffer::new().format(ticks / unit).as_bytes())?;
    put_decimals(text, ticks % unit, digits)
}

/// Appends a point and these decimals without the zeros at their end, and nothing where all are zeros.
fn put_decimals(text: &mut Text, decimals: u32, places: u8) -> Result<(), Memory>
    requires { decimals < 10 ^ places }
    ensures { OnOk result (text.new ≡ text.old ++ after_point (without_zeros (last_digits places decimals))) }
{
    let mut decimals = decimals;
    let mut places = places;
    while places > 0 && decimals % 10 == 0 {
        decimals /= 10;
        places -= 1;
    }
    if places == 0 {
        return Ok(());
    }
    text.push(b".")?;
    put_digits(text, decimals, places)
}

/// Appends the last digits of a number.
fn put_digits(text: &mut Text, number: u32, places: u8) -> Result<(), Memory>
    ensures { OnOk result (text.new ≡ text.old ++ last_digits places number) }
{
    if places == 0 {
        return Ok(());
    }
    put_digits(text, number / 10, places - 1)?;
    text.push(&[b'0' + (number % 10) as u8])
}
