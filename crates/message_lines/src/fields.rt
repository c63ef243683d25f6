// The fields of a message.
ghost use Rattle.std.specs.Prelude.{◌≤◌, IfOk};

use lines::{Fields, Unreadable};
use messages::Header;

// The most bytes that a line can have, typed or lent. They lie in an array with a count, since the console has no heap.
pub(crate) const MOST_BYTES: usize = 40;

#[derive(Clone, Copy)]
pub(crate) struct Bytes {
    pub bytes: [u8; MOST_BYTES],
    pub count: u8,
}

// What a hex digit stands for, small and capital letters alike.
fn hex_value(b: u8) -> Result<u8, Unreadable> {
    let value = char::from(b).to_digit(16).ok_or(Unreadable)?;
    Ok(value as u8)
}

// Hex digits, two for each byte, or `-` for no byte. Half a byte and a byte past the fortieth are left over.
pub(crate) fn take_bytes(fields: &mut Fields<'_>) -> Result<Bytes, Unreadable>
    ensures { IfOk result (λ typed. typed.count ≤ 40) }
{
    let digits = match fields.text()? {
        "" => return Err(Unreadable),
        "-" => "",
        text => text,
    };
    let (pairs, half) = digits.as_bytes().as_chunks::<2>();
    if !half.is_empty() || MOST_BYTES < pairs.len() {
        return Err(Unreadable);
    }
    let mut bytes = [0; MOST_BYTES];
    for (byte, [high, low]) in bytes.iter_mut().zip(pairs) {
        *byte = hex_value(*high)? << 4 | hex_value(*low)?;
    }
    Ok(Bytes {
        bytes,
        count: pairs.len() as u8,
    })
}

// How many bytes the buffer has that is lent.
pub(crate) fn take_room(fields: &mut Fields<'_>) -> Result<u8, Unreadable>
    ensures { IfOk result (λ room. room ≤ 40) }
{
    let room = fields.number()?;
    if MOST_BYTES < usize::from(room) {
        return Err(Unreadable);
    }
    Ok(room)
}

// `EXT COUNT ID PROLE REV DROLE TYPE`
pub(crate) fn take_header(fields: &mut Fields<'_>) -> Result<Header, Unreadable> {
    Ok(Header {
        extended: fields.number()?,
        count: fields.number()?,
        id: fields.number()?,
        power_role: fields.number()?,
        revision: fields.number()?,
        data_role: fields.number()?,
        message_type: fields.number()?,
    })
}
