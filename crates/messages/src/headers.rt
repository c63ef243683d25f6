// The header: its seven fields at their bit places, out of 16 bits and into them.
ghost use Rattle.std.specs.Prelude.{◌≡◌, true, not};
ghost use Rattle.objects.specs.Layout.{all_fit, joined};
ghost use Rattle.messages.specs.Headers.{header_of, fields_of};

use crate::Header;

pub(crate) fn header_of(half: u16) -> Header
    ensures { result ≡ header_of half }
{
    Header {
        extended: ((half >> 15) & 0x1) as u8,
        count: ((half >> 12) & 0x7) as u8,
        id: ((half >> 9) & 0x7) as u8,
        power_role: ((half >> 8) & 0x1) as u8,
        revision: ((half >> 6) & 0x3) as u8,
        data_role: ((half >> 5) & 0x1) as u8,
        message_type: (half & 0x1F) as u8,
    }
}

// 51: some field does not fit its bits.
pub(crate) fn too_wide(header: Header) -> bool
    ensures { result ≡ not (all_fit (fields_of header)) }
{
    32 <= header.message_type
        || 2 <= header.data_role
        || 4 <= header.revision
        || 2 <= header.power_role
        || 8 <= header.id
        || 8 <= header.count
        || 2 <= header.extended
}

// The 16 bits of a header whose fields fit.
pub(crate) fn half_of_header(header: Header) -> u16
    requires { all_fit (fields_of header) ≡ true }
    ensures { result ≡ joined (fields_of header) }
{
    u16::from(header.message_type)
        | (u16::from(header.data_role) << 5)
        | (u16::from(header.revision) << 6)
        | (u16::from(header.power_role) << 8)
        | (u16::from(header.id) << 9)
        | (u16::from(header.count) << 12)
        | (u16::from(header.extended) << 15)
}
