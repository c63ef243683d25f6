// A record taken apart (STATEMENT, "The listing program"): eight bytes, M and P with the low byte first, and the cable in
// 100 mA.
ghost use Rattle.std.specs.Prelude.{◌≡◌, ◌+◌, ◌*◌};
ghost use Rattle.printed.specs.Records.{profile_at};

use rules::Profile;
use steps::{HalfWatts, Ma10};

pub(crate) const LENGTH: usize = 8;

pub(crate) type Record = [u8; LENGTH];

fn half_watts_of(low: u8, high: u8) -> HalfWatts
    ensures { result.0 ≡ low + 256 * high }
{
    HalfWatts(u16::from_le_bytes([low, high]))
}

// "The cable byte counts 100 mA"
fn cable_of(byte: u8) -> Ma10
    ensures { result.0 ≡ byte * 10 }
{
    Ma10(u16::from(byte) * 10)
}

pub(crate) fn profile_of(bytes: &Record) -> Profile
    ensures { result ≡ profile_at bytes.now 0 }
{
    Profile {
        max: half_watts_of(bytes[0], bytes[1]),
        present: half_watts_of(bytes[2], bytes[3]),
        cable: cable_of(bytes[4]),
        rounding: bytes[5],
        pps: bytes[6],
        flags: bytes[7],
    }
}
