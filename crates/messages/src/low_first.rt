// Numbers as bytes, "the low byte first": the 16 bits of a header, and the 32 of a word.
ghost use Rattle.std.specs.Prelude.{◌≡◌, ◌<◌, ◌≤◌, length, MatchOption};
ghost use Rattle.messages.specs.LowFirst.{half_at, word_at, two_bytes, four_bytes};

// The first two bytes, where there are two.
pub(crate) fn half_of(bytes: &[u8]) -> Option<u16>
    ensures { MatchOption result (length bytes.now < 2) (λ half. (2 ≤ length bytes.now) × (half ≡ half_at bytes.now 0)) }
{
    let [low, high, ..] = bytes else {
        return None;
    };
    Some(u16::from_le_bytes([*low, *high]))
}

pub(crate) fn word_of(part: &[u8]) -> u32
    requires { length part.now ≡ 4 }
    ensures { result ≡ word_at part.now 0 }
{
    u32::from_le_bytes([part[0], part[1], part[2], part[3]])
}

// Byte by byte, and so is a word: at opt-level s a copy from a slice is a call of its own, which made writing twice as long.
#[tactic(auto, using(crate::proofs::LowFirst::all_two), unfolding(objects::specs::Bits::bits))]
pub(crate) fn put_half(part: &mut [u8], half: u16)
    requires { length part.old ≡ 2 }
    ensures { part.new ≡ two_bytes half }
{
    let [a, b] = half.to_le_bytes();
    part[0] = a;
    part[1] = b;
}

#[tactic(auto, using(crate::proofs::LowFirst::all_four), unfolding(objects::specs::Bits::bits))]
pub(crate) fn put_word(part: &mut [u8], word: u32)
    requires { length part.old ≡ 4 }
    ensures { part.new ≡ four_bytes word }
{
    let [a, b, c, d] = word.to_le_bytes();
    part[0] = a;
    part[1] = b;
    part[2] = c;
    part[3] = d;
}
