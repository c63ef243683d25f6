// A list from the currents of its objects, in 10 mA. An object whose current is 0 is not there: a number and no Option, since the
// word of AVS has that 0 in it, and the page's columns read as they stand.
use lists::{NO_WORDS, Words};

#[derive(Clone, Copy)]
pub(crate) struct Currents {
    // At 5 V, 9 V, 15 V and 20 V.
    pub fixed: [u32; 4],
    // From 9 to 15 V, and from 15 to 20 V.
    pub avs: [u32; 2],
    // 9 V Prog, 15 V Prog and 20 V Prog.
    pub progs: [u32; 3],
}

pub(crate) const NO_PROGS: [u32; 3] = [0; 3];

// A fixed object: voltage in 50 mV, current in 10 mA.
fn fixed(volts: u8, current: u32) -> u32 {
    let in_50_mv = u32::from(volts) * 20;
    (in_50_mv << 10) | current
}

// AVS, 1110b: the first current, then the second, in 10 mA.
fn avs([to_15_v, to_20_v]: [u32; 2]) -> u32 {
    0xE0000000 | (to_15_v << 10) | to_20_v
}

// PPS, 1100b, with power limited set: maximum and minimum in 100 mV (50 is 5 V), current in 50 mA.
fn prog(top: u8, current: u32) -> u32 {
    let in_100_mv = u32::from(top) * 10;
    0xC8000000 | (in_100_mv << 17) | (50 << 8) | (current / 5)
}

// Behind the words that count; a full list takes no more.
fn with_word(list: Words, word: u32) -> Words {
    let mut words = list.words;
    let Some(place) = words.get_mut(usize::from(list.count)) else {
        return list;
    };
    *place = word;
    Words {
        words,
        count: list.count + 1,
    }
}

impl From<Currents> for Words {
    fn from(currents: Currents) -> Words {
        let fixed = [5, 9, 15, 20]
            .into_iter()
            .zip(currents.fixed)
            .filter(|&(_, current)| current != 0)
            .map(|(volts, current)| fixed(volts, current));
        let avs = Some(currents.avs)
            .filter(|&currents| currents != [0; 2])
            .map(avs);
        // Their ranges end at 11, 16 and 21 V.
        let progs = [11, 16, 21]
            .into_iter()
            .zip(currents.progs)
            .filter(|&(_, current)| current != 0)
            .map(|(top, current)| prog(top, current));
        fixed.chain(avs).chain(progs).fold(NO_WORDS, with_word)
    }
}
