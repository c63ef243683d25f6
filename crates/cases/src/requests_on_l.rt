// STATEMENT, "Worked by hand": requests on L, whose AVS object is at position 5.
use crate::expecting::answers;
use crate::lists_by_hand::L;
use crate::running;
use std::io;

// Columns: position, voltage in 25 mV, current in 10 mA; the answer. 600 is 15.0 V, 596 is 14.9 V, 356 is 8.9 V.
const REQUESTS: [(&str, (u32, u32, u32, u8)); 6] = [
    (
        "L, position 5, 15.0 V at 3.25 A: accepted",
        (5, 600, 325, 0),
    ),
    ("L, position 5, 15.0 V at 3.30 A: 24", (5, 600, 330, 24)),
    ("L, position 5, 14.9 V at 3.25 A: 24", (5, 596, 325, 24)),
    ("L, position 5, voltage figure 602: 23", (5, 602, 325, 23)),
    ("L, position 5, 8.9 V: 22", (5, 356, 325, 22)),
    ("L, position 6: 20", (6, 600, 325, 20)),
];

pub(crate) fn run(rt: &impl Print) -> io::Result<()> {
    running::run(rt, &REQUESTS, |(position, in_25_mv, current, number)| {
        // The current of a request is in 50 mA.
        let request = (position << 28) | (in_25_mv << 9) | (current / 5);
        answers(L.into(), request, number)
    })
}
