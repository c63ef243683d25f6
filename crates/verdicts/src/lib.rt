// What a call answers: the number of its refusal and the place (docs/STATEMENT.md, "Refusal numbers"). Every number has its
// name here and nowhere else. There is no 8, and 21 is withdrawn: it is not given again. The names are numbers and no enum: the number is a
// byte of C's, and `lists::refuse`, `lists::finished` and `ports::offer` answer for every number (`Refuses`, `Finishes`, `Offers`).

#![tactic(auto)]

ghost use Rattle.std.specs.Prelude.{◌≡◌};
ghost use Rattle.verdicts.specs.Refusals.{verdict, passed_of, told};

// The answer of a call: the first refusal that applies, or success, which is number 0, place 0.
#[repr(C)]
#[derive(Clone, Copy)]
pub struct Verdict {
    // The number of the refusal, one of the names below; 0 for success.
    pub number: u8,
    // The word, the object or the row that is at fault, counted from 1. 0 where no place is named.
    pub place: u8,
}

impl Verdict {
    // A refusal that names no place.
    pub fn placeless(number: u8) -> Verdict
        ensures { result ≡ verdict number 0 }
    {
        Verdict { number, place: 0 }
    }

    // A refusal at this word, object or row, counted from 1.
    pub fn at(number: u8, place: u8) -> Verdict
        ensures { result ≡ verdict number place }
    {
        Verdict { number, place }
    }

    // For `?`: nothing where the call succeeded, else this verdict.
    pub fn passed(self) -> Result<(), Verdict>
        ensures { result ≡ passed_of self }
    {
        if self.number == SUCCESS {
            Ok(())
        } else {
            Err(self)
        }
    }
}

// What a call answers that went on by `?`.
impl From<Result<(), Verdict>> for Verdict {
    ghost from_gives = { λ r v. v ≡ told r };

    fn from(answer: Result<(), Verdict>) -> Verdict {
        match answer {
            Ok(()) => PASSED,
            Err(verdict) => verdict,
        }
    }
}

// The answer of a call that refuses nothing.
pub const PASSED: Verdict = Verdict {
    number: SUCCESS,
    place: 0,
};

// Nothing is refused.
pub const SUCCESS: u8 = 0;

// The port maximum of a profile, or the rating of a sink, is outside 1 to 200 half watts.
pub const PORT_MAXIMUM: u8 = 1;

// Of a profile: the present power is outside 1 half watt to the port maximum.
pub const PRESENT_POWER: u8 = 2;

// Of a profile, and at attach: the cable carries less than 1 A, or more than 5 A.
pub const CABLE: u8 = 3;

// Of a profile: rounding or PPS wanted is neither 0 nor 1. At set-up PPS wanted of a row is; the place is that row.
pub const NOT_A_CHOICE: u8 = 4;

// Of a profile: the flags are above 63.
pub const FLAGS: u8 = 5;

// The builder's alone: PPS is wanted while the present power is below the port maximum.
pub const PPS_BELOW_MAXIMUM: u8 = 6;

// Writing an object: a field is too wide for its bits. In a list the place is the first such object.
pub const FIELD_TOO_WIDE: u8 = 7;

// The last input record of the program `caps` is shorter than 8 bytes. No call gives it.
pub const RECORD_SHORT: u8 = 9;

// The shape of a list: the count is outside 1 to 7. From a summary: its count is above 7.
pub const COUNT: u8 = 10;

// The shape of a list: the first object is not a fixed 5 V supply. The place is 1.
pub const FIRST_NOT_FIXED_5_V: u8 = 11;

// The shape of a list: a word is of no kind that such a list may hold. The place is the word. From a summary, in C: a kind number without decoded
// requests. The place is 0.
pub const KIND_NOT_ALLOWED: u8 = 12;

// The shape of a list: a reserved bit of a word is set. The place is the word.
pub const RESERVED_BIT: u8 = 13;

// The shape of a list: a word is out of order, or is a second AVS. The place is the word.
pub const ORDER: u8 = 14;

// The shape of a list: a fixed voltage above 20 V; a battery, variable or PPS voltage above 21 V, or its minimum above its maximum.
// The place is the word.
pub const VOLTAGE_BOUND: u8 = 15;

// The shape of a list: a fixed, battery or variable object offers or needs more than 100 W. The place is the word.
pub const POWER_OVER_100_W: u8 = 16;

// The shape of a list: the AVS currents differ from those of the 15 V and 20 V fixed objects. The place is the AVS word.
pub const AVS_DIFFERS: u8 = 17;

// A list against its profile: the objects are not the set that the profile calls for.
pub const WRONG_SET: u8 = 18;

// A list against its profile: a current is not one that the profile allows. The place is the first such word.
pub const CURRENT_NOT_ALLOWED: u8 = 19;

// A request: it names a position that the list does not have.
pub const POSITION: u8 = 20;

// A request: the voltage is outside the range of the object.
pub const VOLTAGE_OUTSIDE: u8 = 22;

// A request: the AVS voltage is not a whole number of 100 mV.
pub const AVS_VOLTAGE_NOT_WHOLE: u8 = 23;

// A request: the operating figure is above what is advertised.
pub const OPERATING_TOO_LARGE: u8 = 24;

// A request: the maximum figure is above what is advertised, and capability mismatch (bit 26) is not set.
pub const MAXIMUM_TOO_LARGE: u8 = 25;

// Ports that share: the number of rows is outside 1 to 8.
pub const ROW_COUNT: u8 = 30;

// Ports that share: at set-up a port maximum is outside 15 to 200 half watts. The place is the row.
pub const SET_UP_MAXIMUM: u8 = 31;

// Ports that share: the capacity is outside 15 half watts for each row to 1600 half watts.
pub const CAPACITY: u8 = 32;

// Ports that share: there is no port of this number.
pub const NO_SUCH_PORT: u8 = 33;

// Ports that share: the port is in use already. The place is the row.
pub const PORT_IN_USE: u8 = 34;

// Ports that share: the port is not attached. The place is the row.
pub const PORT_NOT_ATTACHED: u8 = 35;

// Ports that share: the list allows the request, but the other ports hold the power that it needs. The place is the row.
pub const NO_POWER_NOW: u8 = 36;

// Ports that share: the rows are not as the calls leave them. The place is the first row at fault, or 0 where only the sum of what
// they hold is above the capacity.
pub const ROWS_NOT_SOUND: u8 = 37;

// A message: there are fewer bytes than a header has, or not as many as its count makes.
pub const MESSAGE_LENGTH: u8 = 40;

// A message: its type is neither Source_Capabilities nor Request.
pub const TYPE_NOT_HANDLED: u8 = 41;

// A message: it is an extended one.
pub const EXTENDED_MESSAGE: u8 = 42;

// A sink list against its rating: an operating figure is above its ceiling.
pub const ABOVE_CEILING: u8 = 43;

// Writing a message: a field of its header is too wide for its bits.
pub const HEADER_FIELD_TOO_WIDE: u8 = 51;

// Writing a message: the buffer is shorter than the message.
pub const BUFFER_TOO_SHORT: u8 = 52;

// A message: a Request does not have exactly one word.
pub const REQUEST_COUNT: u8 = 53;
