// The table of refusals: each by its name, with the number that is answered for it.
ghost use Rattle.std.specs.Prelude.{◌≡◌};
ghost use Rattle.parts.specs.Refused.{number_of};

// A refusal; 11 and 12 are how a command's polling and its confirming read fail.
#[derive(Clone, Copy, Debug, PartialEq, Eq)]
pub enum Refusal {
    // part above 10
    NoPart = 1,
    // lent cells are not the part's number
    WrongCells = 2,
    // address at or past the cells
    NoAddress = 3,
    // data above 255 on an eight-bit part
    WideData = 4,
    // a state out of range for its part
    BadState = 5,
    // first or count not a multiple of the sector
    NotSectors = 6,
    // first + count past the cells
    PastCells = 7,
    // image value above 255, eight-bit part
    WideImage = 8,
    // WP# low and the range holds a protected cell
    Protected = 9,
    // p is 0 or above 1,000
    BadInterval = 10,
    // polling gave up
    GaveUp = 11,
    // confirming read differs
    Differs = 12,
    // job file malformed or too long
    BadFile = 13,
    // command above 3, or block erase asked of parts 1 to 3
    NoCommand = 14,
    // k past the command's writes, or figure above 6
    NoEntry = 15,
}

impl Refusal {
    // The number that is answered.
    pub fn number(self) -> u32
        ensures { result ≡ number_of self }
    {
        self as u32
    }
}
