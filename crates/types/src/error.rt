ghost use Rattle.std.specs.Prelude.{◌≡◌, ◌==◌, Decides};
ghost use Rattle.types.specs.Refusals.{number_of};

// Why a call was refused. Each case has a fixed number, by which both
// suppliers' screens and pads tell it; the names of 5 and 8 to 15 are the
// crate's own.
#[derive(Clone, Copy, PartialEq, Eq, Debug)]
pub enum Refusal {
    ZeroCounter = 1,
    PositionTooHigh = 2,
    DeletionLength = 3,
    TooLong = 4,
    InvalidEncoding = 5,
    PathTooDeep = 6,
    Full = 7,
    ApplyInvalidProp = 8,
    Fail = 9,
    InvalidMapOp = 10,
    InvalidListOp = 11,
    InvalidTextOp = 12,
    InvalidIndex = 13,
    InvalidKey = 14,
    BadIncrement = 15,
    CounterOverflow = 16,
    ValueFull = 17,
    InvalidLayout = 18,
    UnlawfulRows = 19,
}

impl Refusal {
    // No two refusals share a number, so `==` holds exactly where the numbers
    // are equal, and exactly where the refusals are.
    pub fn number(&self) -> u8
        ensures number { result ≡ number_of self.now }
        ensures equality { (other : Refusal) → ⟦<Refusal as PartialEq>⟧.eq self.now other ≡ (number_of self.now == number_of other) }
        ensures same { (other : Refusal) → Decides (⟦<Refusal as PartialEq>⟧.eq self.now other) (self.now ≡ other) }
    {
        *self as u8
    }
}
