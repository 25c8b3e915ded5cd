// The refusals of Specification 3.1, grouped by where they come from, with their numbers. All other crates use these names;
// specs/Numbers.antt has the numbers for definitions.
#![tactic(auto)]

ghost use Rattle.std.specs.Prelude.{◌≡◌};
ghost use Rattle.refusals.specs.Flags.{flag_fits, flag_set};
ghost use Rattle.refusals.specs.Refusals.{refusal_number, number_of};

// They are ordered as their numbers are.
#[derive(Clone, Copy, Debug, PartialEq, Eq, PartialOrd, Ord)]
pub enum Refusal {
    // From the file.
    BitsRunOut = 1,
    HalfNotFinite = 2,
    KernelNearZero = 3,
    // From the description of a picture.
    OutOfLimits = 4,
    NotInside = 5,
    NotOnBlocks = 6,
    WrongLength = 7,
    BlockNotHeld = 8,
    OutOfRange = 9,
    // From the order of calls.
    BandNotOpen = 10,
    PassNotDone = 11,
    // From a cut file.
    NotACutFile = 12,
    BadEntry = 13,
    WrongEnd = 14,
    // From a wanted rectangle.
    WantedOutside = 15,
}

// The number of a call that is not refused.
pub const ACCEPTED: u32 = 0;

// The numbers of the refusals by their names in Specification 3.1.
// Form: a caller that compares an answer of the C boundary has numbers; each value stands in the enum alone.
pub const BITS_RUN_OUT: u32 = Refusal::BitsRunOut as u32;

pub const HALF_NOT_FINITE: u32 = Refusal::HalfNotFinite as u32;

pub const KERNEL_NEAR_ZERO: u32 = Refusal::KernelNearZero as u32;

pub const OUT_OF_LIMITS: u32 = Refusal::OutOfLimits as u32;

pub const NOT_INSIDE: u32 = Refusal::NotInside as u32;

pub const NOT_ON_BLOCKS: u32 = Refusal::NotOnBlocks as u32;

pub const WRONG_LENGTH: u32 = Refusal::WrongLength as u32;

pub const BLOCK_NOT_HELD: u32 = Refusal::BlockNotHeld as u32;

pub const OUT_OF_RANGE: u32 = Refusal::OutOfRange as u32;

pub const BAND_NOT_OPEN: u32 = Refusal::BandNotOpen as u32;

pub const PASS_NOT_DONE: u32 = Refusal::PassNotDone as u32;

pub const NOT_A_CUT_FILE: u32 = Refusal::NotACutFile as u32;

pub const BAD_ENTRY: u32 = Refusal::BadEntry as u32;

pub const WRONG_END: u32 = Refusal::WrongEnd as u32;

pub const WANTED_OUTSIDE: u32 = Refusal::WantedOutside as u32;

// The number of a refusal.
// Form: the C interface answers numbers, and this is the step to them.
impl From<Refusal> for u32 {
    ghost from_gives = { λ r n. n ≡ refusal_number r };

    fn from(refusal: Refusal) -> u32 {
        refusal as u32
    }
}

// The number that a call answers on the C boundary: 0, or that of its refusal.
// Form: the C interface answers numbers, and this is the step to them.
pub fn number_of<T: Copy>(answer: Result<T, Refusal>) -> u32
    ensures { result ≡ number_of answer }
{
    match answer {
        Ok(_) => ACCEPTED,
        Err(refusal) => u32::from(refusal),
    }
}

// A flag is a number: 0 is no, 1 is yes, and any other value is out of range (Specification 2.6).
const YES: u32 = 1;

// Whether a flag is 0 or 1.
pub fn flag_fits(flag: u32) -> bool
    ensures { result ≡ flag_fits flag }
{
    flag <= YES
}

// Whether a flag is 1. A flag out of range is not.
pub fn flag_set(flag: u32) -> bool
    ensures { result ≡ flag_set flag }
{
    flag == YES
}
