// What a text of S-records is found to be: the types that judge and load share. The definitions
// are in specs/: Digits, Record, Load, Write.
#![tactic(auto)]

ghost use Rattle.std.specs.Prelude.{◌≡◌};
ghost use Rattle.srec.specs.Record.{refusal_number};

// Why a line, a text or a call is refused, by the paper's numbers.
#[derive(Clone, Copy)]
pub enum Refusal {
    MemoryLength = 1,
    Form = 10,
    Checksum = 11,
    Room = 12,
}

impl From<Refusal> for u8 {
    ghost from_gives = { λ r n. n ≡ refusal_number r };

    fn from(r: Refusal) -> u8 {
        r as u8
    }
}

// The refusal of a text, and the number of the line at fault.
#[derive(Clone, Copy)]
pub struct Refused {
    pub refusal: Refusal,
    pub line: u64,
}
