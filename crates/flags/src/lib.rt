// The flags of a fast stretch of instructions, kept as what they come from until they are asked
// for: `last`, a result, whose low 16 bits are 0 where Z is set and whose bit 15 or bit 18 is N;
// `sum`, whose bit 16 is C; `over`, whose bit 15 is V. A byte form's numbers stand there 256 times as
// large, so that the same bits serve both widths. Bit 18 is for an N that is not of the result that
// Z is of. The operations that leave them are in crate flags_work.
#![tactic(auto)]

ghost use Rattle.std.specs.Prelude.{◌≡◌, ℕ, ◌*◌, ◌/◌, ◌%◌, ◌<◌, not};
ghost use Rattle.machine.specs.Cex.{condition_of, at_least?};
ghost use Rattle.machine.specs.Effect.{set_flags, clear_flags, taken_of};
ghost use Rattle.flags.specs.Kept.{held_in, nothing?, minus?};

// What the flags come from.
#[derive(Clone, Copy)]
pub struct Kept {
    pub last: u32,
    pub sum: u32,
    pub over: u32,
}

// A `last` of which Z and N are these.
pub fn marks(z: bool, n: bool) -> u32
    ensures { (nothing? result ≡ z) × (minus? result ≡ n) }
{
    !z as u32 + n as u32 * 262144
}

// A PSW's flags taken apart.
pub fn apart(psw: u16) -> Kept
    ensures { held_in psw result ≡ psw }
{
    let p = psw as u32;
    Kept {
        last: 2 - p / 2 % 2 * 2 + p / 4 % 2 * 262144,
        sum: p * 65536,
        over: p * 2048,
    }
}

impl Kept {
    // Is Z set?
    fn zero(&self) -> bool
        ensures { result ≡ nothing? self.now.last }
    {
        self.last % 65536 == 0
    }

    // Is N set?
    pub fn negative(&self) -> bool
        ensures { result ≡ minus? self.now.last }
    {
        (self.last / 32768 % 2 == 1) | (self.last / 262144 % 2 == 1)
    }

    // The PSW with its flags put together.
    pub fn together(&self, psw: u16) -> u16
        ensures { result ≡ held_in psw self.now }
    {
        let z = self.zero() as u16;
        let c = (self.sum / 65536 % 2) as u16;
        let n = self.negative() as u16;
        let v = (self.over / 32768 % 2) as u16;
        psw / 32 * 32 + v * 16 + psw / 8 % 2 * 8 + n * 4 + z * 2 + c
    }

    // Do N and V differ?
    fn below(&self) -> bool
        ensures { (p : ℕ) → not result ≡ at_least? (held_in p self.now) }
    {
        ((self.last | self.last / 8) ^ self.over) / 32768 % 2 == 1
    }

    // Does the condition of number 2 * k hold?
    fn even_condition(&self, k: u8) -> bool
        ensures { (p : ℕ) → result ≡ condition_of (2 * k) (held_in p self.now) }
    {
        match k {
            0 => self.zero(),
            1 => self.sum / 65536 % 2 == 1,
            2 => self.negative(),
            3 => self.over / 32768 % 2 == 1,
            4 => (self.sum / 65536 % 2 == 1) & !self.zero(),
            5 => !self.below(),
            6 => !self.zero() & !self.below(),
            7 => true,
            _ => false,
        }
    }

    // Does CEX's condition of this number hold? An odd one holds where the one before it does not.
    pub fn condition(&self, n: u8) -> bool
        requires { n < 16 }
        ensures { (p : ℕ) → result ≡ condition_of n (held_in p self.now) }
    {
        self.even_condition(n / 2) != (n % 2 == 1)
    }

    // Is the branch of this number taken?
    pub fn taken(&self, k: u8) -> bool
        requires { k < 8 }
        ensures { (p : ℕ) → result ≡ taken_of k (held_in p self.now) }
    {
        let n = match k {
            5 => 10,
            6 => 11,
            7 => 14,
            _ => k,
        };
        self.condition(n)
    }

    // These flags set, SLP not among them.
    pub fn set(&mut self, f: u16)
        requires { (f < 32) × (f / 8 % 2 ≡ 0) }
        ensures { (p : ℕ) → held_in p self.new ≡ set_flags (held_in p self.old) f }
    {
        let g = f as u32;
        self.sum |= g * 65536;
        self.over |= g * 2048;
        self.last = marks(
            self.zero() | (f / 2 % 2 == 1),
            self.negative() | (f / 4 % 2 == 1),
        );
    }

    // These flags cleared, SLP not among them.
    pub fn clear(&mut self, f: u16)
        requires { (f < 32) × (f / 8 % 2 ≡ 0) }
        ensures { (p : ℕ) → held_in p self.new ≡ clear_flags (held_in p self.old) f }
    {
        let g = f as u32;
        self.sum &= 4194303 - g * 65536;
        self.over &= 65535 - g * 2048;
        self.last = marks(
            self.zero() & (f / 2 % 2 == 0),
            self.negative() & (f / 4 % 2 == 0),
        );
    }
}
