// The types of the XM-23 machine. Their meaning is in specs/, in the order of document 01; the
// code over them stands in the crates above, so that theorems about the definitions do not
// depend on it.

// The lines: eight counts of waiting events, four bits each, device 0 lowest.
#![tactic(auto)]

pub type Lines = u32;

// What a machine has beside its registers: PSW, CEX state, lines, halted mark and step count.
#[derive(Clone, Copy)]
pub struct Rest {
    pub psw: u16,
    pub cex: u16,
    pub lines: Lines,
    pub halted: bool,
    pub count: u32,
}

// One machine: eight registers (R5 is LR, R6 SP, R7 PC) and the rest. Where a machine is at work the
// registers are lent and the rest goes by value. Memory is lent beside it.
#[derive(Clone, Copy)]
pub struct Machine {
    pub regs: [u16; 8],
    pub rest: Rest,
}

// A byte's place in memory, and a word's: word w is bytes 2 * w and 2 * w + 1.
#[derive(Clone, Copy)]
pub struct ByteAddr(pub u16);

#[derive(Clone, Copy)]
pub struct WordAddr(pub u16);

// What an instruction asks of the machine beyond its own registers and PSW: nothing, a load into a
// register, a store of a value, a fault, or a trap to a vector.
#[derive(Clone, Copy)]
pub enum Access {
    Nothing,
    Load {
        byte: bool,
        at: ByteAddr,
        dst: u8,
    },
    Store {
        byte: bool,
        at: ByteAddr,
        value: u16,
    },
    Fault(u8),
    Trap(u8),
}

// Why a run ended: all its steps were done, the machine is halted, or the log had no room for what
// the next step would show.
#[derive(Clone, Copy)]
pub enum Reason {
    Done,
    Halted,
    NoRoom,
}

// The frames open now, of those that a run has opened, and the most that were open together.
#[derive(Clone, Copy)]
pub struct Depth {
    pub opened: u32,
    pub deepest: u32,
}

// The rule that the buffers and numbers of a call break first: of a run, and of a run with a journal
// or of going back; each with the papers' number.
#[derive(Clone, Copy)]
pub enum Refusal {
    MemoryLength = 1,
    StepCount = 2,
    RecordLength = 3,
    RecordBits = 4,
    EventsLength = 5,
    EventFields = 6,
    EventOrder = 7,
    EventTwins = 13,
    LogLength = 9,
    JournalFit = 14,
    StepsKept = 15,
}

// Whether they are accepted, or the rule that they break.
pub type Verdict = Result<(), Refusal>;

// What a step does. A halted machine takes none. A line or a vector is named by its number; a load
// and a store carry their address, a store its value.
#[derive(Clone, Copy)]
pub enum Act {
    Stopped,
    Pull,
    Chain(u8),
    Accept(u8),
    Sleep,
    Fault(u8),
    Halt,
    Skip,
    Trap(u8),
    Plain,
    Loads {
        byte: bool,
        at: ByteAddr,
        dst: u8,
    },
    Stores {
        byte: bool,
        at: ByteAddr,
        value: u16,
    },
}
