// Memory as the machine reaches it: bytes and words by their addresses, and the loads and stores of
// instructions, which meet the device registers. Every function takes the whole memory, 65,536
// bytes.
#![tactic(auto)]

ghost use Rattle.std.specs.Prelude.{◌≡◌, false, cond, [], ◌∷◌, ◌+◌, ◌*◌, ◌<◌, length, set};
ghost use Rattle.word.specs.Psw.{put_bit};
ghost use Rattle.machine.specs.Memory.{byte_at, word_number, first_byte, low_byte, high_byte};
ghost use Rattle.machine.specs.Memory.{write, commit, value_at};
ghost use Rattle.machine.specs.Devices.{status?, cleared_status, stored_status};
ghost use Rattle.machine.specs.Devices.{load_writes, byte_writes, store_writes};

use machine::{ByteAddr, WordAddr};

// The word that a byte lies in: the one place where a byte address becomes a word address.
pub fn word_of(a: ByteAddr) -> WordAddr
    ensures { (result.0 ≡ word_number a.0) × (result.0 < 32768) }
{
    WordAddr(a.0 / 2)
}

// The first byte of a word: the one place where a word address becomes a byte address.
pub fn byte_of(w: WordAddr) -> ByteAddr
    requires { w.0 < 32768 }
    ensures { result.0 ≡ first_byte w.0 }
{
    ByteAddr(2 * w.0)
}

// The byte at an address.
pub fn read_byte(mem: &[u8; 65536], a: ByteAddr) -> u8
    ensures { result ≡ byte_at mem.now a.0 }
{
    let i = a.0 as usize;
    mem[i]
}

// The word at a word address.
pub fn read_word(mem: &[u8; 65536], w: WordAddr) -> u16
    requires { w.0 < 32768 }
    ensures { result ≡ byte_at mem.now (first_byte w.0)
        + 256 * byte_at mem.now (first_byte w.0 + 1) }
{
    let i = byte_of(w).0 as usize;
    u16::from_le_bytes([mem[i], mem[i + 1]])
}

// A byte and a word written, devices or not.
pub fn write_byte(mem: &mut [u8; 65536], a: ByteAddr, v: u8)
    ensures { mem.new ≡ set mem.old a.0 v }
{
    let i = a.0 as usize;
    mem[i] = v;
}

pub fn write_word(mem: &mut [u8; 65536], w: WordAddr, v: u16)
    requires { w.0 < 32768 }
    ensures { mem.new
        ≡ set (set mem.old (first_byte w.0) (low_byte v))
        (first_byte w.0 + 1) (high_byte v) }
{
    let i = byte_of(w).0 as usize;
    let [low, high] = v.to_le_bytes();
    mem[i] = low;
    mem[i + 1] = high;
}

// What a load from a does to memory: a status byte loses DBA and OF.
fn touch(mem: &mut [u8; 65536], a: ByteAddr)
    ensures { mem.new
        ≡ commit (cond (status? a.0)
        (write a.0 (cleared_status (byte_at mem.old a.0)) ∷ []) [])
        mem.old }
{
    let i = a.0 as usize;
    if i < 16 {
        if i % 2 == 0 {
            mem[i] = cleared_status(mem[i]);
        }
    }
}

// A status byte with DBA clear.
fn without_dba(t: u8) -> u8
    ensures { result ≡ put_bit 2 t false }
{
    t / 8 * 8 + t % 4
}

// A status byte with DBA and OF clear.
fn cleared_status(t: u8) -> u8
    ensures { result ≡ cleared_status t }
{
    without_dba(t / 16 * 16 + t % 8)
}

// A status byte t after a store of v to it: bits 0 and 4 alone change.
fn stored_status(t: u8, v: u8) -> u8
    ensures { result ≡ stored_status t v }
{
    (t & 0xEE) | (v & 0x11)
}

// A load by an instruction: the byte, or the word that the byte lies in.
pub fn load(mem: &mut [u8; 65536], byte: bool, a: ByteAddr) -> u16
    ensures value { result ≡ value_at byte mem.old a.0 }
    ensures memory { mem.new
        ≡ commit (load_writes byte mem.old a.0) mem.old }
{
    if byte {
        let v = read_byte(mem, a);
        touch(mem, a);
        return v as u16;
    }
    let w = word_of(a);
    let v = read_word(mem, w);
    touch(mem, byte_of(w));
    v
}

// A byte stored to a device register, below 16.
fn store_device(mem: &mut [u8; 65536], a: ByteAddr, v: u8)
    requires { a.0 < 16 }
    ensures { mem.new
        ≡ commit (byte_writes mem.old a.0 v) mem.old }
{
    let i = a.0 as usize;
    if i % 2 == 0 {
        mem[i] = stored_status(mem[i], v);
        return;
    }
    let t = mem[i - 1];
    mem[i] = v;
    if t / 2 % 2 != 1 {
        mem[i - 1] = without_dba(t);
    }
}

// A byte stored by an instruction.
pub fn store_byte(mem: &mut [u8; 65536], a: ByteAddr, v: u8)
    ensures { mem.new
        ≡ commit (byte_writes mem.old a.0 v) mem.old }
{
    if a.0 < 16 {
        store_device(mem, a, v);
        return;
    }
    write_byte(mem, a, v);
}

// A word stored by an instruction, low byte first.
fn store_word(mem: &mut [u8; 65536], w: WordAddr, v: u16)
    requires { w.0 < 32768 }
    ensures { mem.new
        ≡ commit (store_writes false mem.old (first_byte w.0) v) mem.old }
{
    if 8 <= w.0 {
        write_word(mem, w, v);
        return;
    }
    let a = byte_of(w).0;
    let [low, high] = v.to_le_bytes();
    store_byte(mem, ByteAddr(a), low);
    store_byte(mem, ByteAddr(a + 1), high);
}

// A store by an instruction: the low byte of v, or all of it to the word that the byte lies in.
pub fn store(mem: &mut [u8; 65536], byte: bool, a: ByteAddr, v: u16)
    ensures { mem.new
        ≡ commit (store_writes byte mem.old a.0 v) mem.old }
{
    if byte {
        store_byte(mem, a, (v % 256) as u8);
        return;
    }
    store_word(mem, word_of(a), v);
}
