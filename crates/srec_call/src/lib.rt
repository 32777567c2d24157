// The two calls for S-records on raw buffers and numbers: each judges all that it was lent before
// it changes a byte.
#![tactic(auto)]

ghost use Rattle.std.specs.Prelude.{◌≡◌};
ghost use Rattle.srec_call.specs.Call.{load_reply, load_call_of, write_call_of};

use srec::Refusal;

// Refusal, PC and line at fault as one number.
#[tactic(auto, unfolding(crate::specs::Call::load_reply))]
fn reply(refusal: u8, pc: u16, line: u64) -> u64
    ensures { result ≡ load_reply refusal pc line }
{
    refusal as u64 + 65536 * (pc as u64) + 4294967296 * line.min(4294967295)
}

// A text of S-records loaded into memory: refusal, PC and line at fault. Refused, memory stays as
// it was and the PC is the one handed in.
pub fn load_call(memory: &mut [u8], text: &[u8], pc: u16) -> u64
    ensures reply { result ≡ (load_call_of memory.old text.now pc).reply }
    ensures memory { memory.new
        ≡ (load_call_of memory.old text.now pc).memory }
{
    if memory.len() != 65536 {
        return reply(u8::from(Refusal::MemoryLength), pc, 0);
    }
    match srec_load::judge(text) {
        Ok(()) => {
            let last = srec_load::load(memory, text, pc);
            reply(0, last, 0)
        }
        Err(fault) => reply(u8::from(fault.refusal), pc, fault.line),
    }
}

// A span of memory written as S-records at the start of `text`: refusal and bytes written. Bytes
// past the text, and all of them where refused, stay as they were.
pub fn write_call(memory: &[u8], start: u16, size: u32, pc: u16, text: &mut [u8]) -> u64
    ensures reply { result
        ≡ (write_call_of memory.now start size pc text.old).reply }
    ensures text { text.new
        ≡ (write_call_of memory.now start size pc text.old).text }
{
    if memory.len() != 65536 {
        return u8::from(Refusal::MemoryLength) as u64;
    }
    let a = start as usize;
    let n = size as usize;
    if 65536 < a + n {
        return u8::from(Refusal::Room) as u64;
    }
    let need = 11 * ((n + 15) / 16) + 2 * n + 11;
    if text.len() < need {
        return u8::from(Refusal::Room) as u64;
    }
    let count = srec_write::write(memory, a, n, pc as usize, text);
    256 * (count as u64)
}
