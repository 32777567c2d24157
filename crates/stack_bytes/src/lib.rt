// Stack bytes that a paper will need: for each priority above p the dearest handler of the devices
// chosen, and the sum of these.
#![tactic(auto)]

ghost use Rattle.std.specs.Prelude.{◌≡◌, true, cond, ◌&&◌, ◌<◌, eqb, ltb, length};
ghost use Rattle.machine.specs.Depth.{greater};
ghost use Rattle.stack_need.specs.Need.{given?, level_of, cost_of, dearest};
ghost use Rattle.stack_need.specs.Need.{sum_above, uses_fit, need_refused?, need_reply};

use little_endian::two_at;

// Is device d among those chosen?
fn chosen(devices: u8, d: usize) -> bool
    requires { d < 8 }
    ensures { result ≡ given? devices d }
{
    (devices >> d) % 2 == 1
}

// The handlers of the eight devices: their vectors, the devices chosen, what each uses of the stack.
#[derive(Clone, Copy)]
struct Handlers<'a> {
    vectors: &'a [u8],
    devices: u8,
    uses: &'a [u8],
    ghost vectors_len: { length vectors.now ≡ 64 },
    ghost uses_len: { length uses.now ≡ 16 },
}

// The priority of device d's vector.
#[tactic(auto, unfolding(stack_need::specs::Need::level_of))]
fn level_of(h: Handlers, d: usize) -> u32
    requires { d < 8 }
    ensures { result ≡ level_of h.entry.vectors.now d }
{
    two_at(h.vectors, 4 * d) as u32 / 32 % 8
}

// What device d's handler takes: its frame of 8 bytes, and its own use.
#[tactic(auto, unfolding(stack_need::specs::Need::use_of))]
fn cost_of(h: Handlers, d: usize) -> u32
    requires { d < 8 }
    ensures { result ≡ cost_of h.entry.uses.now d }
{
    8 + two_at(h.uses, 2 * d) as u32
}

// The most so far, device d looked at: it counts where it is chosen and of this priority.
fn with_device(h: Handlers, level: u32, d: usize, most: u32) -> u32
    requires { d < 8 }
    ensures { result ≡ cond (given? h.entry.devices d && eqb (level_of h.entry.vectors.now d) level)
        (greater most (cost_of h.entry.uses.now d)) most }
{
    if chosen(h.devices, d) && level_of(h, d) == level {
        most.max(cost_of(h, d))
    } else {
        most
    }
}

// What the dearest of the chosen devices of this priority takes, 0 where there is none.
fn dearest_of(h: Handlers, level: u32) -> u32
    ensures { result ≡ dearest h.entry.vectors.now h.entry.devices h.entry.uses.now 8 level }
{
    let mut most = 0;
    for d in 0..8 {
        most = with_device(h, level, d, most);
    }
    most
}

// What this priority adds: nothing where it is not above p.
fn level_need(h: Handlers, p: u32, level: u32) -> u32
    ensures { result ≡ cond (ltb p level)
        (dearest h.entry.vectors.now h.entry.devices h.entry.uses.now 8 level) 0 }
{
    if level <= p { 0 } else { dearest_of(h, level) }
}

// The sum over the priorities above p.
fn sum_above(h: Handlers, p: u32) -> u32
    requires { uses_fit h.uses.now 8 ≡ true }
    ensures { result ≡ sum_above h.entry.vectors.now h.entry.devices h.entry.uses.now 7 p }
{
    let mut sum = 0;
    for level in 1..8 {
        sum += level_need(h, p, level);
    }
    sum
}

// Is every use, of a device chosen or not, at most 1,024?
fn uses_fit(uses: &[u8]) -> bool
    requires { length uses.now ≡ 16 }
    ensures { result ≡ uses_fit uses.now 8 }
{
    for d in 0..8 {
        if 1024 < two_at(uses, 2 * d) {
            return false;
        }
    }
    true
}

// Refusal 16: a buffer of another length, p above 7, or a use above 1,024.
fn refused(vectors: &[u8], uses: &[u8], p: u32) -> bool
    ensures { result ≡ need_refused? vectors.now uses.now p }
{
    if vectors.len() != 64 {
        return true;
    }
    if uses.len() != 16 {
        return true;
    }
    if 7 < p {
        return true;
    }
    !uses_fit(uses)
}

// The whole call: refusal in bits 7-0, the bytes in bits 31-8.
pub fn stack_call(vectors: &[u8], devices: u8, uses: &[u8], p: u32) -> u32
    ensures { result
        ≡ need_reply vectors.now devices uses.now p }
{
    if refused(vectors, uses, p) {
        return 16;
    }
    let h = Handlers {
        vectors,
        devices,
        uses,
    };
    sum_above(h, p) * 256
}
