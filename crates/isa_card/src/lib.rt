// How many words mean an operation, and the next legal word that does. The words of an operation
// are one block; SRA to SXT have a second one, with bit 6 set.
#![tactic(auto)]

ghost use Rattle.std.specs.Prelude.{◌≡◌, ◌<◌, ◌≤◌, ◌+◌, ◌*◌, [], ◌∷◌};
ghost use Rattle.isa_card.specs.Words.{count_of, next_of};
ghost use Rattle.isa_card.specs.Blocks.{nth_block, misc_block, block_of, is_twice, first_among};

// Words that follow each other: the first, and how many.
#[derive(Clone, Copy)]
struct Block {
    first: u32,
    size: u32,
}

// Block n of blocks of a size that follow each other from a word on.
fn nth_block(n: u32, first: u32, size: u32) -> Block
    requires { first + n * size ≤ 65536 }
    ensures { result ≡ nth_block n first size }
{
    Block {
        first: first + n * size,
        size,
    }
}

// MOV to CLRCC; laid into block_of, as that is into its callers.
#[inline(always)]
fn misc_block(operation: u32) -> Block
    requires le_operation { 22 ≤ operation }
    requires operation_bound { operation < 33 }
    ensures { result ≡ misc_block operation }
{
    match operation {
        22 => nth_block(0, 0x4C00, 0x80),
        23 => nth_block(0, 0x4C80, 0x80),
        24..=28 => nth_block(operation - 24, 0x4D00, 8),
        29 => nth_block(0, 0x4D80, 8),
        30 => nth_block(0, 0x4DA0, 0x10),
        _ => nth_block(operation - 31, 0x4DC0, 0x20),
    }
}

// The words of an operation, the first ones of SRA to SXT.
// Kept: laid into its callers: as a call it makes a count or a next word a third dearer.
#[inline(always)]
fn block_of(operation: u32) -> Block
    requires le_operation { 1 ≤ operation }
    requires operation_bound { operation < 42 }
    ensures { result ≡ block_of operation }
{
    match operation {
        1 => nth_block(0, 0, 0x2000),
        2..=9 => nth_block(operation - 2, 0x2000, 0x400),
        10..=21 => nth_block(operation - 10, 0x4000, 0x100),
        22..=32 => misc_block(operation),
        33 => nth_block(0, 0x5000, 0x400),
        34..=35 => nth_block(operation - 34, 0x5800, 0x400),
        36..=39 => nth_block(operation - 36, 0x6000, 0x800),
        _ => nth_block(operation - 40, 0x8000, 0x4000),
    }
}

// Whether the operation has a second block, 64 words above the first: SRA, RRC, COMP, SWPB, SXT.
fn is_twice(operation: u32) -> bool
    ensures { result ≡ is_twice operation }
{
    matches!(operation, 24..=28)
}

// How many of the 65,536 words mean the operation with this number.
pub fn count_of(operation: u32) -> u32
    ensures count { result ≡ count_of operation }
    ensures fits { result ≤ 65536 }
{
    match operation {
        0 => 1624,
        1..=41 => {
            let size = block_of(operation).size;
            if is_twice(operation) {
                size + size
            } else {
                size
            }
        }
        _ => 0,
    }
}

// The first word of a block at or above a given one, or none.
fn next_in(words: Block, word: u32) -> Option<u32>
    requires { words.first + words.size ≤ 65536 }
    ensures { result ≡ first_among (words ∷ []) word }
{
    if word < words.first + words.size {
        Some(word.max(words.first))
    } else {
        None
    }
}

// The first legal word at or above a given one with the operation of this number, or none.
pub fn next_of(operation: u32, word: u32) -> Option<u32>
    ensures { result ≡ next_of operation word }
{
    if operation < 1 || 41 < operation {
        return None;
    }
    let words = block_of(operation);
    let found = next_in(words, word);
    if !is_twice(operation) {
        return found;
    }
    let above = Block {
        first: words.first + 64,
        size: words.size,
    };
    found.or(next_in(above, word))
}
