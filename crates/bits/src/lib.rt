// Masks on a byte. The definitions go by the bit's number, and the laws that join the two are proved once over it.
#![tactic(auto)]

ghost use Rattle.std.specs.Prelude.{◌≡◌, cond, ◌%◌};
ghost use Rattle.bits.specs.Bits.{bit_of, set_bit, clear_bit, numbered, matches};

// The bits of a byte: a number modulo this one is a bit's.
const BITS: u8 = 8;

// Bits 3-1 of a vector.
const VECTOR_NUMBER: u8 = 0x0E;

// Bit k modulo 8, as a number.
#[tactic(auto, unfolding(crate::specs::Bits::bit_of))]
pub fn bit_of(k: u8, x: u8) -> u8
    ensures { result ≡ bit_of (k % 8) x }
{
    (x >> (k % BITS)) % 2
}

pub fn set_bit(k: u8, x: u8) -> u8
    ensures { result ≡ set_bit (k % 8) x }
{
    x | (1u8 << (k % BITS))
}

pub fn clear_bit(k: u8, x: u8) -> u8
    ensures { result ≡ clear_bit (k % 8) x }
{
    x & !(1u8 << (k % BITS))
}

// The vector with bits 3-1 replaced.
#[tactic(auto, using(crate::proofs::Laws::number_in))]
pub fn with_number(vector: u8, number: u8) -> u8
    ensures { result ≡ numbered vector number }
{
    (vector & !VECTOR_NUMBER) | ((number & 7) << 1)
}

// Every bit whose mask bit is 0 equals the match bit.
#[tactic(auto, using(crate::proofs::Laws::match_is))]
pub fn is_match(byte: u8, pattern: u8, mask: u8) -> bool
    ensures { result ≡ matches byte pattern mask }
{
    (byte ^ pattern) & !mask == 0
}

// The first if so, else the second.
pub fn choose<T: Copy>(first: bool, a: T, b: T) -> T
    ensures { result ≡ cond first a b }
{
    if first {
        return a;
    }
    b
}
