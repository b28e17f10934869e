//! Sets of tracks as bits.

ghost use Rattle.std.specs.Prelude.{◌≡◌, ◌<◌, IfSome};
ghost use Rattle.std.specs.Int.{bit_at};
ghost use Rattle.wave_queue.specs.kept.Bits.{TakesBit, PutsBit, DropsBit, NoneBelow, IsOnlyBit};

/// Removes the lowest bit that is 1 from a set and returns its place.
#[inline(always)]
pub fn take_bit(bits: &mut u64) -> u32
    requires { 0 < bits.old }
    ensures taken { TakesBit bits.old bits.new result }
    ensures fewer { bits.new < bits.old }
{
    let bit = bits.trailing_zeros();
    *bits &= !(1u64 << bit);
    bit
}

/// Returns a set with a bit added.
#[inline(always)]
pub fn with_bit(bits: u64, bit: u32) -> u64
    requires { bit < 64 }
    ensures { PutsBit bits result bit }
{
    bits | (1u64 << bit)
}

/// Returns a set without a bit.
#[inline(always)]
pub(crate) fn without_bit(bits: u64, bit: u32) -> u64
    requires { bit < 64 }
    ensures { DropsBit bits result bit }
{
    bits & !(1u64 << bit)
}

/// Returns the place of the only bit that is 1, if exactly one is.
#[inline(always)]
pub fn only_bit(bits: u64) -> Option<u32>
    ensures { IfSome result (IsOnlyBit bits) }
{
    if bits == 0 {
        return None;
    }
    let mut rest = bits;
    let bit = take_bit(&mut rest);
    if rest == 0 { Some(bit) } else { None }
}

/// Returns the place of the lowest bit that is 1.
#[inline(always)]
pub fn lowest_bit(bits: u64) -> u32
    requires { 0 < bits }
    ensures within { result < 64 }
    ensures one { bit_at bits result ≡ 1 }
    ensures first { NoneBelow bits result }
{
    bits.trailing_zeros()
}
