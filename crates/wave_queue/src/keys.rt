//! Keys: costs in a number of 32 or 128 bits.

ghost use Rattle.std.specs.Prelude.{◌≡◌, ◌<◌, ◌≤◌, ◌+◌, ◌-◌, ◌^◌, ◌↔◌, ℕ, IsTrue, min};
ghost use Rattle.std.proofs.Common.{arith};
ghost use Rattle.wave_queue.specs.kept.Buckets.{most_buckets, low_bucket_of, bucket_of};

/// The number of buckets.
pub(crate) const BUCKETS: usize = 8193;

/// A cost in a number of fixed width. The greatest number means that cost or any greater one.
pub trait Key: Copy + Drop {
    ghost value: { Self → ℕ };

    ghost greatest: { ℕ };

    /// Returns a cost of 0.
    fn zero() -> Self
        ensures { value result ≡ 0 };

    /// Returns the greatest number.
    fn greatest() -> Self
        ensures { value result ≡ greatest };

    /// Returns a cost, or the greatest number if the cost doesn't fit.
    fn cut(cost: u128) -> Self
        ensures { value result ≡ min cost greatest };

    /// Returns the sum, or the greatest number if the sum doesn't fit.
    fn plus(self, more: Self) -> Self
        ensures { value result ≡ min (value self + value more) greatest };

    /// Returns whether it is less than another.
    fn is_below(self, other: Self) -> bool
        ensures { IsTrue result ↔ (value self < value other) };

    /// Returns the number.
    fn wide(self) -> u128
        ensures exact { result ≡ value self }
        ensures within { result ≤ greatest };

    /// Returns the bucket of a key.
    fn bucket(self) -> usize
        ensures exact { result ≡ bucket_of (value self) }
        ensures within { result < most_buckets };

    ghost narrow: { greatest ≤ 2 ^ 128 - 1 };

    ghost some: { 0 < greatest };
}

impl Key for u32 {
    ghost value = { λ key. key };

    ghost greatest = { 2 ^ 32 - 1 };

    #[inline(always)]
    fn zero() -> u32 {
        0
    }

    #[inline(always)]
    fn greatest() -> u32 {
        u32::MAX
    }

    #[inline(always)]
    fn cut(cost: u128) -> u32 {
        u32::try_from(cost).unwrap_or(u32::MAX)
    }

    #[inline(always)]
    fn plus(self, more: u32) -> u32 {
        self.saturating_add(more)
    }

    #[inline(always)]
    fn is_below(self, other: u32) -> bool {
        self < other
    }

    #[inline(always)]
    fn wide(self) -> u128 {
        u128::from(self)
    }

    #[inline(always)]
    #[tactic(auto, using(crate::proofs::KeysInOrder::bucket_within))]
    fn bucket(self) -> usize {
        bucket_of(self)
    }

    ghost narrow = { omega arith };

    ghost some = { omega arith };
}

impl Key for u128 {
    ghost value = { λ key. key };

    ghost greatest = { 2 ^ 128 - 1 };

    #[inline(always)]
    fn zero() -> u128 {
        0
    }

    #[inline(always)]
    fn greatest() -> u128 {
        u128::MAX
    }

    #[inline(always)]
    fn cut(cost: u128) -> u128 {
        cost
    }

    #[inline(always)]
    fn plus(self, more: u128) -> u128 {
        self.saturating_add(more)
    }

    #[inline(always)]
    fn is_below(self, other: u128) -> bool {
        self < other
    }

    #[inline(always)]
    fn wide(self) -> u128 {
        self
    }

    #[inline(always)]
    #[tactic(auto, using(crate::proofs::KeysInOrder::bucket_within), unfolding(crate::specs::kept::Buckets::bucket_of))]
    fn bucket(self) -> usize {
        if self < 0x1_0000_0000 {
            return bucket_of(self as u32);
        }
        BUCKETS - 1
    }

    ghost narrow = { omega arith };

    ghost some = { omega arith };
}

/// Returns the bucket of a key below 2 ^ 28.
#[inline(always)]
#[tactic(auto, unfolding(crate::specs::kept::Buckets::low_bucket_of))]
fn low_bucket_of(key: u32) -> usize
    ensures { result ≡ low_bucket_of key }
{
    let key = key as usize;
    if key < 0x1_0000 {
        return key / 16;
    }
    if key < 0x10_0000 {
        return 4096 + key / 1024;
    }
    if key < 0x100_0000 {
        return 5120 + key / 16_384;
    }
    6144 + key / 262_144
}

/// Returns the bucket of a key of 32 bits.
#[inline(always)]
#[tactic(auto, unfolding(crate::specs::kept::Buckets::bucket_of))]
fn bucket_of(key: u32) -> usize
    ensures { result ≡ bucket_of key }
{
    if key < 0x1000_0000 {
        return low_bucket_of(key);
    }
    7168 + key as usize / 0x40_0000
}
