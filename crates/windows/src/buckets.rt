//! Buckets of one second, and rings of them.
ghost use Rattle.std.specs.Prelude.{◌≡◌, ◌<◌, ◌≤◌, ◌+◌, ◌-◌, ◌^◌, ◌++◌, ◌∷◌, [], slice_get, drop};
ghost use Rattle.circular_buffer.specs.Buffer.{buffer, keep_last};
ghost use Rattle.service_profile.specs.RunningTotals.{AreTotals};
ghost use Rattle.windows.specs.Rings.{has_fallen, if_fallen, left, newest, older, with_totals, totals_of_bucket};
ghost use Rattle.windows.specs.Sums.{plus, sum_of};

use crate::sums::{minus, plus};
use circular_buffer::HeapCircularBuffer;
use service_profile::Totals;

/// The totals of the notes of one second.
#[derive(Clone, Copy, Debug, PartialEq, Eq)]
pub struct Bucket {
    /// A moment in milliseconds, divided by 1,000 and rounded down.
    pub second: u64,
    pub totals: Totals,
}

/// Whether a bucket's second lies so many seconds back, or more.
fn has_fallen(size: u64, second: u64, bucket: Bucket) -> bool
    ensures { result ≡ has_fallen size second bucket }
{
    size <= second.saturating_sub(bucket.second)
}

/// The bucket at a place, counted from the oldest, where it has fallen out of the window.
fn fallen_at(
    ring: &HeapCircularBuffer<Bucket>,
    index: usize,
    size: u64,
    second: u64,
) -> Option<Bucket>
    ensures { result ≡ if_fallen size second (slice_get ring.now.items index) }
{
    match ring.get(index).copied() {
        Some(bucket) if has_fallen(size, second, bucket) => Some(bucket),
        _ => None,
    }
}

/// The totals of the buckets that have not fallen out. It goes over those that have.
pub(crate) fn totals_left(
    ring: &HeapCircularBuffer<Bucket>,
    totals: Totals,
    size: u64,
    second: u64,
) -> Totals
    requires { totals ≡ sum_of totals_of_bucket ring.now.items }
    ensures { result ≡ sum_of totals_of_bucket (left size second ring.now.items) }
{
    let mut staying = totals;
    'fallen: for index in 0..ring.len() {
        let Some(bucket) = fallen_at(ring, index, size, second) else {
            break;
        };
        staying = minus(staying, bucket.totals);
    }
    staying
}

/// Drops the buckets that have fallen out, and gives the totals of those that are left.
pub(crate) fn drop_fallen(
    ring: &mut HeapCircularBuffer<Bucket>,
    totals: Totals,
    size: u64,
    second: u64,
) -> Totals
    requires { totals ≡ sum_of totals_of_bucket ring.old.items }
    ensures ring { ring.new ≡ buffer (left size second ring.old.items) ring.old.capacity }
    ensures totals { result ≡ sum_of totals_of_bucket ring.new.items }
{
    let mut staying = totals;
    'fallen: while let Some(bucket) = fallen_at(ring, 0, size, second) {
        staying = minus(staying, bucket.totals);
        ring.pop_front();
    }
    staying
}

/// Takes out the bucket for a note of a second: the newest one, where it is of this second or a later one,
/// else an empty one.
fn take_newest(ring: &mut HeapCircularBuffer<Bucket>, second: u64) -> Bucket
    ensures bucket { result ≡ newest second ring.old.items }
    ensures ring { ring.new ≡ buffer (older second ring.old.items) ring.old.capacity }
{
    match ring.back().copied() {
        Some(bucket) if second <= bucket.second => {
            ring.pop_back();
            bucket
        }
        _ => Bucket {
            second,
            totals: Totals::NONE,
        },
    }
}

/// Adds totals to the bucket of a second.
pub(crate) fn add(ring: &mut HeapCircularBuffer<Bucket>, second: u64, more: Totals)
    requires { AreTotals (2 ^ 64 - 1) (plus (sum_of totals_of_bucket ring.old.items) more) }
    ensures { ring.new ≡ buffer (keep_last ring.old.capacity (older second ring.old.items ++ with_totals (newest second ring.old.items) more ∷ [])) ring.old.capacity }
{
    let bucket = take_newest(ring, second);
    ring.push_back(Bucket {
        second: bucket.second,
        totals: plus(bucket.totals, more),
    });
}
