//! Buckets, and the positions of numbers in them.

ghost use Rattle.std.specs.Prelude.{◌≡◌, ◌<◌, ℕ, IfOk, length, replicate, slice_index, slice_set, ◌≢◌, ◌+◌, [], map, get_or, ◌≤◌, IfNone, IfSome};
ghost use Rattle.plan_schedule.specs.BucketContents.{bucket_len, HasRoom};
ghost use Rattle.plan_schedule.specs.Removal.{Removes, LacksPosition, HasPositions};
ghost use Rattle.plan_schedule.specs.Positions.{number_at};

use std::alloc::{AllocError, Global};
use std::marker::Model;

/// A set of numbers, each of which is in one bucket.
#[derive(Drop)]
pub struct Buckets {
    positions: Positions,
}

impl Model for Buckets {
    ghost use Rattle.std.specs.Prelude.{map, length};
    ghost use Rattle.plan_schedule.specs.BucketContents.{BucketContents};

    ghost Value = { BucketContents };

    ghost use Rattle.plan_schedule.specs.Removal.{HasPositions};

    ghost view = { λ s. record { bucket = s.positions.bucket.items; capacity = map length s.positions.rows.items } };

    ghost invariant = { λ s. HasPositions s.positions };
}

impl Buckets {
    /// Returns the bucket of a number.
    pub fn bucket(&self, number: u32) -> u32
        requires { number < length self.now.bucket }
        ensures { result ≡ slice_index self.now.bucket number }
    {
        self.positions.bucket[number as usize]
    }

    /// Returns the number of items in a bucket.
    pub fn len(&self, bucket: u32) -> u32
        requires { bucket < length self.now.capacity }
        ensures { result ≡ bucket_len bucket self.now.bucket }
    {
        self.positions.lens[bucket as usize]
    }

    /// Returns one of the numbers in a bucket. Returns None if the bucket is empty.
    pub fn top(&self, bucket: u32) -> Option<u32>
        requires { bucket < length self.now.capacity }
        ensures some { IfSome result (λ e. (e < length self.now.bucket) × (slice_index self.now.bucket e ≡ bucket)) }
        ensures none { IfNone result ((e : ℕ) → e < length self.now.bucket → slice_index self.now.bucket e ≢ bucket) }
    {
        let len = self.positions.lens[bucket as usize];
        if len == 0 {
            return None;
        }
        Some(self.positions.rows[bucket as usize].at(len - 1))
    }

    /// Moves a number to a bucket, which must have room.
    pub fn put(&mut self, number: u32, bucket: u32)
        requires here { number < length self.old.bucket }
        requires bucket { bucket < length self.old.capacity }
        requires capacity { HasRoom self.old number bucket }
        ensures { self.new ≡ record self.old { bucket = slice_set self.old.bucket number bucket } }
    {
        if self.positions.bucket[number as usize] == bucket {
            return;
        }
        remove(&mut self.positions, number);
        insert(&mut self.positions, number, bucket);
    }
}

/// Creates the positions of each bucket.
fn rows(alloc: Global, capacities: &[u32]) -> Result<Vec<BucketRow>, AllocError>
    ensures capacities { IfOk result (λ v. map length v.items ≡ capacities.now) }
    ensures each { IfOk result (λ v. (s i : ℕ) → i < slice_index capacities.now s → number_at v.items s i ≡ i) }
{
    let mut rows = Vec::with_capacity(alloc, capacities.len())?;
    for capacity in capacities {
        rows.push(BucketRow::of_indices(alloc, *capacity)?)?;
    }
    Ok(rows)
}

impl Buckets {
    /// Creates buckets with these capacities, and the numbers below `numbers`, all of which are in the first
    /// bucket.
    pub fn new(alloc: Global, numbers: u32, capacities: &[u32]) -> Result<Buckets, AllocError>
        requires first { 0 < length capacities.now }
        requires capacity { numbers ≤ slice_index capacities.now 0 }
        ensures bucket { IfOk result (λ s. s.bucket ≡ replicate numbers 0) }
        ensures capacity { IfOk result (λ s. s.capacity ≡ capacities.now) }
    {
        let rows = rows(alloc, capacities)?;
        let mut lens = vec![in alloc; 0; capacities.len()]?;
        lens[0] = numbers;
        let places = ascending(alloc, numbers)?;
        let bucket = vec![in alloc; 0; numbers as usize]?;
        Ok(Buckets {
            positions: Positions {
                rows,
                lens,
                places,
                bucket,
            },
        })
    }
}

/// The positions of a bucket, each with a number.
#[derive(Drop)]
pub struct BucketRow {
    positions: Vec<u32>,
}

impl Model for BucketRow {
    ghost use Rattle.std.specs.Prelude.{List, ℕ};

    ghost Value = { List ℕ };

    ghost view = { λ r. r.positions.items };
}

impl BucketRow {
    /// Creates a bucket with `len` positions.
    pub fn new(alloc: Global, len: usize) -> Result<BucketRow, AllocError>
        ensures { IfOk result (λ r. r ≡ replicate len 0) }
    {
        Ok(BucketRow {
            positions: vec![in alloc; 0; len]?,
        })
    }

    /// Returns the number at position `i`.
    pub fn at(&self, i: u32) -> u32
        requires { i < length self.now }
        ensures { result ≡ slice_index self.now i }
    {
        self.positions[i as usize]
    }

    /// Stores a number at position `i`.
    pub fn set(&mut self, i: u32, number: u32)
        requires { i < length self.old }
        ensures { self.new ≡ slice_set self.old i number }
    {
        self.positions[i as usize] = number;
    }
}

/// Returns the numbers from 0 up to `len`.
pub fn ascending(alloc: Global, len: u32) -> Result<Vec<u32>, AllocError>
    ensures len { IfOk result (λ v. length v.items ≡ len) }
    ensures each { IfOk result (λ v. (i : ℕ) → i < len → slice_index v.items i ≡ i) }
{
    let mut numbers = Vec::with_capacity(alloc, len as usize)?;
    for number in 0..len {
        numbers.push(number)?;
    }
    Ok(numbers)
}

impl BucketRow {
    /// Creates a bucket with `len` positions, each of which holds its own index.
    pub fn of_indices(alloc: Global, len: u32) -> Result<BucketRow, AllocError>
        ensures len { IfOk result (λ r. length r ≡ len) }
        ensures each { IfOk result (λ r. (i : ℕ) → i < len → slice_index r i ≡ i) }
    {
        Ok(BucketRow {
            positions: ascending(alloc, len)?,
        })
    }
}

/// The positions of each bucket, and the position of each number.
#[derive(Drop)]
pub struct Positions {
    /// The positions of each bucket, the occupied ones first.
    pub rows: Vec<BucketRow>,
    /// The number of occupied positions of each bucket.
    pub lens: Vec<u32>,
    /// The position of each number in its bucket.
    pub places: Vec<u32>,
    /// The bucket of each number.
    pub bucket: Vec<u32>,
}

/// Removes a number from its bucket, and moves the last number of the bucket to its position.
pub fn remove(positions: &mut Positions, number: u32)
    requires here { number < length positions.old.bucket.items }
    requires in_position { HasPositions positions.old }
    ensures { Removes number positions.old positions.new }
{
    let bucket = positions.bucket[number as usize] as usize;
    let place = positions.places[number as usize];
    let left = positions.lens[bucket] - 1;
    let last = positions.rows[bucket].at(left);
    let row = &mut positions.rows[bucket];
    row.set(place, last);
    positions.places[last as usize] = place;
    positions.lens[bucket] = left;
}

/// Adds a number, which has no position, at the next position of a bucket.
pub fn insert(positions: &mut Positions, number: u32, bucket: u32)
    requires here { number < length positions.old.bucket.items }
    requires bucket { bucket < length positions.old.rows.items }
    requires another { slice_index positions.old.bucket.items number ≢ bucket }
    requires capacity { bucket_len bucket positions.old.bucket.items < length (get_or positions.old.rows.items bucket []) }
    requires in_position { LacksPosition number positions.old }
    ensures in_position { HasPositions positions.new }
    ensures bucket { positions.new.bucket.items ≡ slice_set positions.old.bucket.items number bucket }
    ensures capacity { map length positions.new.rows.items ≡ map length positions.old.rows.items }
{
    let end = positions.lens[bucket as usize];
    let row = &mut positions.rows[bucket as usize];
    row.set(end, number);
    positions.places[number as usize] = end;
    positions.lens[bucket as usize] = end + 1;
    positions.bucket[number as usize] = bucket;
}
