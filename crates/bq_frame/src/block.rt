//! The block, and what is read from it and written to it.

ghost use Rattle.std.specs.Prelude.{◌≡◌, ◌+◌, ◌<◌, ◌≤◌, ◌++◌, All, IfOk, drop, length, replicate, slice_range, take};
ghost use Rattle.std.specs.List.{splice};
ghost use Rattle.bq_word.specs.Word.{le_bytes, le_number};

use crate::raw;
use std::alloc::{AllocError, Global};
use std::marker::Model;

/// How many bytes a block has.
pub const BLOCK_LENGTH: usize = 640;

/// Where the record begins: behind the frame, which has as many bytes.
pub const RECORD_AT: usize = 512;

/// How many bytes a value's room has: what is behind the frame, without the id and the sequence number.
pub const ROOM_LENGTH: usize = 112;

/// Up to so many bytes a value is short: most values are, and they are copied faster.
const SHORT_LENGTH: usize = 48;

/// 640 bytes in one allocation, which is freed when the block is dropped: a frame of 512 bytes, and behind it room for
/// a record. Contracts see it as the list of its bytes.
#[derive(Drop)]
pub struct Block {
    bytes: Box<[u8; BLOCK_LENGTH]>,
}

impl Model for Block {
    ghost use Rattle.std.specs.Prelude.{List, ℕ, ◌≡◌, length};

    ghost Value = { List ℕ };

    ghost view = { λ b. b.bytes.value };

    ghost invariant = { λ b. length b.bytes.value ≡ 640 };
}

impl Block {
    /// A block of zeros. The one error is that memory ran out.
    pub fn new(alloc: Global) -> Result<Block, AllocError>
        ensures { IfOk result (λ b. b ≡ replicate 640 0) }
    {
        let bytes = Box::new(alloc, [0; BLOCK_LENGTH])?;
        Ok(Block { bytes })
    }

    /// It has 640 bytes.
    pub fn is_block(&self)
        ensures count { length self.now ≡ 640 }
        ensures each { All (λ b. b < 256) self.now }
    {
        let bytes: &[u8; BLOCK_LENGTH] = &self.bytes;
        are_bytes(bytes);
    }

    /// The byte at a place.
    #[inline(always)]
    pub unsafe fn load1(&self, at: usize) -> u64
        requires { at + 1 ≤ 640 }
        ensures { result ≡ le_number (slice_range self.now at (at + 1)) }
    {
        let bytes: &[u8; BLOCK_LENGTH] = &self.bytes;
        u64::from(unsafe { raw::load(bytes, at) })
    }

    /// The number that lies in 2 bytes from a place on.
    #[inline(always)]
    pub unsafe fn load2(&self, at: usize) -> u64
        requires { at + 2 ≤ 640 }
        ensures { result ≡ le_number (slice_range self.now at (at + 2)) }
    {
        let bytes: &[u8; BLOCK_LENGTH] = &self.bytes;
        u64::from(u16::from_le_bytes(unsafe { [raw::load(bytes, at), raw::load(bytes, at + 1)] }))
    }

    /// The number that lies in 4 bytes from a place on.
    #[inline(always)]
    pub unsafe fn load4(&self, at: usize) -> u64
        requires { at + 4 ≤ 640 }
        ensures { result ≡ le_number (slice_range self.now at (at + 4)) }
    {
        let bytes: &[u8; BLOCK_LENGTH] = &self.bytes;
        u64::from(u32::from_le_bytes(unsafe {
            [
                raw::load(bytes, at),
                raw::load(bytes, at + 1),
                raw::load(bytes, at + 2),
                raw::load(bytes, at + 3),
            ]
        }))
    }

    /// The number that lies in 8 bytes from a place on.
    #[inline(always)]
    pub unsafe fn load8(&self, at: usize) -> u64
        requires { at + 8 ≤ 640 }
        ensures { result ≡ le_number (slice_range self.now at (at + 8)) }
    {
        let bytes: &[u8; BLOCK_LENGTH] = &self.bytes;
        u64::from_le_bytes(unsafe {
            [
                raw::load(bytes, at),
                raw::load(bytes, at + 1),
                raw::load(bytes, at + 2),
                raw::load(bytes, at + 3),
                raw::load(bytes, at + 4),
                raw::load(bytes, at + 5),
                raw::load(bytes, at + 6),
                raw::load(bytes, at + 7),
            ]
        })
    }

    /// Puts the lowest byte of a number at a place.
    #[inline(always)]
    pub unsafe fn store1(&mut self, at: usize, value: u64)
        requires { at + 1 ≤ 640 }
        ensures { self.new ≡ splice self.old at (at + 1) (le_bytes 1 value) }
    {
        let bytes: &mut [u8; BLOCK_LENGTH] = &mut self.bytes;
        put_lowest::<1>(bytes, at, value);
    }

    /// Puts the lowest 2 bytes of a number at a place and behind it.
    #[inline(always)]
    pub unsafe fn store2(&mut self, at: usize, value: u64)
        requires { at + 2 ≤ 640 }
        ensures { self.new ≡ splice self.old at (at + 2) (le_bytes 2 value) }
    {
        let bytes: &mut [u8; BLOCK_LENGTH] = &mut self.bytes;
        put_lowest::<2>(bytes, at, value);
    }

    /// Puts the lowest 4 bytes of a number at a place and behind it.
    #[inline(always)]
    pub unsafe fn store4(&mut self, at: usize, value: u64)
        requires { at + 4 ≤ 640 }
        ensures { self.new ≡ splice self.old at (at + 4) (le_bytes 4 value) }
    {
        let bytes: &mut [u8; BLOCK_LENGTH] = &mut self.bytes;
        put_lowest::<4>(bytes, at, value);
    }

    /// Puts the 8 bytes of a number at a place and behind it.
    #[inline(always)]
    pub unsafe fn store8(&mut self, at: usize, value: u64)
        requires { at + 8 ≤ 640 }
        ensures { self.new ≡ splice self.old at (at + 8) (le_bytes 8 value) }
    {
        let bytes: &mut [u8; BLOCK_LENGTH] = &mut self.bytes;
        put_lowest::<8>(bytes, at, value);
    }

    /// Makes the frame all zeros. The bytes behind it stay.
    pub fn clear_frame(&mut self)
        ensures { self.new ≡ replicate 512 0 ++ drop 512 self.old }
    {
        let bytes: &mut [u8; BLOCK_LENGTH] = &mut self.bytes;
        put(bytes, 0, &[0; RECORD_AT]);
    }

    /// Puts a record of 16 to 128 bytes behind the frame. The bytes behind it stay.
    pub fn set_record(&mut self, record: &[u8])
        requires least { 16 ≤ length «record».now }
        requires most { length «record».now ≤ 128 }
        ensures whole { self.new ≡ splice self.old 512 (512 + length «record».now) «record».now }
        ensures frame { take 512 self.new ≡ take 512 self.old }
        ensures record { take (length «record».now) (drop 512 self.new) ≡ «record».now }
    {
        let bytes: &mut [u8; BLOCK_LENGTH] = &mut self.bytes;
        copy(bytes, RECORD_AT, record);
    }

    /// Puts the record of an entry behind the frame: an id and a sequence number, 8 bytes each in little-endian order,
    /// and a value, which is so many of the first bytes of its room. What lies behind the record is not told.
    #[inline(always)]
    pub fn set_entry(&mut self, id: u64, number: u64, room: &[u8; ROOM_LENGTH], count: usize)
        requires { count ≤ 112 }
        ensures frame { take 512 self.new ≡ take 512 self.old }
        ensures record { take (16 + count) (drop 512 self.new) ≡ le_bytes 8 id ++ (le_bytes 8 number ++ take count room.now) }
    {
        let bytes: &mut [u8; BLOCK_LENGTH] = &mut self.bytes;
        put_lowest::<8>(bytes, RECORD_AT, id);
        put_lowest::<8>(bytes, RECORD_AT + 8, number);
        copy_room(bytes, RECORD_AT + 16, room, count);
    }
}

// Each byte is below 256.
fn are_bytes(bytes: &[u8])
    ensures { All (λ b. b < 256) bytes.now }
{
    let _count = bytes.len();
}

// Puts bytes from a place on, all at once.
#[inline(always)]
fn copy(bytes: &mut [u8], at: usize, part: &[u8])
    requires { at + length part.now ≤ length bytes.old }
    ensures { bytes.new ≡ splice bytes.old at (at + length part.now) part.now }
{
    bytes[at..at + part.len()].copy_from_slice(part);
}

// Copies a room to a place: so many of its first bytes at least.
#[inline(always)]
fn copy_room(bytes: &mut [u8], at: usize, room: &[u8; ROOM_LENGTH], count: usize)
    requires few { count ≤ 112 }
    requires inside { at + 112 ≤ length bytes.old }
    ensures before { take at bytes.new ≡ take at bytes.old }
    ensures part { take count (drop at bytes.new) ≡ take count room.now }
{
    if count <= SHORT_LENGTH {
        copy_first::<SHORT_LENGTH>(bytes, at, room);
    } else {
        copy_first::<ROOM_LENGTH>(bytes, at, room);
    }
}

// Copies the first `N` bytes of a room to a place.
#[inline(always)]
fn copy_first<const N: usize>(bytes: &mut [u8], at: usize, room: &[u8; ROOM_LENGTH])
    requires few { N ≤ 112 }
    requires inside { at + N ≤ length bytes.old }
    ensures { bytes.new ≡ splice bytes.old at (at + N) (take N room.now) }
{
    if let Some(first) = room.first_chunk::<N>() {
        put_array(&mut bytes[at..at + N], first);
    }
}

// Makes bytes those of an array, which is read whole before they are written: else LLVM asks whether they overlap.
#[inline(always)]
fn put_array<const N: usize>(bytes: &mut [u8], array: &[u8; N])
    requires { length bytes.old ≡ N }
    ensures { bytes.new ≡ array.now }
{
    if let Some(all) = bytes.as_mut_array::<N>() {
        *all = *array;
    }
}

// Puts the lowest `N` bytes of a number at a place and behind it.
#[inline(always)]
fn put_lowest<const N: usize>(bytes: &mut [u8], at: usize, value: u64)
    requires few { N ≤ 8 }
    requires inside { at + N ≤ length bytes.old }
    ensures { bytes.new ≡ splice bytes.old at (at + N) (le_bytes N value) }
{
    put(bytes, at, &value.to_le_bytes()[..N]);
}

// Puts bytes from a place on, one after another.
#[inline(always)]
fn put(bytes: &mut [u8], at: usize, word: &[u8])
    requires { at + length word.now ≤ length bytes.old }
    ensures { bytes.new ≡ splice bytes.old at (at + length word.now) word.now }
{
    for (i, byte) in word.iter().enumerate() {
        unsafe { raw::store(bytes, at + i, *byte) };
    }
}
