ghost use Rattle.std.specs.Prelude.{◌≡◌, ◌+◌, ◌-◌, ◌<◌, ◌≤◌, ◌^◌, ◌++◌, ◌∷◌, [], Some, length, take, drop, IfOk, OnOk, OnErr};
ghost use Rattle.mj_disk.specs.declared.tape.DiskCall.TheVariants.{Write, Cut, Sync};
ghost use Rattle.mj_disk.specs.Media.{IsImage, overwritten};
ghost use Rattle.mj_disk.specs.Moments.{Now, bytes_now};
ghost use Rattle.mj_disk.specs.Past.{then_call, moments_of};

use crate::image::{Draws, Torn, torn_bytes};
use mj_fields::{Bytes, Memory};
use std::alloc::{AllocError, Global};
use std::marker::Model;

/// A call that changed a disk.
#[derive(Debug, Drop)]
pub enum DiskCall {
    Write { at: u64, bytes: Bytes },
    Cut { size: u64 },
    Sync,
}

/// The bytes of a disk in memory and the calls that led to them.
#[derive(Debug, Drop)]
pub struct Tape {
    alloc: Global,
    first: Bytes,
    calls: Vec<DiskCall>,
    bytes: Vec<u8>,
    /// How many of the calls were made by the end of the last sync.
    synced: usize,
    least: u64,
    greatest: u64,
}

impl Model for Tape {
    ghost use Rattle.mj_disk.specs.Past.{Past};

    ghost Value = { Past };

    ghost use Rattle.mj_disk.specs.Moments.{Now};
    ghost use Rattle.mj_disk.specs.Past.{moments_of};
    ghost use Rattle.mj_disk.specs.Tape.{IsTaped};

    ghost view = { λ t. record { first = t.first; calls = t.calls.items } };

    ghost invariant = { λ t. IsTaped t.first t.calls.items t.bytes.items t.synced t.least t.greatest };
}

/// Puts the piece at the place, over what stands there and past the end. Without room for it the bytes stay.
fn overwrite(bytes: &mut Vec<u8>, at: usize, piece: &[u8]) -> Result<(), AllocError>
    ensures ok { OnOk result (bytes.new.items ≡ overwritten at piece.now bytes.old.items) }
    ensures err { OnErr result (bytes.new.items ≡ bytes.old.items) }
{
    let from = at.min(bytes.len());
    let over = piece.len().min(bytes.len() - from);
    bytes.extend_from_slice(&piece[over..])?;
    put_over(bytes, from, &piece[..over]);
    Ok(())
}

fn put_over(bytes: &mut [u8], at: usize, piece: &[u8])
    requires { at + length piece.now ≤ length bytes.old }
    ensures { bytes.new ≡ overwritten at piece.now bytes.old }
{
    bytes[at..at + piece.len()].copy_from_slice(piece);
}

impl Tape {
    /// A disk with these bytes, all of them synced.
    pub fn new(alloc: Global, bytes: Vec<u8>) -> Result<Tape, Memory>
        ensures { IfOk result (λ t. t ≡ record { first = bytes.items; calls = [] }) }
    {
        let first = Bytes::from_slice(alloc, bytes.as_slice())?;
        let size = bytes.len() as u64;
        Ok(Tape {
            alloc,
            first,
            calls: Vec::new(alloc),
            bytes,
            synced: 0,
            least: size,
            greatest: size,
        })
    }

    /// The bytes as they read.
    pub fn bytes(&self) -> &[u8]
        ensures reads { bytes_now (moments_of self.now) ≡ Some result.now }
        ensures small { length result.now < 2 ^ 63 }
    {
        &self.bytes
    }

    /// A write. Without room for it the disk stays.
    pub fn write(&mut self, at: u64, piece: &[u8]) -> Result<(), Memory>
        requires { at + length piece.now < 2 ^ 63 }
        ensures ok { OnOk result (self.new ≡ then_call self.old (Write at piece.now)) }
        ensures err { OnErr result (self.new ≡ self.old) }
    {
        let bytes = Bytes::from_slice(self.alloc, piece)?;
        self.calls.push(DiskCall::Write { at, bytes })?;
        if overwrite(&mut self.bytes, at as usize, piece).is_err() {
            self.calls.pop();
            return Err(Memory);
        }
        self.greatest = self.greatest.max(at + piece.len() as u64);
        Ok(())
    }

    /// A cut to a length. Without room for the record of it the disk stays.
    pub fn cut(&mut self, size: u64) -> Result<(), Memory>
        ensures ok { OnOk result (self.new ≡ then_call self.old (Cut size)) }
        ensures err { OnErr result (self.new ≡ self.old) }
    {
        self.calls.push(DiskCall::Cut { size })?;
        self.bytes.truncate(size as usize);
        self.least = self.least.min(size);
        Ok(())
    }

    /// A sync. Without room for the record of it the disk stays.
    pub fn sync(&mut self) -> Result<(), Memory>
        ensures ok { OnOk result (self.new ≡ then_call self.old Sync) }
        ensures err { OnErr result (self.new ≡ self.old) }
    {
        self.calls.push(DiskCall::Sync)?;
        self.synced = self.calls.len();
        self.least = self.bytes.len() as u64;
        self.greatest = self.least;
        Ok(())
    }

    /// The length of the image of this number: that of the last synced bytes, that of the bytes as they read, or a
    /// drawn one between the least and the greatest.
    fn image_size(&self, number: u32, synced: usize, draws: &mut Draws) -> u64 {
        let spread = self.greatest.saturating_sub(self.least).saturating_add(1);
        let range = if spread >= 65_536 { 65_535 } else { spread };
        match number {
            0 => synced as u64,
            1 => self.bytes.len() as u64,
            _ => self.least.saturating_add(u64::from(draws.draw()) % range),
        }
    }

    /// An image that a crash now may leave, as a disk at rest.
    pub fn image(&self, number: u32) -> Result<Tape, Memory>
        ensures image { IfOk result (λ t. Now (moments_of self.now) (λ m. IsImage m t.first)) }
        ensures at_rest { IfOk result (λ t. t.calls ≡ []) }
    {
        let synced = replay(
            self.alloc,
            self.first.as_slice(),
            &self.calls[..self.synced],
        )?;
        let mut draws = Draws { s: number };
        let size = self.image_size(number, synced.len(), &mut draws);
        let torn = Torn {
            calls: &self.calls[self.synced..],
            bytes: &self.bytes,
            synced: &synced,
            least: self.least,
        };
        let size = size.min(self.greatest).max(self.least);
        let bytes = torn_bytes(self.alloc, &torn, number, &mut draws, size)?;
        Tape::new(self.alloc, bytes)
    }
}

/// The bytes after these calls.
fn replay(alloc: Global, first: &[u8], calls: &[DiskCall]) -> Result<Vec<u8>, Memory> {
    let mut bytes = Vec::from_slice(alloc, first)?;
    for call in calls {
        match call {
            DiskCall::Write { at, bytes: piece } => {
                overwrite(&mut bytes, *at as usize, piece.as_slice())?;
            }
            DiskCall::Cut { size } => bytes.truncate(*size as usize),
            DiskCall::Sync => {}
        }
    }
    Ok(bytes)
}
