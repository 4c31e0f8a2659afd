//! A source and a sink that never fail: their count of faults is the constant 0.
ghost use Rattle.std.specs.Prelude.{◌≡◌, ◌≤◌, ◌+◌, ◌-◌, ◌^◌, min, Some, None, Ok, IsOk, drop, length};

use crate::outside::{Failed, Sink, Source};

/// Gives its bytes, as many a call as there is room for.
#[derive(Drop)]
pub struct SureSource {
    bytes: Vec<u8>,
    at: usize,
    ghost within: { at ≤ length bytes.items },
}

impl SureSource {
    /// The source of these bytes.
    pub fn new(bytes: Vec<u8>) -> SureSource
        ensures { drop result.at result.bytes.items ≡ bytes.items }
    {
        SureSource { bytes, at: 0 }
    }
}

impl Source for SureSource {
    ghost state = { λ s. record { left = Some (drop s.at s.bytes.items); faults = 0 } };

    fn read(&mut self, buf: &mut [u8]) -> Result<usize, Failed> {
        let count = buf.len().min(self.bytes.len() - self.at);
        let end = self.at + count;
        buf[..count].copy_from_slice(&self.bytes[self.at..end]);
        self.at = end;
        Ok(count)
    }
}

/// Keeps the number of the bytes alone.
#[derive(Drop)]
pub struct SureSink {
    count: u64,
}

impl SureSink {
    /// The sink that nothing was written to.
    pub fn new() -> SureSink
        ensures { result.count ≡ 0 }
    {
        SureSink { count: 0 }
    }

    /// How many bytes were written, or `u64::MAX` where there were more.
    pub fn count(&self) -> u64
        ensures { result ≡ self.now.count }
    {
        self.count
    }
}

impl Sink for SureSink {
    ghost state = { λ _. record { written = None; flushed = 0; faults = 0 } };

    fn write(&mut self, piece: &[u8]) -> Result<usize, Failed>
        ensures taken { result ≡ Ok (length piece.now) }
        ensures counted { self.new.count ≡ min (self.old.count + length piece.now) (2 ^ 64 - 1) }
    {
        self.count = self.count.saturating_add(piece.len() as u64);
        Ok(piece.len())
    }

    fn flush(&mut self) -> Result<(), Failed>
        ensures done { IsOk result }
        ensures same { self.new.count ≡ self.old.count }
    {
        Ok(())
    }
}
