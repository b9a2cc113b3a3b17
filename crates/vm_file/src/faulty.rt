//! A device whose calls fail on order, for tests.
ghost use Rattle.std.specs.Prelude.{◌≡◌, ◌+◌, ◌≤◌, length, true, false, OnOk};
ghost use Rattle.lmem_raw.specs.Bytes.{part, with_part};
ghost use Rattle.vm_file.specs.Device.{Only, one_more};
ghost use Rattle.vm_file.specs.Faulty.{is_due};
ghost use Rattle.vm_file.specs.Outcomes.{ReadsOnly, WritesOnly};

use crate::device::{Device, Disk, count_failure};

/// A device that passes its calls to another one and makes one of them fail, or that one and all later ones. A failing
/// read returns nothing, a failing write writes the first half of its bytes, rounded down, and a failing `sync` does
/// nothing.
#[derive(Drop)]
pub struct FaultDevice<D: Device + Drop> {
    inner: D,
    call: u64,
    rest: bool,
    calls: u64,
    own: u64,
}

impl<D: Device + Drop> FaultDevice<D> {
    ghost use Rattle.vm_file.specs.Faulty.{call_of, calls_of, inner_of, own_of, rest_of};

    /// The call of this number fails, counted from 1 over reads, writes and syncs; with `rest`
    /// each later one does too. 0 lets none fail.
    pub fn new(inner: D, call: u64, rest: bool) -> FaultDevice<D>
        ensures inner { inner_of result ≡ inner }
        ensures call { call_of result ≡ call }
        ensures rest { rest_of result ≡ rest }
        ensures calls { calls_of result ≡ 0 }
        ensures own { own_of result ≡ 0 }
    {
        FaultDevice {
            inner,
            call,
            rest,
            calls: 0,
            own: 0,
        }
    }

    /// How many calls were made; at the greatest number it stays.
    pub fn calls(&self) -> u64
        ensures { result ≡ calls_of self.now }
    {
        self.calls
    }

    /// The device below.
    pub fn into_inner(self) -> D
        ensures { result ≡ inner_of self }
    {
        let FaultDevice {
            inner,
            call: _,
            rest: _,
            calls: _,
            own: _,
        } = self;
        inner
    }
}

/// Counts a call, and returns whether it is to fail.
fn is_due(calls: &mut u64, call: u64, rest: bool) -> bool
    ensures counted { calls.new ≡ one_more calls.old }
    ensures due { result ≡ is_due (one_more calls.old) call rest }
{
    *calls = calls.saturating_add(1);
    call != 0 && (*calls == call || (rest && call < *calls))
}

impl<D: Device + Drop> Device for FaultDevice<D> {
    ghost use Rattle.vm_file.specs.Faulty.{CountsCall, CountsOver, FailsAlone, FailsHalf, PassesOn, inner_of, is_next_due, over};

    ghost medium = { over D.medium };

    fn len(&self) -> u64 {
        self.inner.len()
    }

    fn failures(&self) -> u64 {
        self.inner.failures().saturating_add(self.own)
    }

    /// Reads the bytes from an offset on, as the device below does; a call that fails on order returns nothing.
    fn read_at(&mut self, at: u64, into: &mut [u8]) -> Result<(), Disk>
        ensures within { OnOk result (at + length into.old ≤ length (D.medium.image (inner_of self.old))) }
        ensures bytes { D.medium.honest (inner_of self.old)
            → OnOk result (into.new ≡ part (D.medium.image (inner_of self.old)) at (length into.old)) }
        ensures reads { ReadsOnly (over D.medium) self.old self.new }
        ensures cause { CountsOver D.medium.failed self.old self.new result }
        ensures counted { CountsCall self.old self.new }
        ensures due { is_next_due self.old ≡ true → FailsAlone self.old self.new result × (into.new ≡ into.old) }
        ensures passed { is_next_due self.old ≡ false
            → PassesOn D.medium.failed (λ d r e. D.medium.reads d at into.new r e) self.old self.new result }
        ensures call { (over D.medium).reads self.old at into.new result self.new }
    {
        if is_due(&mut self.calls, self.call, self.rest) {
            count_failure(&mut self.own);
            return Err(Disk);
        }
        self.inner.read_at(at, into)
    }

    /// Writes bytes from an offset on, as the device below does; a call that fails on order
    /// writes the first half of them, rounded down.
    fn write_at(&mut self, at: u64, bytes: &[u8]) -> Result<(), Disk>
        ensures within { OnOk result (at + length bytes.now ≤ length (D.medium.image (inner_of self.old))) }
        ensures written { D.medium.honest (inner_of self.old)
            → OnOk result (D.medium.image (inner_of self.new) ≡ with_part (D.medium.image (inner_of self.old)) at bytes.now) }
        ensures writes { WritesOnly (over D.medium) at (length bytes.now) self.old self.new }
        ensures cause { CountsOver D.medium.failed self.old self.new result }
        ensures counted { CountsCall self.old self.new }
        ensures due { is_next_due self.old ≡ true → FailsHalf D.medium at bytes.now self.old self.new result }
        ensures passed { is_next_due self.old ≡ false
            → PassesOn D.medium.failed (λ d r e. D.medium.writes d at bytes.now r e) self.old self.new result }
        ensures call { (over D.medium).writes self.old at bytes.now result self.new }
    {
        if is_due(&mut self.calls, self.call, self.rest) {
            let half = bytes.len() / 2;
            // a call in which the device below failed too counts once
            if self.inner.write_at(at, &bytes[..half]).is_ok() {
                count_failure(&mut self.own);
            }
            return Err(Disk);
        }
        self.inner.write_at(at, bytes)
    }

    /// Makes last what was written, as the device below does; a call that fails on order does
    /// nothing.
    fn sync(&mut self) -> Result<(), Disk>
        ensures durable { D.medium.honest (inner_of self.old)
            → OnOk result (Only (D.medium.image (inner_of self.new)) (D.medium.may_leave (inner_of self.new))) }
        ensures reads { ReadsOnly (over D.medium) self.old self.new }
        ensures cause { CountsOver D.medium.failed self.old self.new result }
        ensures counted { CountsCall self.old self.new }
        ensures due { is_next_due self.old ≡ true → FailsAlone self.old self.new result }
        ensures passed { is_next_due self.old ≡ false → PassesOn D.medium.failed D.medium.syncs self.old self.new result }
        ensures call { (over D.medium).syncs self.old result self.new }
    {
        if is_due(&mut self.calls, self.call, self.rest) {
            count_failure(&mut self.own);
            return Err(Disk);
        }
        self.inner.sync()
    }

    ghost reads_now = { λ d. D.reads_now (inner_of d) };

    ghost at_once = { λ d c h. D.at_once (inner_of d) c h };

    ghost by_now = { λ s d c h. D.by_now (inner_of s) (inner_of d) c h };
}
