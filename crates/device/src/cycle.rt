// A bus cycle, and what comes of it.
use crate::{Core, Device};

// What a cycle does: read an address, write an address with data, nothing, or a power cut with a scar.
#[derive(Clone, Copy, PartialEq, Eq, Debug)]
pub enum Action {
    Read(u32),
    Write(u32, u16),
    Idle,
    Cut(u16),
}

// A cycle: the µs since the last one, the WP# level (true is high), and what it does.
#[derive(Clone, Copy, PartialEq, Eq, Debug)]
pub struct Cycle {
    pub elapsed: u32,
    pub wp: bool,
    pub action: Action,
}

// The answer, 0 or a refusal; the value read; the device afterwards.
// kept: what may not change: a refused cycle hands the device back as it came, which an Err would not (`bus_cycle`, demands' `bus-cycle-refuses`)
#[derive(Clone, Copy, PartialEq, Eq, Debug)]
pub struct Reply {
    pub answer: u32,
    pub value: u16,
    pub device: Device,
}

// What a read shows, and the core after it.
#[derive(Clone, Copy, PartialEq, Eq, Debug)]
pub struct Shown {
    pub value: u16,
    pub core: Core,
}
