// The device state: its core, that is its mode, the operation that runs, the erase that is suspended and whether one has just
// completed, and the stage of its write sequence.
ghost use Rattle.std.specs.Prelude.{◌≡◌};
ghost use Rattle.device.specs.Device.{fresh_device, no_operation};

use commands::Mode;

// An operation: its command's number, address and data, the µs left, and what bit 6 shows at the
// next busy read. It is pending exactly while time is left. The order of its fields is that in which a
// job took the fewest instructions (docs/MEASURED.md).
// kept: what may not change: the command is a number, as `bus_cycle` takes any device and answers 5 to one that runs with a number above 3
#[derive(Clone, Copy, PartialEq, Eq, Debug, Default)]
pub struct Operation {
    pub kind: u32,
    pub left: u32,
    pub address: u32,
    pub data: u16,
    pub toggle: bool,
}

// All of a device but its write sequence: time, reads and cuts use nothing else. A recent completion is one 0 µs old; it
// stands beside the mode, since behind what runs it made a job slower (docs/DECISIONS.md, W5). Bit 2 has turned where the
// next read that shows it shows 0.
#[derive(Clone, Copy, PartialEq, Eq, Debug, Default)]
pub struct Core {
    pub mode: Mode,
    pub recent: bool,
    pub turned: bool,
    pub running: Operation,
    pub suspended: Operation,
}

// The stage is one of the seven of a write sequence (parts::names).
// kept: what may not change: a number, as `bus_cycle` takes any device and answers 5 to a stage above 6
#[derive(Clone, Copy, PartialEq, Eq, Debug, Default)]
pub struct Device {
    pub core: Core,
    pub stage: u32,
}

// Nothing pending.
pub fn no_operation() -> Operation
    ensures { result ≡ no_operation }
{
    Operation::default()
}

// A fresh device: read mode, no sequence, idle.
pub fn fresh() -> Device
    ensures { result ≡ fresh_device }
{
    Device::default()
}
