// The bus cycle on a device as plain numbers. Any numbers may be given.
ghost use Rattle.std.specs.Prelude.{◌≡◌};
ghost use Rattle.bus.specs.Cycle.{cycled_of, device_numbers, device_of, has_bits, mode_at, mode_number, no_state, operation_numbers, operation_of, reply_numbers};

use commands::Mode;
use device::{Action, Core, Cycle, Device, Operation, Reply};

// ---- the numbers of the modes
pub const READ_MODE: u32 = 0;

const IDENTIFICATION: u32 = 1;

// A stage past the seven of a write sequence.
const NO_STAGE: u32 = 7;

// An operation as numbers: toggle 0 or 1.
// kept: the C interface: the numbers of this file cross C as they are
#[repr(C)]
#[derive(Clone, Copy)]
pub struct OperationNumbers {
    pub kind: u32,
    pub address: u32,
    pub data: u16,
    pub left: u32,
    pub toggle: u32,
}

// A device as numbers: mode 0 read, 1 identification; recent 1 while a completion is 0 µs old, else 0; turned 1 where the next
// read that shows bit 2 shows it as 0, else 0.
#[repr(C)]
#[derive(Clone, Copy)]
pub struct DeviceNumbers {
    pub mode: u32,
    pub stage: u32,
    pub recent: u32,
    pub turned: u32,
    pub running: OperationNumbers,
    pub suspended: OperationNumbers,
}

// The answer, 0 or a refusal; the value read; the device afterwards.
#[repr(C)]
#[derive(Clone, Copy)]
pub struct ReplyNumbers {
    pub answer: u32,
    pub value: u16,
    pub device: DeviceNumbers,
}

// The number of a mode.
// kept: the C interface: the number by which C knows a mode stands by name, and not by the order of another crate's enum
fn mode_number(mode: Mode) -> u32
    ensures { result ≡ mode_number mode }
{
    match mode {
        Mode::ReadMode => READ_MODE,
        Mode::Identification => IDENTIFICATION,
    }
}

// The mode of a number.
fn mode_at(n: u32) -> Mode
    ensures { result ≡ mode_at n }
{
    match n {
        READ_MODE => Mode::ReadMode,
        _ => Mode::Identification,
    }
}

// A device out of range for every part.
// kept: what may not change: numbers that are no device's are refused with 5 after 1 and 2 (demands' `station-no-device`), so no TryFrom
fn no_state() -> Device
    ensures { result ≡ no_state }
{
    Device {
        stage: NO_STAGE,
        ..device::fresh()
    }
}

// The numbers of an operation.
impl From<Operation> for OperationNumbers {
    ghost from_gives = { λ o n. n ≡ operation_numbers o };

    fn from(o: Operation) -> OperationNumbers {
        OperationNumbers {
            kind: o.kind,
            address: o.address,
            data: o.data,
            left: o.left,
            toggle: u32::from(o.toggle),
        }
    }
}

// The numbers of a device.
impl From<Device> for DeviceNumbers {
    ghost from_gives = { λ d n. n ≡ device_numbers d };

    fn from(d: Device) -> DeviceNumbers {
        let core = d.core;
        DeviceNumbers {
            mode: mode_number(core.mode),
            stage: d.stage,
            recent: u32::from(core.recent),
            turned: u32::from(core.turned),
            running: OperationNumbers::from(core.running),
            suspended: OperationNumbers::from(core.suspended),
        }
    }
}

// The operation of some numbers.
impl From<OperationNumbers> for Operation {
    ghost from_gives = { λ n o. o ≡ operation_of n };

    fn from(n: OperationNumbers) -> Operation {
        Operation {
            kind: n.kind,
            address: n.address,
            left: n.left,
            data: n.data,
            toggle: n.toggle == 1,
        }
    }
}

// Whether the numbers are those of a mode and of bits.
#[tactic(auto, unfolding(crate::specs::Cycle::has_bits))]
fn has_bits(n: DeviceNumbers) -> bool
    ensures { result ≡ has_bits n }
{
    n.mode <= IDENTIFICATION
        && n.recent <= 1
        && n.turned <= 1
        && n.running.toggle <= 1
        && n.suspended.toggle <= 1
}

// The device of some numbers: other numbers are no state.
impl From<DeviceNumbers> for Device {
    ghost from_gives = { λ n d. d ≡ device_of n };

    #[tactic(auto, unfolding(crate::specs::Cycle::device_of))]
    fn from(n: DeviceNumbers) -> Device {
        if !has_bits(n) {
            return no_state();
        }
        let core = Core {
            mode: mode_at(n.mode),
            recent: n.recent == 1,
            turned: n.turned == 1,
            running: Operation::from(n.running),
            suspended: Operation::from(n.suspended),
        };
        Device {
            core,
            stage: n.stage,
        }
    }
}

// The numbers of a reply: a refused cycle hands back the numbers as they came.
// kept: no plainer: of two arguments, which From has not
#[tactic(auto, unfolding(crate::specs::Cycle::reply_numbers))]
fn reply_numbers(given: DeviceNumbers, r: Reply) -> ReplyNumbers
    ensures { result ≡ reply_numbers given r }
{
    let device = if 0 < r.answer {
        given
    } else {
        DeviceNumbers::from(r.device)
    };
    ReplyNumbers {
        answer: r.answer,
        value: r.value,
        device,
    }
}

// One bus cycle on lent cells.
pub fn cycled(
    part: u32,
    cells: &mut [u16],
    device: DeviceNumbers,
    elapsed: u32,
    wp: u32,
    action: Action,
) -> ReplyNumbers
    ensures { (result ≡ (cycled_of part cells.old device elapsed wp action).reply) × (cells.new ≡ (cycled_of part cells.old device elapsed wp action).cells) }
{
    let cycle = Cycle {
        elapsed,
        wp: 0 < wp,
        action,
    };
    reply_numbers(
        device,
        chip::bus_cycle(part, cells, Device::from(device), cycle),
    )
}
