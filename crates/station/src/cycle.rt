// The bus cycle: the device crosses as plain numbers, and any numbers may be given.
ghost use Rattle.std.specs.Prelude.{◌≡◌};
ghost use Rattle.device.specs.Device.{fresh_device};
ghost use Rattle.bus.specs.Cycle.{cycled_of, device_numbers};

use bus::{DeviceNumbers, ReplyNumbers};
use device::Action;

// A fresh device: read mode, no sequence begun, nothing running, nothing suspended, no completion 0 µs old.
pub fn station_fresh() -> DeviceNumbers
    ensures { result ≡ device_numbers fresh_device }
{
    DeviceNumbers::from(device::fresh())
}

// A read: refusals 1, 2, 5, 3.
pub fn station_read(
    part: u32,
    cells: &mut [u16],
    device: DeviceNumbers,
    elapsed: u32,
    wp: u32,
    address: u32,
) -> ReplyNumbers
    ensures { (result ≡ (cycled_of part cells.old device elapsed wp (Action.Read address)).reply) × (cells.new ≡ (cycled_of part cells.old device elapsed wp (Action.Read address)).cells) }
{
    bus::cycled(part, cells, device, elapsed, wp, Action::Read(address))
}

// A write: refusals 1, 2, 5, 3, 4.
pub fn station_write(
    part: u32,
    cells: &mut [u16],
    device: DeviceNumbers,
    elapsed: u32,
    wp: u32,
    address: u32,
    data: u16,
) -> ReplyNumbers
    ensures { (result ≡ (cycled_of part cells.old device elapsed wp (Action.Write address «data»)).reply) × (cells.new ≡ (cycled_of part cells.old device elapsed wp (Action.Write address «data»)).cells) }
{
    let action = Action::Write(address, data);
    bus::cycled(part, cells, device, elapsed, wp, action)
}

// An idle cycle: refusals 1, 2, 5.
pub fn station_idle(
    part: u32,
    cells: &mut [u16],
    device: DeviceNumbers,
    elapsed: u32,
    wp: u32,
) -> ReplyNumbers
    ensures { (result ≡ (cycled_of part cells.old device elapsed wp Action.Idle).reply) × (cells.new ≡ (cycled_of part cells.old device elapsed wp Action.Idle).cells) }
{
    bus::cycled(part, cells, device, elapsed, wp, Action::Idle)
}

// A power cut with a scar: refusals 1, 2, 5.
pub fn station_cut(
    part: u32,
    cells: &mut [u16],
    device: DeviceNumbers,
    elapsed: u32,
    wp: u32,
    scar: u16,
) -> ReplyNumbers
    ensures { (result ≡ (cycled_of part cells.old device elapsed wp (Action.Cut scar)).reply) × (cells.new ≡ (cycled_of part cells.old device elapsed wp (Action.Cut scar)).cells) }
{
    bus::cycled(part, cells, device, elapsed, wp, Action::Cut(scar))
}
