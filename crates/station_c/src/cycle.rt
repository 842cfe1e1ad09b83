// The bus cycle: the device crosses as plain numbers, and any numbers may be given.
ghost use Rattle.std.specs.Prelude.{◌≡◌};
ghost use Rattle.device.specs.Device.{fresh_device};
ghost use Rattle.bus.specs.Cycle.{cycled_of, device_numbers};

use bus::{DeviceNumbers, ReplyNumbers};
use device::Action;

// A fresh device: read mode, no sequence begun, nothing running, nothing suspended, no completion 0 µs old.
#[unsafe(no_mangle)]
pub extern "C" fn station_fresh() -> DeviceNumbers
    ensures { result ≡ device_numbers fresh_device }
{
    station::station_fresh()
}

// A read: refusals 1, 2, 5, 3.
#[unsafe(no_mangle)]
pub extern "C" fn station_read(
    part: u32,
    cells: &mut [u16],
    device: DeviceNumbers,
    elapsed: u32,
    wp: u32,
    address: u32,
) -> ReplyNumbers
    ensures { (result ≡ (cycled_of part cells.old device elapsed wp (Action.Read address)).reply) × (cells.new ≡ (cycled_of part cells.old device elapsed wp (Action.Read address)).cells) }
{
    station::station_read(part, cells, device, elapsed, wp, address)
}

// A write: refusals 1, 2, 5, 3, 4.
#[unsafe(no_mangle)]
pub extern "C" fn station_write(
    part: u32,
    cells: &mut [u16],
    device: DeviceNumbers,
    elapsed: u32,
    wp: u32,
    address: u32,
    data: u16,
) -> ReplyNumbers
    ensures { (result ≡ (cycled_of part cells.old device elapsed wp (Action.Write address «data»)).reply) × (cells.new ≡ (cycled_of part cells.old device elapsed wp (Action.Write address «data»)).cells) }
{
    station::station_write(part, cells, device, elapsed, wp, address, data)
}

// An idle cycle: refusals 1, 2, 5.
#[unsafe(no_mangle)]
pub extern "C" fn station_idle(
    part: u32,
    cells: &mut [u16],
    device: DeviceNumbers,
    elapsed: u32,
    wp: u32,
) -> ReplyNumbers
    ensures { (result ≡ (cycled_of part cells.old device elapsed wp Action.Idle).reply) × (cells.new ≡ (cycled_of part cells.old device elapsed wp Action.Idle).cells) }
{
    station::station_idle(part, cells, device, elapsed, wp)
}

// A power cut with a scar: refusals 1, 2, 5.
#[unsafe(no_mangle)]
pub extern "C" fn station_cut(
    part: u32,
    cells: &mut [u16],
    device: DeviceNumbers,
    elapsed: u32,
    wp: u32,
    scar: u16,
) -> ReplyNumbers
    ensures { (result ≡ (cycled_of part cells.old device elapsed wp (Action.Cut scar)).reply) × (cells.new ≡ (cycled_of part cells.old device elapsed wp (Action.Cut scar)).cells) }
{
    station::station_cut(part, cells, device, elapsed, wp, scar)
}
