// What is asked of a device state, and the states that follow from it.
ghost use Rattle.std.specs.Prelude.{◌≡◌, true};
ghost use Rattle.parts.specs.Pick.{pick};
ghost use Rattle.device.specs.Device.{aged_by, barred, busy, device_in_range, held, held_in_range, pending, resume, runs_in_range, suspend, suspendable, valid_operation, valid_suspended, with_core};

use crate::operation::cells_of;
use commands::Mode;
use device::{Core, Device, Operation, no_operation};
use parts::Row;
use parts::names::{BLOCK, NONE_BEGUN, PROGRAM, SECOND_55H, SECTOR};

// Whether time is left.
pub(crate) fn is_pending(o: Operation) -> bool
    ensures { result ≡ pending o }
{
    0 < o.left
}

// Whether, suspended, it bars a command at an address.
#[tactic(auto, unfolding(device::specs::Device::barred))]
pub(crate) fn bars(row: Row, o: Operation, command: u32, address: u32) -> bool
    ensures { result ≡ barred row o command address }
{
    is_pending(o) && (command != PROGRAM || cells_of(row, o).holds(address))
}

// Whether, suspended, it is one that the part can have so.
#[tactic(auto, unfolding(device::specs::Device::valid_suspended))]
fn is_valid_suspended(row: Row, o: Operation) -> bool
    ensures { result ≡ valid_suspended row o }
{
    is_suspendable(row, o.kind) && is_valid(row, o)
}

// Whether, with time left, it is one that the part can be at.
#[tactic(auto, unfolding(device::specs::Device::valid_operation))]
fn is_valid(row: Row, o: Operation) -> bool
    ensures { result ≡ valid_operation row o }
{
    row.has_command(o.kind)
        && o.left <= row.time(o.kind)
        && o.address < row.cells
        && parts::fits(row.width, o.data)
}

// Whether a command is one that can be suspended: a sector or block erase, on a part that says so.
#[tactic(auto, unfolding(device::specs::Device::suspendable))]
pub(crate) fn is_suspendable(row: Row, command: u32) -> bool
    ensures { result ≡ suspendable row command }
{
    row.suspends && (command == SECTOR || command == BLOCK)
}

// What runs is suspended: read mode, nothing runs; bits 6 and 2 begin at 1.
pub(crate) fn suspend(core: Core) -> Core
    ensures { result ≡ suspend core }
{
    Core {
        mode: Mode::ReadMode,
        turned: false,
        running: no_operation(),
        suspended: Operation {
            toggle: true,
            ..core.running
        },
        ..core
    }
}

// What is suspended is resumed: read mode, it runs on with the time that was left; bits 6 and 2 begin at 1.
pub(crate) fn resume(core: Core) -> Core
    ensures { result ≡ resume core }
{
    Core {
        mode: Mode::ReadMode,
        recent: false,
        turned: false,
        running: Operation {
            toggle: true,
            ..core.suspended
        },
        suspended: no_operation(),
    }
}

// Time at rest: any positive time ends that a completion is 0 µs old.
pub(crate) fn aged_by(core: Core, elapsed: u32) -> Core
    ensures { result ≡ aged_by core elapsed }
{
    if 0 < elapsed {
        return Core {
            recent: false,
            ..core
        };
    }
    core
}

// Whether an operation runs.
pub(crate) fn is_busy(core: Core) -> bool
    ensures { result ≡ busy core }
{
    is_pending(core.running)
}

// Whether an erase is suspended.
pub(crate) fn is_held(core: Core) -> bool
    ensures { result ≡ held core }
{
    is_pending(core.suspended)
}

// Whether what runs is in range for the part.
#[tactic(auto, unfolding(device::specs::Device::runs_in_range))]
fn runs_in_range(row: Row, core: Core) -> bool
    ensures { result ≡ runs_in_range row core }
{
    !core.recent && core.mode == Mode::ReadMode && is_valid(row, core.running)
}

// Whether what is suspended, where something is, is in range for the part.
#[tactic(auto, unfolding(device::specs::Device::held_in_range))]
fn holds_in_range(row: Row, core: Core) -> bool
    ensures { result ≡ pick (held core) (held_in_range row core) true }
{
    if !is_held(core) {
        return true;
    }
    let o = core.running;
    is_valid_suspended(row, core.suspended)
        && !(is_busy(core) && bars(row, core.suspended, o.kind, o.address))
}

// At the same stage.
pub(crate) fn with_core(d: Device, core: Core) -> Device
    ensures { result ≡ with_core d core }
{
    Device { core, ..d }
}

// Whether the state is in range for the part.
#[tactic(auto, unfolding(device::specs::Device::device_in_range, device::specs::Device::stage_in_range, device::specs::Device::core_in_range))]
pub(crate) fn in_range(row: Row, d: Device) -> bool
    ensures { result ≡ device_in_range row d }
{
    let core = d.core;
    if !holds_in_range(row, core) {
        return false;
    }
    if is_busy(core) {
        return d.stage == NONE_BEGUN && runs_in_range(row, core);
    }
    d.stage <= SECOND_55H
}
