// A write to a device: it suspends or resumes an erase, or has an effect.
ghost use Rattle.std.specs.Prelude.{◌≡◌, false};
ghost use Rattle.parts.specs.Pick.{pick};
ghost use Rattle.device.specs.Device.{busy};
ghost use Rattle.device.specs.Sequence.{after_effect, core_after, ignored, passed_over, resuming, suspending, written_of};

use crate::state::{bars, is_busy, is_held, is_suspendable, resume};
use commands::{Effect, Mode};
use device::{Core, Device, Operation};
use parts::Row;
use parts::names::{CHIP, NONE_BEGUN, RESUME_CODE, SUSPEND_CODE};

// Whether WP# protects from a command at an address.
#[tactic(auto, unfolding(device::specs::Sequence::ignored))]
fn is_ignored(row: Row, wp: bool, command: u32, a: u32) -> bool
    ensures { result ≡ ignored row wp command a }
{
    if wp {
        return false;
    }
    let protected = row.protected_range();
    if command == CHIP {
        return 0 < protected.count;
    }
    protected.holds(a)
}

// Whether a command is passed over: a suspended erase bars it, or WP# protects from it.
#[tactic(auto, unfolding(device::specs::Sequence::passed_over))]
fn is_passed_over(row: Row, core: Core, wp: bool, command: u32, a: u32) -> bool
    ensures { result ≡ passed_over row core wp command a }
{
    bars(row, core.suspended, command, a) || is_ignored(row, wp, command, a)
}

// The operation starts, unless it is passed over.
fn start(row: Row, core: Core, wp: bool, command: u32, a: u32, x: u16) -> Core
    ensures { result ≡ core_after row core wp a x (Effect.Starts command) }
{
    if is_passed_over(row, core, wp, command, a) {
        return Core {
            mode: Mode::ReadMode,
            ..core
        };
    }
    let running = Operation {
        kind: command,
        address: a,
        data: x,
        left: row.time(command),
        toggle: true,
    };
    Core {
        mode: Mode::ReadMode,
        recent: false,
        turned: false,
        running,
        ..core
    }
}

// The device after an effect.
fn after_effect(row: Row, core: Core, wp: bool, a: u32, x: u16, effect: Effect) -> Device
    ensures { result ≡ after_effect row core wp a x effect }
{
    match effect {
        Effect::Goes(stage) => Device { core, stage },
        Effect::Starts(command) => Device {
            core: start(row, core, wp, command, a, x),
            stage: NONE_BEGUN,
        },
        Effect::Enters(mode) => Device {
            core: Core { mode, ..core },
            stage: NONE_BEGUN,
        },
    }
}

// Whether a write suspends what runs. Few writes have its byte, which is asked first.
pub(crate) fn suspends(row: Row, core: Core, x: u16) -> bool
    ensures { result ≡ pick (busy core) (suspending row core x) false }
{
    x % 256 == SUSPEND_CODE && is_busy(core) && is_suspendable(row, core.running.kind)
}

// Whether a write at a stage, with nothing running, resumes what is suspended.
fn resumes(core: Core, stage: u32, x: u16) -> bool
    ensures { result ≡ resuming core stage x }
{
    x % 256 == RESUME_CODE && stage == NONE_BEGUN && is_held(core)
}

// A write that does not suspend: while busy it does nothing; else it resumes, or has its effect.
#[tactic(auto, unfolding(device::specs::Sequence::written_of))]
pub(crate) fn written(row: Row, d: Device, wp: bool, a: u32, x: u16) -> Device
    requires { pick (busy d.core) (suspending row d.core x) false ≡ false }
    ensures { result ≡ written_of row d wp a x }
{
    let core = d.core;
    if is_busy(core) {
        return d;
    }
    if resumes(core, d.stage, x) {
        return Device {
            core: resume(core),
            stage: NONE_BEGUN,
        };
    }
    let effect = commands::effect_of(row, d.stage, a, x);
    after_effect(row, core, wp, a, x, effect)
}
