// The driver as plain numbers: its state, its start and its step. Any numbers may be given.
ghost use Rattle.std.specs.Prelude.{◌≡◌};
ghost use Rattle.numbers.specs.Machine.{driver_numbers, driver_of, next_numbers, phase_at, phase_number, sent_numbers, start_numbers, step_numbers, stepped_of};

use device::Action;
use driver::{Driver, Phase, Started, Step};
use parts::Refusal;
use parts::names::{A_READ, A_WRITE, NO_CYCLE};

// ---- the numbers of the phases
const WRITING: u32 = 0;

const POLLING: u32 = 1;

const CONFIRMING: u32 = 2;

const ENDED_DONE: u32 = 3;

const ENDED_GAVE_UP: u32 = 4;

pub(crate) const ENDED_DIFFERS: u32 = 5;

// A driver as numbers.
// kept: the C interface: the numbers of this file and of loading.rt cross C as they are
#[repr(C)]
#[derive(Clone, Copy)]
pub struct DriverNumbers {
    pub part: u32,
    pub command: u32,
    pub address: u32,
    pub data: u16,
    pub p: u32,
    pub phase: u32,
    pub count: u32,
}

// A start: 0 or the refusal, and the driver.
#[repr(C)]
#[derive(Clone, Copy)]
pub struct StartNumbers {
    pub answer: u32,
    pub driver: DriverNumbers,
}

// A cycle to send: its kind (0 none, 1 read, 2 write), the µs since the last one, address and data.
#[repr(C)]
#[derive(Clone, Copy)]
pub struct CycleNumbers {
    pub kind: u32,
    pub elapsed: u32,
    pub address: u32,
    pub data: u16,
}

// A step: its answer, the driver handed back, the cycle, and the polls named so far.
#[repr(C)]
#[derive(Clone, Copy)]
pub struct StepNumbers {
    pub answer: u32,
    pub driver: DriverNumbers,
    pub cycle: CycleNumbers,
    pub polls: u32,
}

// No cycle.
pub(crate) const NOTHING_TO_SEND: CycleNumbers = CycleNumbers {
    kind: NO_CYCLE,
    elapsed: 0,
    address: 0,
    data: 0,
};

// The number of a phase.
// kept: the C interface: the number by which C knows a phase stands by name, and not by the order of another crate's enum
fn phase_number(phase: Phase) -> u32
    ensures { result ≡ phase_number phase }
{
    match phase {
        Phase::Writing => WRITING,
        Phase::Polling => POLLING,
        Phase::Confirming => CONFIRMING,
        Phase::Done => ENDED_DONE,
        Phase::GaveUp => ENDED_GAVE_UP,
        Phase::Differs => ENDED_DIFFERS,
    }
}

// The phase of a number: the last for any above it.
#[tactic(auto, unfolding(crate::specs::Machine::phase_at))]
fn phase_at(n: u32) -> Phase
    ensures { result ≡ phase_at n }
{
    match n {
        WRITING => Phase::Writing,
        POLLING => Phase::Polling,
        CONFIRMING => Phase::Confirming,
        ENDED_DONE => Phase::Done,
        ENDED_GAVE_UP => Phase::GaveUp,
        _ => Phase::Differs,
    }
}

// The numbers of a driver.
impl From<Driver> for DriverNumbers {
    ghost from_gives = { λ d n. n ≡ driver_numbers d };

    fn from(d: Driver) -> DriverNumbers {
        DriverNumbers {
            part: d.part,
            command: d.command,
            address: d.address,
            data: d.data,
            p: d.p,
            phase: phase_number(d.phase),
            count: d.count,
        }
    }
}

// The driver of some numbers.
impl From<DriverNumbers> for Driver {
    ghost from_gives = { λ n d. d ≡ driver_of n };

    fn from(n: DriverNumbers) -> Driver {
        Driver {
            part: n.part,
            command: n.command,
            address: n.address,
            data: n.data,
            p: n.p,
            phase: phase_at(n.phase),
            count: n.count,
        }
    }
}

// The numbers of a cycle that is sent: a read or a write.
// kept: no plainer: of two arguments, which From has not
pub(crate) fn sent_numbers(elapsed: u32, action: Action) -> CycleNumbers
    ensures { result ≡ sent_numbers elapsed action }
{
    match action {
        Action::Read(address) => CycleNumbers {
            kind: A_READ,
            elapsed,
            address,
            data: 0,
        },
        Action::Write(address, data) => CycleNumbers {
            kind: A_WRITE,
            elapsed,
            address,
            data,
        },
        Action::Idle | Action::Cut(_) => NOTHING_TO_SEND,
    }
}

// The numbers of what a step names.
impl From<Option<(u32, Action)>> for CycleNumbers {
    ghost from_gives = { λ x n. n ≡ next_numbers x };

    fn from(next: Option<(u32, Action)>) -> CycleNumbers {
        match next {
            None => NOTHING_TO_SEND,
            Some((elapsed, action)) => sent_numbers(elapsed, action),
        }
    }
}

// The numbers of a start.
// kept: what may not change: a public function, of which demands' `Unique` speaks
pub fn start_numbers(s: Started) -> StartNumbers
    ensures { result ≡ start_numbers s }
{
    StartNumbers {
        answer: s.answer,
        driver: DriverNumbers::from(s.driver),
    }
}

// The numbers of a step.
impl From<Step> for StepNumbers {
    ghost from_gives = { λ t n. n ≡ step_numbers t };

    fn from(t: Step) -> StepNumbers {
        StepNumbers {
            answer: t.answer,
            driver: DriverNumbers::from(t.driver),
            cycle: CycleNumbers::from(t.next),
            polls: t.polls,
        }
    }
}

// Given the value last read, names the next cycle or the end: 5 for numbers that are no state in range.
#[tactic(auto, unfolding(crate::specs::Machine::stepped_of))]
pub fn stepped(state: DriverNumbers, read: u16) -> StepNumbers
    ensures { result ≡ stepped_of state read }
{
    if ENDED_DIFFERS < state.phase {
        return StepNumbers {
            answer: Refusal::BadState.number(),
            driver: state,
            cycle: NOTHING_TO_SEND,
            polls: 0,
        };
    }
    StepNumbers::from(Driver::from(state).step(read))
}
