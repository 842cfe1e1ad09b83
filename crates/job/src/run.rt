// The run: the loader's cycles are sent one by one through the bus cycle, and counted.
ghost use Rattle.std.specs.Prelude.{◌≡◌, ◌<◌, ◌≤◌};
ghost use Rattle.job.specs.Fits.{CountsFit, MOST-CYCLES};
ghost use Rattle.job.specs.Run.{begun_of, counted_of, run_end, last_of, none_sent, run_from, send_of, stop_from, stop_number, world};

use crate::loader::{Purpose, Turn, Work};
use device::{Action, Cycle, Device};
use parts::names::{A_READ, A_WRITE, PROGRAM};

// No job sends more cycles.
pub(crate) const MOST_CYCLES: u64 = 2147483648;

// What the cycles sent so far have counted, and their µs.
#[derive(Clone, Copy, Default)]
pub struct Tally {
    pub erases: u64,
    pub programs: u64,
    pub polls: u64,
    pub scans: u64,
    pub confirms: u64,
    pub time: u64,
}

// The last cycle: kind 0 none, 1 read, 2 write.
// kept: the C interface: it stands in the report
#[repr(C)]
#[derive(Clone, Copy, Default)]
pub struct Last {
    pub kind: u32,
    pub elapsed: u32,
    pub wp: bool,
    pub address: u32,
    pub data: u16,
}

// What is held beside the cells: the device, the counts, the last cycle and its reply, and how many were sent.
#[derive(Clone, Copy, Default)]
pub struct Held {
    pub device: Device,
    pub tally: Tally,
    pub last: Last,
    pub reply: u16,
    pub sent: u64,
}

// What is held when a run ends, and the number with which the loader stopped: 0 while it goes on.
// kept: no plainer: what is held is billed or told whatever the number is, so a Result would have it on both sides
#[derive(Clone, Copy)]
pub(crate) struct RunEnd {
    pub(crate) held: Held,
    pub(crate) answer: u32,
}

// A cycle as numbers.
fn last_of(elapsed: u32, wp: bool, action: Action) -> Last
    ensures { result ≡ last_of elapsed wp action }
{
    match action {
        Action::Read(address) => Last {
            kind: A_READ,
            elapsed,
            wp,
            address,
            data: 0,
        },
        Action::Write(address, data) => Last {
            kind: A_WRITE,
            elapsed,
            wp,
            address,
            data,
        },
        Action::Idle | Action::Cut(_) => Last::default(),
    }
}

impl Tally {
    // kept: no plainer: `CountsFit` is what is left of the counts' room at a cycle, and each cycle takes of it; no type holds it
    // An operation more.
    fn begun(self, command: u32, elapsed: u32) -> Tally
        requires { CountsFit self MOST-CYCLES }
        ensures { result ≡ begun_of self command elapsed }
    {
        let time = self.time + elapsed as u64;
        if command == PROGRAM {
            return Tally {
                programs: self.programs + 1,
                time,
                ..self
            };
        }
        Tally {
            erases: self.erases + 1,
            time,
            ..self
        }
    }

    // A cycle more.
    fn counted(self, purpose: Purpose, elapsed: u32) -> Tally
        requires { CountsFit self MOST-CYCLES }
        ensures { result ≡ counted_of self purpose elapsed }
    {
        let later = Tally {
            time: self.time + elapsed as u64,
            ..self
        };
        match purpose {
            Purpose::Scan => Tally {
                scans: self.scans + 1,
                ..later
            },
            Purpose::Lead => later,
            Purpose::Begin(command) => self.begun(command, elapsed),
            Purpose::Poll => Tally {
                polls: self.polls + 1,
                ..later
            },
            Purpose::Confirm => Tally {
                confirms: self.confirms + 1,
                ..later
            },
        }
    }
}

// Nothing sent: a fresh device.
fn none_sent() -> Held
    ensures { result ≡ none_sent }
{
    Held::default()
}

// Sends one cycle.
#[tactic(auto, unfolding(crate::specs::Run::send_of))]
fn send(part: u32, cells: &mut [u16], h: Held, purpose: Purpose, cycle: Cycle) -> Held
    requires counts_fit { CountsFit h.tally MOST-CYCLES }
    requires sent_bound { h.sent < MOST-CYCLES }
    ensures { (result ≡ (send_of part (world cells.old h) purpose cycle).held) × (cells.new ≡ (send_of part (world cells.old h) purpose cycle).cells) }
{
    let reply = chip::bus_cycle(part, cells, h.device, cycle);
    Held {
        device: reply.device,
        tally: h.tally.counted(purpose, cycle.elapsed),
        last: last_of(cycle.elapsed, cycle.wp, cycle.action),
        reply: reply.value,
        sent: h.sent + 1,
    }
}

// The number with which the loader stops at a turn; 0 where it goes on.
fn stop_number(turn: Turn) -> u32
    ensures { result ≡ stop_number turn }
{
    match turn {
        Turn::Play(_, _, _) => 0,
        Turn::Stop(n) => n,
    }
}

// Sends the loader's cycles, at most k.
pub(crate) fn run(cells: &mut [u16], work: &Work, k: u64) -> RunEnd
    requires { k ≤ MOST-CYCLES }
    ensures { (result ≡ run_end (run_from work.now.job work.now.image.now cells.old k).held (stop_from work.now.job work.now.image.now cells.old k)) × (cells.new ≡ (run_from work.now.job work.now.image.now cells.old k).cells) }
{
    // kept: a rule of the project: no heap
    let mut seen = [0u16; 4096];
    let mut held = none_sent();
    let mut turn = work.next_sector(0);
    // kept: no plainer: what is counted is told in the report, and a `for` would count beside it
    while held.sent < k {
        let Turn::Play(loader, purpose, cycle) = turn else {
            let answer = stop_number(turn);
            return RunEnd { held, answer };
        };
        held = send(work.job.part, &mut *cells, held, purpose, cycle);
        turn = loader.turn(work, &mut seen, held.reply);
    }
    let answer = stop_number(turn);
    RunEnd { held, answer }
}
