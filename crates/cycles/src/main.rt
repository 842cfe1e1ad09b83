// The program `cycles`: programs random words over the whole of a blank part 8 by bare bus cycles, and prints how many were
// sent and the sum of what they answered and showed. How long it takes is measured from outside.
#![tactic(auto)]

use device::{Action, Cycle, Device};
use random::Random;
use std::io;

// The device, how many cycles were sent, and the sum of all that they answered and showed.
#[derive(Clone, Copy)]
struct Played {
    device: Device,
    sent: u64,
    sum: u64,
}

// Sends one cycle so many µs after the last one.
fn send(cells: &mut [u16], p: Played, elapsed: u32, action: Action) -> Played {
    let cycle = Cycle {
        elapsed,
        wp: true,
        action,
    };
    let r = chip::bus_cycle(8, cells, p.device, cycle);
    let shown = u64::from(r.answer) + u64::from(r.value);
    Played {
        device: r.device,
        sent: p.sent.wrapping_add(1),
        sum: p.sum.wrapping_add(shown),
    }
}

// The k-th of a word's eight cycles, and the µs before it: four writes that program it, then four reads.
fn cycle_of(k: u32, address: u32, data: u16) -> (u32, Action) {
    match k {
        0 => (0, Action::Write(0x5555, 0xaa)),
        1 => (0, Action::Write(0x2aaa, 0x55)),
        2 => (0, Action::Write(0x5555, 0xa0)),
        3 => (0, Action::Write(address, data)),
        _ => (10, Action::Read(address)),
    }
}

// Programs one word and reads it.
fn program(cells: &mut [u16], p: Played, address: u32, data: u16) -> Played {
    let mut played = p;
    // kept: tried: slower by a tenth over an array of the eight, and by four fifths with the sends written out
    for k in 0..8 {
        let (elapsed, action) = cycle_of(k, address, data);
        played = send(cells, played, elapsed, action);
    }
    played
}

// Programs a random word at each address of part 8.
fn play(cells: &mut [u16; 1048576]) -> Played {
    let mut played = Played {
        device: device::fresh(),
        sent: 0,
        sum: 0,
    };
    let mut random = Random { state: 2 };
    for address in 0..1048576 {
        played = program(cells, played, address, random.word());
    }
    played
}

fn main(rt: HostRuntime) -> io::Result<()> {
    let mut cells = [0xffff; 1048576];
    let played = play(&mut cells);
    println!(rt; "cycles {}", played.sent)?;
    println!(rt; "sum {}", played.sum)
}
