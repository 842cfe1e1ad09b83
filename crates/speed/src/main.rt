// The program `speed`: loads a random image over random cells of part 8 with a poll every 10 µs, and prints the bill's
// counts. Standard input says how many words of the image; where it is empty, the whole part is loaded. How long it takes
// is measured from outside.
#![tactic(auto)]

ghost use Rattle.std.specs.Prelude.{◌≤◌};

use random::Random;
use std::io;
use std::io::Read;

// Fills words at random from a seed on.
fn scatter(words: &mut [u16; 1048576], seed: u64) {
    let mut random = Random { state: seed };
    for word in words.iter_mut() {
        *word = random.word();
    }
}

// The number that the digits among the input's first 16 bytes make, at most 1,048,576; that for an empty input.
fn number<R: Read + Drop>(input: R) -> usize
    ensures { result ≤ 1048576 }
{
    let mut number = None;
    for byte in input.bytes().take(16) {
        let Ok(byte) = byte else {
            break;
        };
        let mut n: usize = number.unwrap_or(0);
        if byte.is_ascii_digit() {
            n = n % 1048576 * 10 + usize::from(byte - b'0');
        }
        number = Some(n);
    }
    number.unwrap_or(1048576).min(1048576)
}

// Loads so many words of the image, and prints what was counted.
// kept: no plainer: a Display of a type of its own would print these lines, and be printed in one place
fn load(rt: &impl Print, cells: &mut [u16; 1048576], image: &[u16]) -> io::Result<()> {
    let b = job::load(8, cells, 0, image, true, 10);
    println!(rt; "answer {}", b.answer)?;
    println!(rt; "erases {}", b.erases)?;
    println!(rt; "programs {}", b.programs)?;
    println!(rt; "polls {}", b.polls)?;
    println!(rt; "scans {}", b.scans)?;
    println!(rt; "confirms {}", b.confirms)?;
    println!(rt; "sum {}", b.sum)
}

fn main(rt: HostRuntime) -> io::Result<()> {
    let count = number(rt.reader());
    let mut cells = [0; 1048576];
    let mut image = [0; 1048576];
    scatter(&mut cells, 1);
    scatter(&mut image, 2);
    load(&rt, &mut cells, &image[..count])
}
