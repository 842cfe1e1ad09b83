// The program `bill`: reads a job file of at most 20,480 bytes from standard input, and prints its bill on a blank bench
// part; of a refusal only its answer line.
#![tactic(auto)]

ghost use Rattle.std.specs.Prelude.{◌≤◌, length};

use job::Bill;
use std::io;
use std::io::Read;

// The bill in whole, µs, µs, then counts, last the answer; of a refusal the answer alone.
// kept: no plainer: a Display of a type of its own would print these lines, and be printed in one place
fn print(rt: &impl Print, b: Bill) -> io::Result<()> {
    if b.answer == 0 {
        println!(rt; "saved {}", b.saved)?;
        println!(rt; "spent {}", b.spent)?;
        println!(rt; "erases {}", b.erases)?;
        println!(rt; "programs {}", b.programs)?;
        println!(rt; "polls {}", b.polls)?;
        println!(rt; "scans {}", b.scans)?;
        println!(rt; "confirms {}", b.confirms)?;
        println!(rt; "sum {}", b.sum)?;
    }
    println!(rt; "answer {}", b.answer)
}

// Fills a buffer until it is full, the input ends or a read fails, and says how many bytes it has.
fn read_full<R: Read>(input: &mut R, buf: &mut [u8]) -> usize
    ensures { result ≤ length buf.new }
{
    let mut done = 0;
    // kept: no plainer: std's read_exact does not say how many bytes came, its read_to_end fills the heap, and bytes() would be counted too
    while done < buf.len() {
        let n = input.read(&mut buf[done..]).unwrap_or(0);
        if n == 0 {
            break;
        }
        done += n;
    }
    done
}

// A file whose end was not met, be it longer or a read that failed, counts as too long.
fn main(rt: HostRuntime) -> io::Result<()> {
    // kept: a rule of the project: no heap
    let mut file = [0u8; 20481];
    let mut input = rt.reader();
    let n = read_full(&mut input, &mut file);
    if input.bytes().next().is_none() {
        return print(&rt, billing::bill_file(&file[..n]));
    }
    print(&rt, billing::bill_file(&file))
}
