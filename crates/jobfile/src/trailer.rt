// The trailer of a job file: the last 16 bytes, which point back to the image.
ghost use Rattle.std.specs.Prelude.{◌≡◌};
ghost use Rattle.jobfile.specs.JobFile.{job_of, refused, wrong};

use crate::bytes::{bytes_from, four_bytes, one_byte, two_bytes};
use parts::Refusal;

// What a job file asks: 0 or 13, and beside 0 the part, the WP# level, the first address, p,
// and the image by its first byte in the file and its number of values.
// kept: the C interface: it crosses C as it is
#[repr(C)]
#[derive(Clone, Copy, PartialEq, Eq, Debug, Default)]
pub struct JobFile {
    pub answer: u32,
    pub part: u32,
    pub wp: bool,
    pub first: u32,
    pub p: u32,
    pub start: usize,
    pub count: usize,
}

// A refused job file.
fn refused_job() -> JobFile
    ensures { result ≡ refused }
{
    JobFile {
        answer: Refusal::BadFile.number(),
        ..JobFile::default()
    }
}

// Whether a trailer is wrong that has so many bytes before it.
#[tactic(auto, unfolding(crate::specs::JobFile::wrong))]
fn is_wrong(t: &[u8], before: usize) -> bool
    ensures { result ≡ wrong t.now before }
{
    let distance = four_bytes(t, 12) as usize;
    0 < one_byte(t, 3)
        || 0 < two_bytes(t, 10)
        || 1 < one_byte(t, 2)
        || distance % 2 == 1
        || before < distance
}

// What a job file asks: 13 for a malformed one.
#[tactic(auto, using(crate::proofs::Accepted::reads), unfolding(crate::specs::JobFile::malformed, crate::specs::JobFile::job_of))]
pub fn read_job(file: &[u8]) -> JobFile
    ensures { result ≡ job_of file.now }
{
    let Some(before) = file.len().checked_sub(16) else {
        return refused_job();
    };
    let t = bytes_from(file, before);
    if is_wrong(t, before) {
        return refused_job();
    }
    let distance = four_bytes(t, 12) as usize;
    JobFile {
        answer: 0,
        part: u32::from(two_bytes(t, 0)),
        wp: one_byte(t, 2) == 1,
        first: four_bytes(t, 4),
        p: u32::from(two_bytes(t, 8)),
        start: before - distance,
        count: distance / 2,
    }
}
