// The refusals of a job, in document 01's order.
ghost use Rattle.std.specs.Prelude.{◌≡◌, ◌+◌, ◌≤◌, leb, IfOk, OnOk};
ghost use Rattle.parts.specs.Refused.{answer_of};
ghost use Rattle.parts.specs.Table.{row_of, told_row};
ghost use Rattle.request.specs.Refusal.{begin_refusal, job_refusal, meets, protection_refusal, range_refusal, request_refusal, sectors_refusal, standing_on, standing_refusal};

use parts::{Refusal, Row, Span};

// Whether count cells from first on lie within so many cells.
#[tactic(auto, using(parts::proofs::Rules::tests))]
fn lies_within(cells: usize, first: usize, count: usize) -> bool
    ensures { result ≡ leb (first + count) cells }
{
    count <= cells && first <= cells - count
}

// Whether count cells from first on hold one of a range.
#[tactic(auto, unfolding(crate::specs::Refusal::meets), using(parts::proofs::Rules::tests))]
fn meets_range(s: Span, first: usize, count: usize) -> bool
    requires { first + count ≤ 4294967296 }
    ensures { result ≡ meets s first count }
{
    let from = s.first as usize;
    0 < count && first < from + s.count as usize && from < first + count
}

// The refusal of a range that WP# protects.
#[tactic(auto, unfolding(crate::specs::Refusal::protection_refusal))]
fn check_protection(row: Row, first: usize, count: usize, wp: bool) -> Result<(), Refusal>
    requires { first + count ≤ 4294967296 }
    ensures { answer_of result ≡ protection_refusal row first count wp }
{
    if wp {
        return Ok(());
    }
    if meets_range(row.protected_range(), first, count) {
        return Err(Refusal::Protected);
    }
    Ok(())
}

// The refusal of a range: 6, 7.
#[tactic(auto, unfolding(crate::specs::Refusal::sectors_refusal), using(parts::proofs::Rules::tests, parts::proofs::Ranges::size))]
fn check_sectors(row: Row, first: usize, count: usize) -> Result<(), Refusal>
    ensures answer { answer_of result ≡ sectors_refusal row first count }
    ensures within { OnOk result (first + count ≤ row.cells) }
{
    let size = row.sector_size() as usize;
    if 0 < first % size {
        return Err(Refusal::NotSectors);
    }
    if 0 < count % size {
        return Err(Refusal::NotSectors);
    }
    if !lies_within(row.cells as usize, first, count) {
        return Err(Refusal::PastCells);
    }
    Ok(())
}

// The refusal of a range and an image: 6, 7, 8, 9.
#[tactic(auto, unfolding(crate::specs::Refusal::range_refusal), using(parts::proofs::Told::refused))]
fn check_range(row: Row, first: u32, image: &[u16], wp: bool) -> Result<(), Refusal>
    ensures { answer_of result ≡ range_refusal row first image.now wp }
{
    let from = first as usize;
    let count = image.len();
    check_sectors(row, from, count)?;
    if !values::all_fit(row.width, image) {
        return Err(Refusal::WideImage);
    }
    check_protection(row, from, count, wp)
}

// The refusal of what is asked of a part: 10, 6, 7, 8, 9.
fn check_request(row: Row, first: u32, image: &[u16], wp: bool, p: u32) -> Result<(), Refusal>
    ensures { answer_of result ≡ request_refusal row first image.now wp p }
{
    if !parts::is_interval(p) {
        return Err(Refusal::BadInterval);
    }
    check_range(row, first, image, wp)
}

// The row of a job's part, or the job's refusal: 1, 2, 10, 6, 7, 8, 9.
#[tactic(auto, unfolding(crate::specs::Refusal::job_refusal), using(parts::proofs::Told::refused, parts::proofs::Rules::tests))]
pub fn check_job(
    part: u32,
    lent: usize,
    first: u32,
    image: &[u16],
    wp: bool,
    p: u32,
) -> Result<Row, Refusal>
    ensures answer { answer_of result ≡ job_refusal part lent first image.now wp p }
    ensures row { IfOk result (λ r. r ≡ row_of part) }
{
    let row = table::part_row(part)?;
    if lent != row.cells as usize {
        return Err(Refusal::WrongCells);
    }
    check_request(row, first, image, wp, p)?;
    Ok(row)
}

// The same of a job to which no cells are lent: 1, 10, 6, 7, 8, 9.
#[tactic(auto, unfolding(crate::specs::Refusal::begin_refusal), using(parts::proofs::Told::refused))]
pub fn check_begin(part: u32, first: u32, image: &[u16], wp: bool, p: u32) -> Result<Row, Refusal>
    ensures answer { answer_of result ≡ begin_refusal part first image.now wp p }
    ensures row { IfOk result (λ r. r ≡ row_of part) }
{
    let known = table::part_row(part)?;
    check_request(known, first, image, wp, p)?;
    Ok(known)
}

// The same of a job under way on a part that was looked up, with no pass over its image: 1, 10, 6, 7, 9.
#[tactic(auto, using(parts::proofs::Told::refused))]
pub fn check_standing_on(
    found: Result<Row, Refusal>,
    first: u32,
    count: u32,
    wp: bool,
    p: u32,
) -> Result<Row, Refusal>
    ensures answer { answer_of result ≡ standing_on (told_row found) first count wp p }
    ensures row { IfOk result (λ r. r ≡ (told_row found).row) }
{
    let row = found?;
    if !parts::is_interval(p) {
        return Err(Refusal::BadInterval);
    }
    check_sectors(row, first as usize, count as usize)?;
    check_protection(row, first as usize, count as usize, wp)?;
    Ok(row)
}

// The same by the part's number.
#[tactic(auto, unfolding(crate::specs::Refusal::standing_refusal))]
pub fn check_standing(part: u32, first: u32, count: u32, wp: bool, p: u32) -> Result<Row, Refusal>
    ensures answer { answer_of result ≡ standing_refusal part first count wp p }
    ensures row { IfOk result (λ r. r ≡ row_of part) }
{
    check_standing_on(table::part_row(part), first, count, wp, p)
}
