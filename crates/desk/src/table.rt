// The table of contents at the front of a job, and the bodies after it.
ghost use Rattle.std.specs.Prelude.{◌≡◌, ◌≤◌, ◌<◌, ◌^◌};
ghost use Rattle.answers.specs.Tests.{pass, asked_all};
ghost use Rattle.guest.specs.Stream.{bytes_at};
ghost use Rattle.desk.specs.Table.{RowRead, is_image, count_good, kinds_good, one_placed, two_placed, places_good};
ghost use Rattle.desk.specs.Table.{job_tests, image_row, line_row, has_line};

use answers::Refusal;
use fields::numbers;

// The most bytes that a job may have.
const MOST: usize = 16384;

// A place in the job, counted from its first byte.
#[derive(Clone, Copy)]
pub(crate) struct JobPlace(pub u64);

// The places of the two rows.
const FIRST: u64 = 4;

const SECOND: u64 = 16;

// A row: the kind of a body, its place in the job and its size. The kind is a number, as the job has it (1 ELF, 2
// bzImage, 3 a line): the definitions `image_row` and `image_format` answer on every number.
#[derive(Clone, Copy)]
pub(crate) struct Row {
    pub kind: u64,
    pub place: JobPlace,
    pub size: u64,
}

// The row at a place.
fn row_at(job: &[u8], at: JobPlace) -> Row
    requires { at.0 ≤ 16 }
    ensures { RowRead job.now at.0 result }
{
    Row {
        kind: numbers::read_u32(job, at.0),
        place: JobPlace(numbers::read_u32(job, at.0 + 4)),
        size: numbers::read_u32(job, at.0 + 8),
    }
}

fn is_image(kind: u64) -> bool
    ensures { result ≡ is_image kind }
{
    matches!(kind, 1 | 2)
}

fn is_count(count: u64) -> bool
    ensures { result ≡ count_good count }
{
    matches!(count, 1 | 2)
}

// One image; and, if there are two rows, a line.
fn are_kinds(count: u64, a: u64, b: u64) -> bool
    ensures { result ≡ kinds_good count a b }
{
    if count == 1 {
        return is_image(a);
    }
    (is_image(a) && b == 3) || (a == 3 && is_image(b))
}

// One body, right after the table of one row and up to the end of the job.
fn is_placed(a: Row, len: u64) -> bool
    requires { a.size < 2 ^ 32 }
    ensures { result ≡ one_placed a len }
{
    a.place.0 == 16 && 16 + a.size == len
}

// Two bodies, one after the other, right after the table of two rows and up to the end of the job.
fn are_both_placed(a: Row, b: Row, len: u64) -> bool
    requires { (a.size < 2 ^ 32) × (b.size < 2 ^ 32) }
    ensures { result ≡ two_placed a b len }
{
    a.place.0 == 28 && b.place.0 == 28 + a.size && 28 + a.size + b.size == len
}

fn are_placed(count: u64, a: Row, b: Row, len: u64) -> bool
    requires { (a.size < 2 ^ 32) × (b.size < 2 ^ 32) }
    ensures { result ≡ places_good count a b len }
{
    if count == 1 {
        return is_placed(a, len);
    }
    are_both_placed(a, b, len)
}

// Is the job good?
pub(crate) fn check(job: &[u8]) -> Result<(), Refusal>
    ensures { result ≡ asked_all pass (job_tests job.now) }
{
    let count = numbers::read_u32(job, 0);
    let a = row_at(job, JobPlace(FIRST));
    let b = row_at(job, JobPlace(SECOND));
    answers::require(job.len() <= MOST, Refusal::BadJob)?;
    answers::require(is_count(count), Refusal::BadJob)?;
    answers::require(are_kinds(count, a.kind, b.kind), Refusal::BadJob)?;
    answers::require(are_placed(count, a, b, job.len() as u64), Refusal::BadJob)
}

// The row of the image, and the other one, which is the line's if there are two.
pub(crate) fn rows(job: &[u8]) -> (Row, Row)
    ensures { (result.0 ≡ image_row job.now) × (result.1 ≡ line_row job.now) }
{
    let a = row_at(job, JobPlace(FIRST));
    let b = row_at(job, JobPlace(SECOND));
    if is_image(a.kind) { (a, b) } else { (b, a) }
}

pub(crate) fn has_line(job: &[u8]) -> bool
    ensures { result ≡ has_line job.now }
{
    numbers::read_u32(job, 0) == 2
}

// The body of a row, as far as the job goes.
pub(crate) fn body(job: &[u8], row: Row) -> &[u8]
    ensures { result.now ≡ bytes_at job.now row.place.0 row.size }
{
    let from = (row.place.0 as usize).min(job.len());
    let to = from + (row.size as usize).min(job.len() - from);
    &job[from..to]
}
