// What a monitor links: a job of the desk program, its bytes in, its text out.
#![tactic(auto, unfolding(answers::specs::Pick::pick, answers::specs::Tests::asked))]

ghost use Rattle.capi_jobs.specs.Jobs.{JobCall};

use answers::Refusal;

// Does a job over zero bytes of its own. `text` has 80 bytes: what the desk program prints, and zeros after it.
#[unsafe(no_mangle)]
pub extern "C" fn rekusoyen_job(job: &[u8], text: &mut [u8]) -> u32
    ensures { JobCall job.now text.old result text.new }
{
    if text.len() != 80 {
        return u32::from(Refusal::NoRoom);
    }
    text.copy_from_slice(&desk::do_job(job).bytes);
    0
}
