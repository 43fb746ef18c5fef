// The tests of every call of a load in steps, and how far a load is.
ghost use Rattle.std.specs.Prelude.{◌≡◌};
ghost use Rattle.answers.specs.Tests.{pass, asked_all};
ghost use Rattle.loads.specs.Calls.{as_first, step_tests, moved_to, begun_with, fresh_progress};

use crate::{Progress, Stage};
use answers::Refusal;
use guest::{Memory, Portion, lent, maps, room};

// Are the image's length and the memory those of the first step, or is this the first?
fn is_as_first(progress: Progress, image_len: u64, memory: &Memory) -> bool
    ensures { result ≡ as_first progress image_len memory.now }
{
    if progress.stage == Stage::Fresh {
        return true;
    }
    progress.image_len == image_len && room::is_same(&progress.memory, memory)
}

// The tests of a call, in their order.
pub fn ask(progress: Progress, image_len: u64, memory: &Memory, budget: u64) -> Result<(), Refusal>
    ensures { result ≡ asked_all pass (step_tests progress image_len memory.now budget) }
{
    lent::ask(image_len, memory)?;
    answers::require(0 < budget, Refusal::NoBudget)?;
    answers::require(
        is_as_first(progress, image_len, memory),
        Refusal::LentChanged,
    )
}

// How far a load is that starts: at its first part if it loads, else at its end. `loads` is the plan's `is_ok`, which
// is all of its answer that counts here.
pub fn begin(loads: bool, image_len: u64, memory: &Memory) -> Progress
    ensures { result ≡ begun_with loads image_len memory.now }
{
    let stage = if loads { Stage::Copying } else { Stage::Done };
    Progress {
        stage,
        image_len,
        memory: *memory,
        at: 0,
        done: 0,
    }
}

// How far it is after a portion.
pub fn moved(progress: Progress, portion: Portion) -> Progress
    ensures { result ≡ moved_to progress portion }
{
    let stage = if portion.all {
        Stage::Done
    } else {
        Stage::Copying
    };
    Progress {
        stage,
        at: portion.at,
        done: portion.done,
        ..progress
    }
}

// A load that is not started.
pub fn fresh() -> Progress
    ensures { result ≡ fresh_progress }
{
    Progress {
        stage: Stage::Fresh,
        image_len: 0,
        memory: Memory {
            size: 0,
            map: maps::whole(0),
        },
        at: 0,
        done: 0,
    }
}
