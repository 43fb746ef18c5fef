// Loads in steps. The state of a load is in numbers that the caller keeps; a list whose numbers are those of no state
// is refused.
ghost use Rattle.guest.specs.Maps.{map_of};
ghost use Rattle.capi.specs.Loads.{call_gate};
ghost use Rattle.capi.specs.Options.{options_of};
ghost use Rattle.capi.specs.States.{BeginCall, step_gate, StepCall};

use crate::{options, saved};
use guest::maps;

// Starts a load in steps: writes its state, 50 numbers, over whatever they held.
#[unsafe(no_mangle)]
pub extern "C" fn rekusoyen_raw_begin(
    state: &mut [u64],
    format: u32,
    flags: u32,
    offset: u64,
    highmem: u64,
) -> u32
    ensures { BeginCall (call_gate 50 state.old format) (options_of format flags offset highmem) state.old result
        state.new }
{
    match options::of_call(state.len() == saved::SIZE, format, flags, offset, highmem) {
        Err(refusal) => u32::from(refusal),
        Ok(options) => {
            saved::write(state, loads::steps::begin(options));
            0
        }
    }
}

// A step of a load: at most `budget` bytes are copied. It returns 0, or the refusal of a call that was no step, which
// changes nothing. `step` has 9 places: the bytes copied, 1 if the load answers and else 0, the answer's number, and
// the six values of a load, 0 if it gives none.
#[unsafe(no_mangle)]
pub extern "C" fn rekusoyen_raw_step(
    guest: &mut [u8],
    map: &[u64],
    image: &[u8],
    state: &mut [u64],
    budget: u64,
    step: &mut [u64],
) -> u32
    ensures { StepCall (step_gate state.old step.old) image.now (map_of map.now) budget guest.old state.old step.old
        result guest.new state.new step.new }
{
    match saved::read(state, step) {
        Err(refusal) => u32::from(refusal),
        Ok(held) => {
            let stepped = loads::steps::step(guest, maps::from_numbers(map), image, held, budget);
            saved::put_step(state, step, stepped)
        }
    }
}
