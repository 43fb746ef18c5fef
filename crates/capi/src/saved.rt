// The state of a load in steps, in a list of 50 numbers, which the C caller keeps: how far the load is, its format,
// then the seven numbers of its answer.
ghost use Rattle.answers.specs.declared.Refusal.TheVariants.{BadList};
ghost use Rattle.answers.specs.Tests.{asked, asked_all, pass};
ghost use Rattle.std.specs.Result.{result_and};
ghost use Rattle.std.specs.Prelude.{◌≡◌, leb, Ok};
ghost use Rattle.capi.specs.States.{answer_numbers, pvh_of, answer_in, answer_tests, with_state, state_in, step_gate};
ghost use Rattle.capi.specs.States.{StepTells};

use crate::progress::Kept;
use crate::{options, places, progress, refusals, results};
use answers::Refusal;
use guest::{GuestAddress, ImagePlace, KernelLoaderResult, PvhBootCapability, PvhNote, maps};
use loads::Options;
use loads::steps::{Reply, State, Stepped};

// How many numbers hold a state.
pub(crate) const SIZE: usize = 50;

// The seven numbers of an answer: its own, and the six of a kernel that is loaded.
fn answer_numbers(answer: Result<KernelLoaderResult, Refusal>) -> [u64; 7]
    ensures { result ≡ answer_numbers answer }
{
    match answer {
        Ok(kernel) => {
            let [load, end, code, address, place, size] = results::kernel_numbers(kernel);
            [0, load, end, code, address, place, size]
        }
        Err(refusal) => [u64::from(u32::from(refusal)), 0, 0, 0, 0, 0, 0],
    }
}

// The code is the C header's (REKUSOYEN_PVH_PRESENT ..), which this crate alone knows. It is no `TryFrom`, since three
// more numbers make the value.
fn pvh_of(code: u64, address: u64, place: u64, size: u64) -> Result<PvhBootCapability, Refusal>
    ensures { result ≡ result_and (asked pass (leb code 2) BadList) (Ok (pvh_of code address place size)) }
{
    match code {
        0 => Ok(PvhBootCapability::PvhEntryIgnored),
        1 => Ok(PvhBootCapability::PvhEntryNotPresent),
        2 => Ok(PvhBootCapability::PvhEntryPresent(PvhNote {
            entry: GuestAddress(address),
            place: ImagePlace(place),
            size,
        })),
        _ => Err(Refusal::BadList),
    }
}

// The answer of a load in a list: where the kernel is, or the load's refusal. A number that is no answer's is refused.
fn read_answer(numbers: &[u64]) -> Result<Result<KernelLoaderResult, Refusal>, Refusal>
    ensures { result ≡ result_and (asked_all pass (answer_tests numbers.now)) (Ok (answer_in numbers.now)) }
{
    let pvh_boot_cap = pvh_of(
        maps::number_at(numbers, 46),
        maps::number_at(numbers, 47),
        maps::number_at(numbers, 48),
        maps::number_at(numbers, 49),
    )?;
    let number = maps::number_at(numbers, 43);
    if number == 0 {
        return Ok(Ok(KernelLoaderResult {
            kernel_load: GuestAddress(maps::number_at(numbers, 44)),
            kernel_end: GuestAddress(maps::number_at(numbers, 45)),
            pvh_boot_cap,
        }));
    }
    match refusals::by_number(number) {
        Some(refusal) => Ok(Err(refusal)),
        None => Err(Refusal::BadList),
    }
}

// The state in a list, if the lists of a step have their sizes and the numbers are those of a state.
pub(crate) fn read(numbers: &[u64], out: &[u64]) -> Result<State, Refusal>
    ensures { result ≡ result_and (step_gate numbers.now out.now) (Ok (state_in numbers.now)) }
{
    answers::require(numbers.len() == SIZE, Refusal::NoRoom)?;
    answers::require(out.len() == 9, Refusal::NoRoom)?;
    let kept = progress::read(numbers)?;
    let format = maps::number_at(numbers, 42);
    options::ask_format(format)?;
    let answer = read_answer(numbers)?;
    Ok(State {
        progress: kept.progress,
        answer,
        options: Options {
            format: options::format_of(format),
            kernel_offset: kept.kernel_offset,
            highmem_start: kept.highmem_start,
        },
    })
}

// Writes a state into a list. Inlined, so that a state that is not started is written as constants.
#[inline(always)]
pub(crate) fn write(numbers: &mut [u64], state: State)
    ensures { numbers.new ≡ with_state state numbers.old }
{
    let kept = Kept {
        progress: state.progress,
        kernel_offset: state.options.kernel_offset,
        highmem_start: state.options.highmem_start,
    };
    progress::write(numbers, kept);
    places::put(
        numbers,
        42,
        &[u64::from(options::format_code(state.options.format))],
    );
    places::put(numbers, 43, &answer_numbers(state.answer));
}

// The number of a step's reply; the state into `numbers`, and the step's results into `out`.
pub(crate) fn put_step(numbers: &mut [u64], out: &mut [u64], stepped: Stepped) -> u32
    ensures { StepTells stepped numbers.old out.old result numbers.new out.new }
{
    let copied = stepped.copied;
    match stepped.reply {
        Reply::Refused(refusal) => u32::from(refusal),
        Reply::More => {
            write(numbers, stepped.state);
            places::put(out, 0, &[copied, 0, 0, 0, 0, 0, 0, 0, 0]);
            0
        }
        Reply::Answers(answer) => {
            write(numbers, stepped.state);
            places::put(out, 0, &[copied, 1]);
            places::put(out, 2, &answer_numbers(answer));
            0
        }
    }
}
