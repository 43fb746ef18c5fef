// How far a load is and where it goes, in a list of numbers: ten numbers, 16 starts and 16 sizes.
ghost use Rattle.capi.specs.Options.{given_by};
ghost use Rattle.answers.specs.declared.Refusal.TheVariants.{BadList};
ghost use Rattle.std.specs.Result.{result_and};
ghost use Rattle.std.specs.Prelude.{◌≡◌, leb, Ok};
ghost use Rattle.answers.specs.Tests.{pass, asked_all, asked};
ghost use Rattle.capi.specs.Saved.{stage_code, stage_of, given_code, head_of, with_kept, map_in, kept_in, kept_tests};

use crate::places;
use answers::Refusal;
use guest::{GuestAddress, Map, Memory, addresses, maps};
use loads::{Progress, Stage};

// How far a load is, and the addresses that it was made with.
#[derive(Clone, Copy)]
pub(crate) struct Kept {
    pub progress: Progress,
    pub kernel_offset: Option<GuestAddress>,
    pub highmem_start: Option<GuestAddress>,
}

// The numbers are those of the state in C memory (rekusoyen_raw_begin, rekusoyen_raw_step). `Stage` has no `From` in
// its crate, since this crate alone knows that state. `stage_code`, `format_code` and their inverses are short tables
// of two enums: one function of both would not be shorter.
fn stage_code(stage: Stage) -> u64
    ensures { result ≡ stage_code stage }
{
    match stage {
        Stage::Fresh => 0,
        Stage::Copying => 1,
        Stage::Done => 2,
    }
}

fn stage_of(n: u64) -> Result<Stage, Refusal>
    ensures { result ≡ result_and (asked pass (leb n 2) BadList) (Ok (stage_of n)) }
{
    match n {
        0 => Ok(Stage::Fresh),
        1 => Ok(Stage::Copying),
        2 => Ok(Stage::Done),
        _ => Err(Refusal::BadList),
    }
}

// 1 if an address is given, else 0: the number of the state in C memory.
#[tactic(auto, unfolding(crate::specs::Saved::given_code))]
fn given_code(given: Option<GuestAddress>) -> u64
    ensures { result ≡ given_code given }
{
    u64::from(given.is_some())
}

// The ten numbers.
fn head(kept: Kept) -> [u64; 10]
    ensures { result ≡ head_of kept }
{
    let progress = kept.progress;
    [
        stage_code(progress.stage),
        progress.image_len,
        progress.memory.size,
        progress.memory.map.count,
        progress.at,
        progress.done,
        given_code(kept.kernel_offset),
        addresses::amount(kept.kernel_offset),
        given_code(kept.highmem_start),
        addresses::amount(kept.highmem_start),
    ]
}

// Writes what is kept into a list. Inlined, as `saved::write` is, which calls it.
#[inline(always)]
pub(crate) fn write(numbers: &mut [u64], kept: Kept)
    ensures { numbers.new ≡ with_kept kept numbers.old }
{
    let map = kept.progress.memory.map;
    places::put(numbers, 0, &head(kept));
    places::put(numbers, 10, &map.starts);
    places::put(numbers, 26, &map.sizes);
}

// The map of a list.
fn read_map(numbers: &[u64]) -> Map
    ensures { result ≡ map_in numbers.now }
{
    Map {
        count: maps::number_at(numbers, 3),
        starts: places::sixteen(numbers, 10),
        sizes: places::sixteen(numbers, 26),
    }
}

// An address that may be given: 1 and the address if it is, else 0.
fn given_of(code: u64, address: u64) -> Result<Option<GuestAddress>, Refusal>
    ensures { result ≡ result_and (asked pass (leb code 1) BadList) (Ok (given_by code address)) }
{
    match code {
        0 => Ok(None),
        1 => Ok(Some(GuestAddress(address))),
        _ => Err(Refusal::BadList),
    }
}

// What a list keeps, if its numbers are those of a load between two steps.
pub(crate) fn read(numbers: &[u64]) -> Result<Kept, Refusal>
    ensures { result ≡ result_and (asked_all pass (kept_tests numbers.now)) (Ok (kept_in numbers.now)) }
{
    let stage = stage_of(maps::number_at(numbers, 0))?;
    let kernel_offset = given_of(maps::number_at(numbers, 6), maps::number_at(numbers, 7))?;
    let highmem_start = given_of(maps::number_at(numbers, 8), maps::number_at(numbers, 9))?;
    let memory = Memory {
        size: maps::number_at(numbers, 2),
        map: read_map(numbers),
    };
    Ok(Kept {
        progress: Progress {
            stage,
            image_len: maps::number_at(numbers, 1),
            memory,
            at: maps::number_at(numbers, 4),
            done: maps::number_at(numbers, 5),
        },
        kernel_offset,
        highmem_start,
    })
}
