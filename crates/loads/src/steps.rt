// A load taken in steps, each with a budget of bytes. The state is the caller's, by value.
ghost use Rattle.std.specs.Prelude.{◌≡◌};
ghost use Rattle.guest.specs.Loading.{Loads};
ghost use Rattle.loads.specs.Steps.{fresh_state, unchanged, reply_after, next_portion, first_step, StepSays};

use crate::{Options, Progress, Stage, calls, copying, formats};
use answers::Refusal;
use guest::{KernelLoaderResult, Map, Memory};

// A load between two steps: how far it is, its answer, which counts once it has started, and the options that it was
// made with. The answer is no `Option`, since the C state has its numbers before the first step, too.
#[derive(Clone, Copy)]
pub struct State {
    pub progress: Progress,
    pub answer: Result<KernelLoaderResult, Refusal>,
    pub options: Options,
}

// What a step replies: there is more to copy, the load's answer, or that the call was refused and was no step. Three
// outcomes: in a `Result<Option<Result<..>>, Refusal>` only the depth would tell the refusal of a call from the load's.
#[derive(Clone, Copy)]
pub enum Reply {
    More,
    Answers(Result<KernelLoaderResult, Refusal>),
    Refused(Refusal),
}

// A step's result: the state for the next one, the bytes that were copied, and the reply.
#[derive(Clone, Copy)]
pub struct Stepped {
    pub state: State,
    pub copied: u64,
    pub reply: Reply,
}

// A load that is not started.
pub fn begin(options: Options) -> State
    ensures { result ≡ fresh_state options }
{
    State {
        progress: calls::fresh(),
        answer: Err(Refusal::NoBudget),
        options,
    }
}

// A call that copies nothing.
fn stay(state: State, reply: Reply) -> Stepped
    ensures { result ≡ unchanged state reply }
{
    Stepped {
        state,
        copied: 0,
        reply,
    }
}

// What is replied after a portion: the answer, if nothing is left. `all` is the portion's field: an enum in its place
// would have no other use.
fn reply_after(all: bool, answer: Result<KernelLoaderResult, Refusal>) -> Reply
    ensures { result ≡ reply_after all answer }
{
    if all {
        Reply::Answers(answer)
    } else {
        Reply::More
    }
}

// The next portion.
fn go_on(guest: &mut [u8], state: State, image: &[u8], memory: &Memory, budget: u64) -> Stepped
    ensures { Loads (next_portion image.now memory.now state budget) guest.old result guest.new }
{
    let progress = state.progress;
    let portion = copying::copy_some(
        guest,
        memory,
        image,
        state.options,
        progress.at,
        progress.done,
        budget,
    );
    Stepped {
        state: State {
            progress: calls::moved(progress, portion),
            ..state
        },
        copied: portion.copied,
        reply: reply_after(portion.all, state.answer),
    }
}

// The first step: all is tested before anything is copied.
fn first(guest: &mut [u8], options: Options, image: &[u8], memory: &Memory, budget: u64) -> Stepped
    ensures { Loads (first_step image.now memory.now options budget) guest.old result guest.new }
{
    let answer = formats::plan(memory, image, options);
    let started = State {
        progress: calls::begin(answer.is_ok(), image.len() as u64, memory),
        answer,
        options,
    };
    if !answer.is_ok() {
        return stay(started, Reply::Answers(answer));
    }
    go_on(guest, started, image, memory, budget)
}

// A step: at most `budget` bytes.
pub fn step(guest: &mut [u8], map: Map, image: &[u8], state: State, budget: u64) -> Stepped
    ensures { StepSays image.now state budget map guest.old result guest.new }
{
    let memory = Memory::of(guest, map);
    if let Err(refusal) = calls::ask(state.progress, image.len() as u64, &memory, budget) {
        return stay(state, Reply::Refused(refusal));
    }
    match state.progress.stage {
        Stage::Fresh => first(guest, state.options, image, &memory, budget),
        Stage::Copying => go_on(guest, state, image, &memory, budget),
        Stage::Done => stay(state, Reply::Answers(state.answer)),
    }
}
