// What all boots have in common: the limit of a line, the kind of entry, and the numbers of an answer.
ghost use Rattle.std.specs.Prelude.{◌≡◌};
ghost use Rattle.capi.specs.Values.{Tells};
ghost use Rattle.capi_boot.specs.Calls.{limit_given, is_wide, boot_number, boot_values};

use answers::Refusal;
use boot::Booted;
use capi::{places, results};

// How many numbers a boot that is accepted returns: the six of a load, then the entry address.
pub(crate) const SIZE: usize = 7;

// Bit 2 of the flags: a limit is given.
pub(crate) fn limit_by(flags: u32, limit: u32) -> Option<u32>
    ensures { result ≡ limit_given flags limit }
{
    (flags / 4 % 2 == 1).then_some(limit)
}

// Bit 3: the kernel is entered in 64-bit mode.
pub(crate) fn is_wide(flags: u32) -> bool
    ensures { result ≡ is_wide flags }
{
    flags / 8 % 2 == 1
}

// The number of a boot's answer; its values into `out`. Not `put_plan` of `capi`: the seventh number is part of the
// answer, and no argument beside it.
pub(crate) fn put_booted(out: &mut [u64], answer: Result<Booted, Refusal>) -> u32
    ensures { Tells (boot_number answer) (boot_values answer) out.old result out.new }
{
    match answer {
        Ok(booted) => {
            places::put(out, 0, &results::kernel_numbers(booted.kernel));
            places::put(out, 6, &[booted.entry.0]);
            0
        }
        Err(refusal) => u32::from(refusal),
    }
}
