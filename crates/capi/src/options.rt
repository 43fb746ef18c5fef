// The options of a load, as numbers.
ghost use Rattle.std.specs.Prelude.{◌≡◌, ◌∷◌, Ok};
ghost use Rattle.std.specs.Result.{result_and};
ghost use Rattle.answers.specs.Tests.{pass, asked_all};
ghost use Rattle.answers.specs.declared.Refusal.TheVariants.{NoRoom};
ghost use Rattle.capi.specs.Options.{given_by, format_code, format_of, format_tests, options_of};

use answers::Refusal;
use guest::GuestAddress;
use loads::{Format, Options};

// An address, if its bit is 1.
pub(crate) fn given(bit: u64, address: u64) -> Option<GuestAddress>
    ensures { result ≡ given_by bit address }
{
    (bit == 1).then_some(GuestAddress(address))
}

// The numbers of the C header (REKUSOYEN_ELF ..). They are written here, and not as a `From` of `Format` in its crate,
// since this crate alone knows the header.
pub(crate) fn format_code(format: Format) -> u32
    ensures { result ≡ format_code format }
{
    match format {
        Format::Elf => 1,
        Format::BzImage => 2,
        Format::Arm64 => 3,
    }
}

// The format of a number that `ask_format` passed. It is no `Result`, since the public `options_of` answers on every
// number.
pub(crate) fn format_of(n: u64) -> Format
    ensures { result ≡ format_of n }
{
    match n {
        1 => Format::Elf,
        2 => Format::BzImage,
        _ => Format::Arm64,
    }
}

// Is it a format's number?
pub fn ask_format(n: u64) -> Result<(), Refusal>
    ensures { result ≡ asked_all pass (format_tests n) }
{
    answers::require(1 <= n, Refusal::BadList)?;
    answers::require(n <= 3, Refusal::BadList)
}

// Bit 0 of the flags: an offset is given; bit 1: the start of high memory is.
pub fn options_of(format: u32, flags: u32, offset: u64, highmem: u64) -> Options
    ensures { result ≡ options_of format flags offset highmem }
{
    Options {
        format: format_of(u64::from(format)),
        kernel_offset: given(u64::from(flags % 2), offset),
        highmem_start: given(u64::from(flags / 2 % 2), highmem),
    }
}

// The options of a call, if the list for its results has its size and the format is one.
pub fn of_call(
    is_sized: bool,
    format: u32,
    flags: u32,
    offset: u64,
    highmem: u64,
) -> Result<Options, Refusal>
    ensures { result ≡ result_and (asked_all pass ((is_sized, NoRoom) ∷ format_tests format))
        (Ok (options_of format flags offset highmem)) }
{
    answers::require(is_sized, Refusal::NoRoom)?;
    ask_format(u64::from(format))?;
    Ok(options_of(format, flags, offset, highmem))
}
