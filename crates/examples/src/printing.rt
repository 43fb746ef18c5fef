// How results are printed. Each begins with a space.
use answers::Refusal;
use guest::{KernelLoaderResult, PvhBootCapability};
use std::fmt;

// A refusal, by its number.
#[derive(Clone, Copy)]
pub(crate) struct Refused(pub Refusal);

impl fmt::Display for Refused {
    fn fmt<W: fmt::Write>(&self, f: &mut fmt::Formatter<W>) -> fmt::Result {
        write!(f, " refused {}", u32::from(self.0))
    }
}

// Guest memory: two hexadecimal digits for each byte.
#[derive(Clone, Copy)]
pub(crate) struct Guest<'a>(pub &'a [u8]);

impl fmt::Display for Guest<'_> {
    fn fmt<W: fmt::Write>(&self, f: &mut fmt::Formatter<W>) -> fmt::Result {
        f.write_str(" guest ")?;
        for byte in self.0 {
            write!(f, "{byte:02x}")?;
        }
        Ok(())
    }
}

// A list of numbers.
#[derive(Clone, Copy)]
pub(crate) struct List<'a>(pub &'a [u64]);

impl fmt::Display for List<'_> {
    fn fmt<W: fmt::Write>(&self, f: &mut fmt::Formatter<W>) -> fmt::Result {
        for n in self.0 {
            write!(f, " {n}")?;
        }
        Ok(())
    }
}

// A text of ASCII bytes.
#[derive(Clone, Copy)]
pub(crate) struct Text<'a>(pub &'a [u8]);

impl fmt::Display for Text<'_> {
    fn fmt<W: fmt::Write>(&self, f: &mut fmt::Formatter<W>) -> fmt::Result {
        f.write_str(" ")?;
        for byte in self.0 {
            f.write_char(char::from(*byte))?;
        }
        Ok(())
    }
}

// What a load returns.
#[derive(Clone, Copy)]
pub(crate) struct Load(pub Result<KernelLoaderResult, Refusal>);

impl fmt::Display for Load {
    fn fmt<W: fmt::Write>(&self, f: &mut fmt::Formatter<W>) -> fmt::Result {
        match self.0 {
            Err(refusal) => write!(f, "{}", Refused(refusal)),
            Ok(kernel) => {
                write!(
                    f,
                    " load {} end {}",
                    kernel.kernel_load.0, kernel.kernel_end.0
                )?;
                match kernel.pvh_boot_cap {
                    PvhBootCapability::PvhEntryIgnored => f.write_str(" pvh ignored"),
                    PvhBootCapability::PvhEntryNotPresent => f.write_str(" pvh none"),
                    PvhBootCapability::PvhEntryPresent(note) => write!(f, " pvh {}", note.entry.0),
                }
            }
        }
    }
}
