// Every answer that is a refusal, and the order in which tests refuse.
#![tactic(auto, unfolding(crate::specs::Pick::pick, crate::specs::Tests::asked))]

ghost use Rattle.std.specs.Prelude.{◌≡◌};
ghost use Rattle.answers.specs.Catalogue.{number_of, HasNumber};
ghost use Rattle.answers.specs.Tests.{pass, asked};

// Every refusal, by name and number. `u32::from` gives the number; the C header and the Rust crate repeat it, and are
// tested to have the same.
#[derive(Clone, Copy, Debug, PartialEq, Eq)]
pub enum Refusal {
    // ELF
    InvalidElfMagicNumber = 1,
    BigEndianElfOnLittle = 2,
    InvalidProgramHeaderSize = 3,
    InvalidProgramHeaderOffset = 4,
    InvalidEntryAddress = 5,
    Overflow = 6,
    ReadElfHeader = 7,
    ReadProgramHeader = 8,
    InvalidProgramHeaderAddress = 9,
    ReadKernelImage = 10,
    ReadNoteHeader = 11,
    InvalidPvhNote = 12,
    MemoryOverflow = 13,
    InvalidProgramHeaderFileSize = 14,
    // bzImage
    InvalidBzImage = 21,
    Underflow = 22,
    InvalidKernelStartAddress = 23,
    ReadBzImageCompressedKernel = 24,
    // a line put into guest memory
    InvalidCommandLine = 31,
    CommandLineOverflow = 32,
    // a line built
    InvalidCapacity = 41,
    InvalidAscii = 42,
    HasSpace = 43,
    HasEquals = 44,
    MissingVal = 45,
    MmioSize = 46,
    TooLarge = 47,
    NoQuoteSpace = 48,
    InvalidQuote = 49,
    // a line written
    NoBootArgsInserted = 50,
    NullTerminator = 51,
    // not in linux-loader: limits of the caller's slices and lists
    SliceTooLong = 60,
    BadList = 61,
    NoRoom = 62,
    // a load in steps
    NoBudget = 63,
    LentChanged = 64,
    // a job of the desk program
    BadJob = 70,
    // the words of a line
    UnclosedQuote = 71,
    TooFewPlaces = 72,
    // the boot page
    BadPageSize = 73,
    TooManyRows = 74,
    BadRow = 75,
    // the PVH start block
    BadPart = 76,
    // guest memory
    BadMap = 77,
    BadStartMagic = 78,
    BadStartVersion = 79,
    BadStartReserved = 80,
    // arm64
    ShortImage = 81,
    BadImageMagic = 82,
    BigEndianImage = 83,
    NoImageSize = 84,
    UnalignedBase = 85,
    ImageStartWraps = 86,
    NoRoomForImage = 87,
    ImageEndWraps = 88,
    // a whole boot
    LineTooLong = 91,
    WrongEntry = 92,
    No64BitEntry = 93,
    NoPvhEntry = 94,
    LineNotInTree = 95,
    KernelOutside = 96,
    RamdiskOutside = 97,
    BootDataOutside = 98,
    RamdiskTooHigh = 99,
    KernelMeetsLine = 100,
    KernelMeetsRamdisk = 101,
    KernelMeetsBootData = 102,
    LineMeetsRamdisk = 103,
    LineMeetsBootData = 104,
    RamdiskMeetsBootData = 105,
    KernelNotInRows = 106,
    LineNotInRows = 107,
    RamdiskNotInRows = 108,
}

// The number of a refusal, for callers that take numbers.
impl From<Refusal> for u32 {
    ghost from_gives = { λ refusal n. n ≡ number_of refusal };

    fn from(refusal: Refusal) -> u32 {
        refusal as u32
    }
}

// The error of `Refusal::try_from`: no refusal has this number.
#[derive(Clone, Copy, Debug, PartialEq, Eq)]
pub struct UnknownNumber(pub u32);

// The refusal that has a number, if one has.
impl TryFrom<u32> for Refusal {
    type Error = UnknownNumber;

    ghost try_from_gives = { HasNumber };

    fn try_from(n: u32) -> Result<Refusal, UnknownNumber> {
        match n {
            1 => Ok(Refusal::InvalidElfMagicNumber),
            2 => Ok(Refusal::BigEndianElfOnLittle),
            3 => Ok(Refusal::InvalidProgramHeaderSize),
            4 => Ok(Refusal::InvalidProgramHeaderOffset),
            5 => Ok(Refusal::InvalidEntryAddress),
            6 => Ok(Refusal::Overflow),
            7 => Ok(Refusal::ReadElfHeader),
            8 => Ok(Refusal::ReadProgramHeader),
            9 => Ok(Refusal::InvalidProgramHeaderAddress),
            10 => Ok(Refusal::ReadKernelImage),
            11 => Ok(Refusal::ReadNoteHeader),
            12 => Ok(Refusal::InvalidPvhNote),
            13 => Ok(Refusal::MemoryOverflow),
            14 => Ok(Refusal::InvalidProgramHeaderFileSize),
            21 => Ok(Refusal::InvalidBzImage),
            22 => Ok(Refusal::Underflow),
            23 => Ok(Refusal::InvalidKernelStartAddress),
            24 => Ok(Refusal::ReadBzImageCompressedKernel),
            31 => Ok(Refusal::InvalidCommandLine),
            32 => Ok(Refusal::CommandLineOverflow),
            41 => Ok(Refusal::InvalidCapacity),
            42 => Ok(Refusal::InvalidAscii),
            43 => Ok(Refusal::HasSpace),
            44 => Ok(Refusal::HasEquals),
            45 => Ok(Refusal::MissingVal),
            46 => Ok(Refusal::MmioSize),
            47 => Ok(Refusal::TooLarge),
            48 => Ok(Refusal::NoQuoteSpace),
            49 => Ok(Refusal::InvalidQuote),
            50 => Ok(Refusal::NoBootArgsInserted),
            51 => Ok(Refusal::NullTerminator),
            60 => Ok(Refusal::SliceTooLong),
            61 => Ok(Refusal::BadList),
            62 => Ok(Refusal::NoRoom),
            63 => Ok(Refusal::NoBudget),
            64 => Ok(Refusal::LentChanged),
            70 => Ok(Refusal::BadJob),
            71 => Ok(Refusal::UnclosedQuote),
            72 => Ok(Refusal::TooFewPlaces),
            73 => Ok(Refusal::BadPageSize),
            74 => Ok(Refusal::TooManyRows),
            75 => Ok(Refusal::BadRow),
            76 => Ok(Refusal::BadPart),
            77 => Ok(Refusal::BadMap),
            78 => Ok(Refusal::BadStartMagic),
            79 => Ok(Refusal::BadStartVersion),
            80 => Ok(Refusal::BadStartReserved),
            81 => Ok(Refusal::ShortImage),
            82 => Ok(Refusal::BadImageMagic),
            83 => Ok(Refusal::BigEndianImage),
            84 => Ok(Refusal::NoImageSize),
            85 => Ok(Refusal::UnalignedBase),
            86 => Ok(Refusal::ImageStartWraps),
            87 => Ok(Refusal::NoRoomForImage),
            88 => Ok(Refusal::ImageEndWraps),
            91 => Ok(Refusal::LineTooLong),
            92 => Ok(Refusal::WrongEntry),
            93 => Ok(Refusal::No64BitEntry),
            94 => Ok(Refusal::NoPvhEntry),
            95 => Ok(Refusal::LineNotInTree),
            96 => Ok(Refusal::KernelOutside),
            97 => Ok(Refusal::RamdiskOutside),
            98 => Ok(Refusal::BootDataOutside),
            99 => Ok(Refusal::RamdiskTooHigh),
            100 => Ok(Refusal::KernelMeetsLine),
            101 => Ok(Refusal::KernelMeetsRamdisk),
            102 => Ok(Refusal::KernelMeetsBootData),
            103 => Ok(Refusal::LineMeetsRamdisk),
            104 => Ok(Refusal::LineMeetsBootData),
            105 => Ok(Refusal::RamdiskMeetsBootData),
            106 => Ok(Refusal::KernelNotInRows),
            107 => Ok(Refusal::LineNotInRows),
            108 => Ok(Refusal::RamdiskNotInRows),
            _ => Err(UnknownNumber(n)),
        }
    }
}

// One test: its refusal, if it fails. A row of tests calls this with `?` for each, so that the first test that fails is
// the one that refuses.
pub fn require(ok: bool, refusal: Refusal) -> Result<(), Refusal>
    ensures { result ≡ asked pass ok refusal }
{
    if ok { Ok(()) } else { Err(refusal) }
}
