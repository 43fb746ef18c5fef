// The setup header's fields: a table of their sizes, and the places that the sizes sum to.
ghost use Rattle.std.specs.Prelude.{◌≡◌};
ghost use Rattle.bzimage.specs.SetupHeader.{place_of};

use guest::ImagePlace;

// The sizes of the thirty-nine fields, in order.
const SIZES: [u8; 39] = [
    1, // setup_sects
    2, // root_flags
    4, // syssize
    2, // ram_size
    2, // vid_mode
    2, // root_dev
    2, // boot_flag
    2, // jump
    4, // header
    2, // version
    4, // realmode_swtch
    2, // start_sys_seg
    2, // kernel_version
    1, // type_of_loader
    1, // loadflags
    2, // setup_move_size
    4, // code32_start
    4, // ramdisk_image
    4, // ramdisk_size
    4, // bootsect_kludge
    2, // heap_end_ptr
    1, // ext_loader_ver
    1, // ext_loader_type
    4, // cmd_line_ptr
    4, // initrd_addr_max
    4, // kernel_alignment
    1, // relocatable_kernel
    1, // min_alignment
    2, // xloadflags
    4, // cmdline_size
    4, // hardware_subarch
    8, // hardware_subarch_data
    4, // payload_offset
    4, // payload_length
    8, // setup_data
    8, // pref_address
    4, // init_size
    4, // handover_offset
    4, // kernel_info_offset
];

// The fields that a load uses, by their number in the table.
pub const SETUP_SECTS: usize = 0;

pub const HEADER: usize = 8;

pub const VERSION: usize = 9;

pub const LOADFLAGS: usize = 14;

pub const CODE32_START: usize = 16;

// The place of a field in the image: the sizes before it, summed. A number past the last field gives the header's end.
pub fn place(field: usize) -> ImagePlace
    ensures { result.0 ≡ place_of field }
{
    let mut at: u64 = 0x1F1;
    for size in &SIZES[..field.min(SIZES.len())] {
        at += u64::from(*size);
    }
    ImagePlace(at)
}
