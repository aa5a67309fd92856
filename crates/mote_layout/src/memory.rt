//! Where everything stands in the data space and in flash.
//!
//! The places of the registers, SPL, SPH, SREG and the internal SRAM are the ATmega128's (data sheet,
//! "AVR ATmega128 Memories"). The division of the SRAM and of the flash is this project's own.

ghost use Rattle.std.specs.Prelude.{◌≡◌, ◌+◌, ◌*◌};
ghost use Rattle.mote_layout.specs.Memory.{register_count, spl, sph, sreg, pointer_x, pointer_y, pointer_z, first_port, spl_port, sph_port, sreg_port, ram_start, ram_end, ram_bytes, message_frame, message_frame_bytes, kernel_bytes_start, kernel_bytes_end, heap_start, heap_end, block_count, block_bytes, red_zone_start, red_zone_end, stack_start, stack_top, floor, domain_count, kernel, banks_start, bank_words};

/// How many registers there are; R0 to R31 are also the data addresses 0 to 31.
pub const REGISTERS: u16 = 32;

/// The data address of the stack pointer's low byte.
pub const SPL: u16 = 0x005D;

/// The data address of the stack pointer's high byte.
pub const SPH: u16 = 0x005E;

/// The data address of the status register.
pub const SREG: u16 = 0x005F;

/// The lower register of the pointer X, which is R27:R26.
pub const POINTER_X: u8 = 26;

/// The lower register of the pointer Y, which is R29:R28.
pub const POINTER_Y: u8 = 28;

/// The lower register of the pointer Z, which is R31:R30.
pub const POINTER_Z: u8 = 30;

/// The data address of port 0: IN and OUT count the I/O addresses from it.
pub const FIRST_PORT: u16 = 0x20;

/// The port of the stack pointer's low byte.
pub const SPL_PORT: u8 = 0x3D;

/// The port of the stack pointer's high byte.
pub const SPH_PORT: u8 = 0x3E;

/// The port of the status register.
pub const SREG_PORT: u8 = 0x3F;

/// The first address of the internal SRAM.
pub const RAM_START: u16 = 0x0100;

/// The last address of the internal SRAM.
pub const RAM_END: u16 = 0x10FF;

/// How many bytes the internal SRAM has.
pub const RAM_BYTES: usize = 4096;

/// The first address of the message frame, in which a handler finds its message.
pub const MESSAGE_FRAME: u16 = 0x0100;

/// How many bytes the message frame has.
pub const MESSAGE_FRAME_BYTES: u16 = 16;

/// The first of the kernel's bytes, whose values are never stated.
pub const KERNEL_BYTES_START: u16 = 0x0110;

/// The last of the kernel's bytes.
pub const KERNEL_BYTES_END: u16 = 0x01FF;

/// The first address of the heap.
pub const HEAP_START: u16 = 0x0200;

/// The last address of the heap.
pub const HEAP_END: u16 = 0x0DFF;

/// How many blocks the heap has.
pub const BLOCKS: u16 = 384;

/// How many bytes a block has.
pub const BLOCK_BYTES: u16 = 8;

/// The first address of the red zone, which lies under the stack.
pub const RED_ZONE_START: u16 = 0x0E00;

/// The last address of the red zone.
pub const RED_ZONE_END: u16 = 0x0E0F;

/// The least stack pointer of a unit that a domain begins.
pub const FLOOR: u16 = 0x0E0F;

/// The lowest address of the stack.
pub const STACK_START: u16 = 0x0E10;

/// The highest address of the stack, which is also the stack pointer at a dispatch.
pub const STACK_TOP: u16 = 0x10FF;

/// How many module domains there are; they are numbered from 0.
pub const DOMAINS: u8 = 15;

/// The kernel's number as an owner, the one after the domains'.
pub const KERNEL: u8 = DOMAINS;

/// The flash word at which the bank of domain 0 begins.
pub const BANKS_START: u16 = 0x4000;

/// How many flash words each domain's bank has.
pub const BANK_WORDS: u16 = 2048;

/// Law: each constant of the memory is the number that the definitions give it.
pub fn memory_is_as_defined()
    // The processor's own places.
    ensures registers { REGISTERS ≡ register_count }
    ensures stack_pointer { (SPL ≡ spl) × (SPH ≡ sph) }
    ensures status { SREG ≡ sreg }
    ensures pointers { (POINTER_X ≡ pointer_x) × (POINTER_Y ≡ pointer_y) × (POINTER_Z ≡ pointer_z) }
    ensures ports { (SPL_PORT ≡ spl_port) × (SPH_PORT ≡ sph_port) × (SREG_PORT ≡ sreg_port)
        × (FIRST_PORT ≡ first_port) }
    ensures same_places { (SPL ≡ FIRST_PORT + SPL_PORT) × (SPH ≡ FIRST_PORT + SPH_PORT)
        × (SREG ≡ FIRST_PORT + SREG_PORT) }
    ensures ram { (RAM_START ≡ ram_start) × (RAM_END ≡ ram_end) × (RAM_BYTES ≡ ram_bytes) }

    // The division of the SRAM.
    ensures frame { (MESSAGE_FRAME ≡ message_frame) × (MESSAGE_FRAME_BYTES ≡ message_frame_bytes) }
    ensures kernel_bytes { (KERNEL_BYTES_START ≡ kernel_bytes_start) × (KERNEL_BYTES_END ≡ kernel_bytes_end) }
    ensures heap { (HEAP_START ≡ heap_start) × (HEAP_END ≡ heap_end) }
    ensures blocks { (BLOCKS ≡ block_count) × (BLOCK_BYTES ≡ block_bytes) }
    ensures red_zone { (RED_ZONE_START ≡ red_zone_start) × (RED_ZONE_END ≡ red_zone_end) }
    ensures stack { (STACK_START ≡ stack_start) × (STACK_TOP ≡ stack_top) × (FLOOR ≡ floor) }

    // The parts of the SRAM stand one after the other and fill it.
    ensures filled { (MESSAGE_FRAME ≡ RAM_START) × (MESSAGE_FRAME + MESSAGE_FRAME_BYTES ≡ KERNEL_BYTES_START)
        × (KERNEL_BYTES_END + 1 ≡ HEAP_START) × (HEAP_START + BLOCKS * BLOCK_BYTES ≡ RED_ZONE_START)
        × (HEAP_END + 1 ≡ RED_ZONE_START) × (RED_ZONE_END + 1 ≡ STACK_START) × (STACK_TOP ≡ RAM_END)
        × (RAM_START + RAM_BYTES ≡ RAM_END + 1) }

    // Domains, the kernel and the banks.
    ensures owners { (DOMAINS ≡ domain_count) × (KERNEL ≡ kernel) }
    ensures banks { (BANKS_START ≡ banks_start) × (BANK_WORDS ≡ bank_words) }
{}
