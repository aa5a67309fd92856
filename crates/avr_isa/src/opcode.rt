//! The fixed bits of the instructions, which decoding and encoding share. Each number has as many digits as it has bits
//! in the word.

/// The top four bits of an instruction with a constant, and of a relative jump.
pub(crate) const CPI: u8 = 0b0011;

pub(crate) const SBCI: u8 = 0b0100;

pub(crate) const SUBI: u8 = 0b0101;

pub(crate) const ORI: u8 = 0b0110;

pub(crate) const ANDI: u8 = 0b0111;

pub(crate) const RJMP: u8 = 0b1100;

pub(crate) const RCALL: u8 = 0b1101;

pub(crate) const LDI: u8 = 0b1110;

/// The top five bits of IN and OUT.
pub(crate) const IN: u8 = 0b1_0110;

pub(crate) const OUT: u8 = 0b1_0111;

/// The top six bits of an instruction of two registers, and of a branch.
pub(crate) const CPC: u8 = 0b00_0001;

pub(crate) const SBC: u8 = 0b00_0010;

pub(crate) const ADD: u8 = 0b00_0011;

pub(crate) const CPSE: u8 = 0b00_0100;

pub(crate) const CP: u8 = 0b00_0101;

pub(crate) const SUB: u8 = 0b00_0110;

pub(crate) const ADC: u8 = 0b00_0111;

pub(crate) const AND: u8 = 0b00_1000;

pub(crate) const EOR: u8 = 0b00_1001;

pub(crate) const OR: u8 = 0b00_1010;

pub(crate) const MOV: u8 = 0b00_1011;

pub(crate) const MUL: u8 = 0b10_0111;

pub(crate) const BRBS: u8 = 0b11_1100;

pub(crate) const BRBC: u8 = 0b11_1101;

/// The top seven bits of loads, of stores, of what has one register, and of a bit of a register.
pub(crate) const LOAD: u8 = 0b100_1000;

pub(crate) const STORE: u8 = 0b100_1001;

pub(crate) const ONE_REGISTER: u8 = 0b100_1010;

pub(crate) const BLD: u8 = 0b111_1100;

pub(crate) const BST: u8 = 0b111_1101;

pub(crate) const SBRC: u8 = 0b111_1110;

pub(crate) const SBRS: u8 = 0b111_1111;

/// The top eight bits of an instruction of two pairs or two halves of the registers, of a pair and a constant, and of a
/// bit of a port.
pub(crate) const MOVW: u8 = 0b0000_0001;

pub(crate) const MULS: u8 = 0b0000_0010;

pub(crate) const MIDDLE_PRODUCT: u8 = 0b0000_0011;

pub(crate) const ADIW: u8 = 0b1001_0110;

pub(crate) const SBIW: u8 = 0b1001_0111;

pub(crate) const CBI: u8 = 0b1001_1000;

pub(crate) const SBIC: u8 = 0b1001_1001;

pub(crate) const SBI: u8 = 0b1001_1010;

pub(crate) const SBIS: u8 = 0b1001_1011;

/// The low four bits of a load or a store: its mode.
pub(crate) const FAR: u8 = 0b0000;

pub(crate) const Z_INC: u8 = 0b0001;

pub(crate) const Z_DEC: u8 = 0b0010;

pub(crate) const LPM_Z: u8 = 0b0100;

pub(crate) const LPM_Z_INC: u8 = 0b0101;

pub(crate) const ELPM_Z: u8 = 0b0110;

pub(crate) const ELPM_Z_INC: u8 = 0b0111;

pub(crate) const Y_INC: u8 = 0b1001;

pub(crate) const Y_DEC: u8 = 0b1010;

pub(crate) const X: u8 = 0b1100;

pub(crate) const X_INC: u8 = 0b1101;

pub(crate) const X_DEC: u8 = 0b1110;

pub(crate) const STACK: u8 = 0b1111;

/// The low four bits of an operation on one register.
pub(crate) const COM: u8 = 0b0000;

pub(crate) const NEG: u8 = 0b0001;

pub(crate) const SWAP: u8 = 0b0010;

pub(crate) const INC: u8 = 0b0011;

pub(crate) const ASR: u8 = 0b0101;

pub(crate) const LSR: u8 = 0b0110;

pub(crate) const ROR: u8 = 0b0111;

pub(crate) const CONTROL: u8 = 0b1000;

pub(crate) const INDIRECT: u8 = 0b1001;

pub(crate) const DEC: u8 = 0b1010;
