//! One case at least for each rule of the manual, with values worked out by hand from it.
use avr_alu::{Logic, Mul, One, add8, logic8, mul8, one8, sub8, with_bit, word_add, word_sub};

/// A call with its operands, but for SREG.
#[derive(Clone, Copy, Debug)]
enum Call {
    Add(u8, u8, bool),
    Sub(u8, u8, bool, bool),
    Logic(Logic, u8, u8),
    One(One, u8),
    Mul(Mul, u8, u8),
    WordAdd(u16, u8),
    WordSub(u16, u8),
    SregBit(bool),
}

/// The result, and SREG after the call. `SregBit` puts bit 6 of SREG, T, and has no result.
fn answer(call: Call, sreg: u8) -> (u16, u8) {
    let (byte, after) = match call {
        Call::Add(a, b, carry) => add8(a, b, carry, sreg),
        Call::Sub(a, b, carry, keep_z) => sub8(a, b, carry, keep_z, sreg),
        Call::Logic(op, a, b) => logic8(op, a, b, sreg),
        Call::One(op, a) => one8(op, a, sreg),
        Call::Mul(op, a, b) => return mul8(op, a, b, sreg),
        Call::WordAdd(a, k) => return word_add(a, k, sreg),
        Call::WordSub(a, k) => return word_sub(a, k, sreg),
        Call::SregBit(on) => (0, with_bit(sreg, 6, on)),
    };
    (u16::from(byte), after)
}

// Flags of SREG, by name.
const C: u8 = 0x01;

const Z: u8 = 0x02;

const N: u8 = 0x04;

const V: u8 = 0x08;

const S: u8 = 0x10;

const H: u8 = 0x20;

const T: u8 = 0x40;

const I: u8 = 0x80;

/// The call, SREG before it, the result, and SREG after it.
const ROWS: [(Call, u8, u16, u8); 44] = [
    // ADD and ADC
    (Call::Add(0x7F, 0x01, false), 0, 0x80, N | V | H),
    (
        Call::Add(0x80, 0x80, false),
        0xFF,
        0x00,
        C | Z | V | S | T | I,
    ),
    (Call::Add(0xFF, 0x00, true), T | I, 0x00, C | Z | H | T | I),
    (Call::Add(0x08, 0x08, false), C, 0x10, H),
    // SUB, SUBI, CP and CPI
    (Call::Sub(5, 5, false, false), 0, 0, Z),
    (Call::Sub(0x80, 0x01, false, false), 0, 0x7F, V | S | H),
    (Call::Sub(0x00, 0x01, false, false), Z, 0xFF, C | N | S | H),
    // SBC, SBCI and CPC
    (Call::Sub(5, 5, false, true), 0, 0, 0),
    (Call::Sub(0x00, 0xFF, true, true), Z, 0x00, C | Z | H),
    (Call::Sub(0x10, 0x01, true, true), Z, 0x0E, H),
    // NEG
    (Call::One(One::Neg, 0x00), C | H, 0x00, Z),
    (Call::One(One::Neg, 0x01), 0, 0xFF, C | N | S | H),
    (Call::One(One::Neg, 0x80), 0, 0x80, C | N | V),
    // AND, OR and EOR
    (
        Call::Logic(Logic::And, 0xF0, 0x0F),
        0xFF,
        0x00,
        C | Z | H | T | I,
    ),
    (Call::Logic(Logic::Or, 0x80, 0x01), 0, 0x81, N | S),
    (
        Call::Logic(Logic::Eor, 0xFF, 0x0F),
        C | Z | V | H,
        0xF0,
        C | N | S | H,
    ),
    // COM
    (Call::One(One::Com, 0x55), V, 0xAA, C | N | S),
    (Call::One(One::Com, 0xFF), H, 0x00, C | Z | H),
    // INC and DEC
    (Call::One(One::Inc, 0x7F), C | H, 0x80, C | N | V | H),
    (Call::One(One::Inc, 0xFF), 0, 0x00, Z),
    (Call::One(One::Dec, 0x80), C, 0x7F, C | V | S),
    (Call::One(One::Dec, 0x00), 0, 0xFF, N | S),
    // LSR, ROR and ASR
    (Call::One(One::Lsr, 0x01), 0, 0x00, C | Z | V | S),
    (Call::One(One::Ror, 0x02), C, 0x81, N | V),
    (Call::One(One::Ror, 0x03), 0, 0x01, C | V | S),
    (Call::One(One::Asr, 0x81), 0, 0xC0, C | N | S),
    // SWAP
    (Call::One(One::Swap, 0xA5), 0xFF, 0x5A, 0xFF),
    // ADIW
    (Call::WordAdd(0xFFFF, 1), H, 0x0000, C | Z | H),
    (Call::WordAdd(0x7FFF, 1), 0, 0x8000, N | V),
    (Call::WordAdd(0x8000, 63), 0, 0x803F, N | S),
    // SBIW
    (Call::WordSub(0x0000, 1), 0, 0xFFFF, C | N | S),
    (Call::WordSub(0x8000, 1), 0, 0x7FFF, V | S),
    // MUL, MULS and MULSU
    (Call::Mul(Mul::U, 0xFF, 0xFF), Z, 0xFE01, C),
    (Call::Mul(Mul::U, 0x00, 0x05), C | N, 0x0000, Z | N),
    (Call::Mul(Mul::S, 0xFF, 0x01), 0, 0xFFFF, C),
    (Call::Mul(Mul::SU, 0xFF, 0xFF), 0, 0xFF01, C),
    (Call::Mul(Mul::SU, 0x01, 0xFF), 0, 0x00FF, 0),
    // FMUL, FMULS and FMULSU
    (Call::Mul(Mul::FU, 0x80, 0x80), 0, 0x8000, 0),
    (Call::Mul(Mul::FU, 0xFF, 0xFF), 0, 0xFC02, C),
    (Call::Mul(Mul::FS, 0x80, 0x80), 0, 0x8000, 0),
    (Call::Mul(Mul::FSU, 0xFF, 0x01), 0, 0xFFFE, C),
    (Call::Mul(Mul::FSU, 0x80, 0x00), 0, 0x0000, Z),
    // BSET, BCLR and BST
    (Call::SregBit(true), C, 0, C | T),
    (Call::SregBit(false), 0xFF, 0, 0xFF - T),
];

#[test]
fn each_rule(rt: HostRuntime) {
    for (call, sreg, value, after) in ROWS {
        assert_eq!(rt;
            answer(call, sreg),
            (value, after),
            "{call:?} at {sreg:#04x}"
        );
    }
}
