//! Words of each instruction and their operands, worked out by hand from the instruction set manual.

ghost use Rattle.std.specs.List.{AllByRecursion};
ghost use Rattle.avr_isa.specs.Operands.{IsEncodable};

use avr_isa::{DecodeError, Instr, decode, encode};
use std::process::Abort;

/// Decodes the words of each row to its instruction, and encodes that to the words again. Words have one instruction
/// at most, so the instructions are the same where their words are.
#[tactic(auto, using(crate::proofs::Rows::at_place))]
fn check_rows(rt: &impl Abort, rows: &[(u16, Option<u16>, Instr)])
    requires { AllByRecursion (λ row. IsEncodable row.2) rows.now }
{
    for (first, second, expected) in rows {
        let (found, count) = decode(*first, *second).expect(rt, "an instruction");
        assert!(rt; encode(expected) == (*first, *second), "at {first:#06x}");
        assert_eq!(rt;
            count,
            if second.is_some() { 2 } else { 1 },
            "at {first:#06x}"
        );
        assert!(rt; encode(&found) == (*first, *second), "at {first:#06x}");
    }
}

#[test]
#[tactic(auto, unfolding(avr_isa::specs::Operands::IsEncodable))]
fn registers_and_constants(rt: HostRuntime) {
    let rows = [
        (0x0000, None, Instr::Nop),
        (0x01CF, None, Instr::Movw(24, 30)),
        (0x020F, None, Instr::Muls(16, 31)),
        (0x0370, None, Instr::Mulsu(23, 16)),
        (0x030F, None, Instr::Fmul(16, 23)),
        (0x0392, None, Instr::Fmuls(17, 18)),
        (0x03ED, None, Instr::Fmulsu(22, 21)),
        (0x0611, None, Instr::Cpc(1, 17)),
        (0x09F0, None, Instr::Sbc(31, 0)),
        (0x0C12, None, Instr::Add(1, 2)),
        (0x1300, None, Instr::Cpse(16, 16)),
        (0x162E, None, Instr::Cp(2, 30)),
        (0x1B88, None, Instr::Sub(24, 24)),
        (0x1D13, None, Instr::Adc(17, 3)),
        (0x2055, None, Instr::And(5, 5)),
        (0x2411, None, Instr::Eor(1, 1)),
        (0x2A89, None, Instr::Or(8, 25)),
        (0x2FE8, None, Instr::Mov(30, 24)),
        (0x9E54, None, Instr::Mul(5, 20)),
        (0x308A, None, Instr::Cpi(24, 10)),
        (0x4F9F, None, Instr::Sbci(25, 255)),
        (0x51C4, None, Instr::Subi(28, 20)),
        (0x6800, None, Instr::Ori(16, 128)),
        (0x70FF, None, Instr::Andi(31, 15)),
        (0xE08A, None, Instr::Ldi(24, 10)),
        (0x9618, None, Instr::Adiw(26, 8)),
        (0x9764, None, Instr::Sbiw(28, 20)),
    ];
    check_rows(&rt, &rows);
}

#[test]
#[tactic(auto, unfolding(avr_isa::specs::Operands::IsEncodable))]
fn loads_and_stores(rt: HostRuntime) {
    let rows = [
        (0x8185, None, Instr::LddZ(24, 5)),
        (0x8009, None, Instr::LddY(0, 1)),
        (0x8620, None, Instr::StdZ(2, 8)),
        (0xA319, None, Instr::StdY(17, 33)),
        (0x9120, Some(0x0100), Instr::Lds(18, 0x0100)),
        (0x9181, None, Instr::LdZInc(24)),
        (0x9192, None, Instr::LdZDec(25)),
        (0x9184, None, Instr::LpmZ(24)),
        (0x9185, None, Instr::LpmZInc(24)),
        (0x9076, None, Instr::ElpmZ(7)),
        (0x9077, None, Instr::ElpmZInc(7)),
        (0x91F9, None, Instr::LdYInc(31)),
        (0x900A, None, Instr::LdYDec(0)),
        (0x90CC, None, Instr::LdX(12)),
        (0x912D, None, Instr::LdXInc(18)),
        (0x913E, None, Instr::LdXDec(19)),
        (0x91DF, None, Instr::Pop(29)),
        (0x9380, Some(0x0200), Instr::Sts(24, 0x0200)),
        (0x9211, None, Instr::StZInc(1)),
        (0x9302, None, Instr::StZDec(16)),
        (0x93C9, None, Instr::StYInc(28)),
        (0x923A, None, Instr::StYDec(3)),
        (0x930C, None, Instr::StX(16)),
        (0x920D, None, Instr::StXInc(0)),
        (0x930E, None, Instr::StXDec(16)),
        (0x93CF, None, Instr::Push(28)),
    ];
    check_rows(&rt, &rows);
}

#[test]
#[tactic(auto, unfolding(avr_isa::specs::Operands::IsEncodable))]
fn one_register_and_control(rt: HostRuntime) {
    let rows = [
        (0x9500, None, Instr::Com(16)),
        (0x9511, None, Instr::Neg(17)),
        (0x9522, None, Instr::Swap(18)),
        (0x9403, None, Instr::Inc(0)),
        (0x95F5, None, Instr::Asr(31)),
        (0x9586, None, Instr::Lsr(24)),
        (0x9587, None, Instr::Ror(24)),
        (0x950A, None, Instr::Dec(16)),
        (0x9478, None, Instr::Bset(7)),
        (0x94F8, None, Instr::Bclr(7)),
        (0x9409, None, Instr::Ijmp),
        (0x9509, None, Instr::Icall),
        (0x9508, None, Instr::Ret),
        (0x9518, None, Instr::Reti),
        (0x9588, None, Instr::Sleep),
        (0x9598, None, Instr::Break),
        (0x95A8, None, Instr::Wdr),
        (0x95C8, None, Instr::LpmR0),
        (0x95D8, None, Instr::ElpmR0),
        (0x95E8, None, Instr::Spm),
        (0x940C, Some(0x0046), Instr::Jmp(0x46)),
        (0x940E, Some(0xF108), Instr::Call(0xF108)),
    ];
    check_rows(&rt, &rows);
}

#[test]
#[tactic(auto, unfolding(avr_isa::specs::Operands::IsEncodable))]
fn ports_jumps_and_bits(rt: HostRuntime) {
    let rows = [
        (0x98C0, None, Instr::Cbi(0x18, 0)),
        (0x9987, None, Instr::Sbic(0x10, 7)),
        (0x9A2D, None, Instr::Sbi(0x05, 5)),
        (0x9BF9, None, Instr::Sbis(0x1F, 1)),
        (0xB7CD, None, Instr::In(28, 0x3D)),
        (0xBFDE, None, Instr::Out(29, 0x3E)),
        (0xCFFF, None, Instr::Rjmp(-1)),
        (0xD000, None, Instr::Rcall(0)),
        (0xF009, None, Instr::Brbs(1, 1)),
        (0xF7F1, None, Instr::Brbc(1, -2)),
        (0xF913, None, Instr::Bld(17, 3)),
        (0xFB17, None, Instr::Bst(17, 7)),
        (0xFD00, None, Instr::Sbrc(16, 0)),
        (0xFF00, None, Instr::Sbrs(16, 0)),
    ];
    check_rows(&rt, &rows);
}

#[test]
#[tactic(auto, unfolding(avr_isa::specs::Operands::IsEncodable))]
fn ends_of_the_ranges(rt: HostRuntime) {
    let rows = [
        (0xF200, None, Instr::Brbs(0, -64)),
        (0xF1F8, None, Instr::Brbs(0, 63)),
        (0xC800, None, Instr::Rjmp(-2048)),
        (0xC7FF, None, Instr::Rjmp(2047)),
        (0x950C, Some(0x0001), Instr::Jmp(0x20_0001)),
        (0x95FF, Some(0xFFFF), Instr::Call(0x3F_FFFF)),
        (0xADF7, None, Instr::LddZ(31, 63)),
        (0x95F3, None, Instr::Inc(31)),
        (0xEFFF, None, Instr::Ldi(31, 255)),
        (0x96FF, None, Instr::Adiw(30, 63)),
    ];
    check_rows(&rt, &rows);
}

#[test]
fn refusals(rt: HostRuntime) {
    // Exchange and its kin, DES, SPM Z+, EIJMP and EICALL belong to other parts.
    for word in [
        0x0001, 0x9204, 0x9205, 0x9206, 0x9207, 0x940B, 0x95F8, 0x9419, 0x9519, 0xF808,
    ] {
        for second in [None, Some(0)] {
            let refused = decode(word, second).err();
            assert!(rt;
                refused == Some(DecodeError::Undefined(word)),
                "at {word:#06x}"
            );
        }
    }
    for word in [0x9000, 0x9200, 0x940C, 0x940E] {
        assert!(rt;
            decode(word, None).err() == Some(DecodeError::NeedsSecond),
            "at {word:#06x}"
        );
        assert!(rt; decode(word, Some(0)).is_ok(), "at {word:#06x}");
    }
}
