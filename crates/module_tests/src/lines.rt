//! Lines worked out by hand from the rules of the listing.

ghost use Rattle.std.specs.List.{AllByRecursion};
ghost use Rattle.unit_code.specs.Proper.{IsOfKind};

use Unit::{
    Branch, Jump, KernelCall, Load, LocalCall, Plain, Pop, Push, Reserve, Return, Skip, SlotCall,
    SlotIndirect, SpGroup, Store,
};
use avr_isa::Instr;
use avr_list::list_line;
use mote_base::Line;
use std::process::Abort;
use unit_code::Unit;

/// Each unit, with its number and its place, has this line.
#[tactic(auto, using(crate::proofs::Rows::at_place))]
fn check_rows(rt: &impl Abort, rows: &[(u16, u16, Unit, &str)])
    requires { AllByRecursion (λ row. IsOfKind row.2) rows.now }
{
    for (number, place, unit, text) in rows {
        let mut line = Line::new();
        list_line(*number, *place, unit, &mut line);
        assert_eq!(rt; line.as_slice(), text.as_bytes(), "of {text}");
    }
}

#[test]
#[tactic(auto, unfolding(unit_code::specs::Kinds::standing_of, avr_isa::specs::Operands::IsEncodable))]
fn whole_modules(rt: HostRuntime) {
    let say = [
        (0, 0x0000, Plain(Instr::Ldi(24, 65)), "0 0000 ldi r24,65\n"),
        (1, 0x0001, KernelCall(8), "1 0001 kcall 8\n"),
        (2, 0x0003, Return, "2 0003 ret\n"),
    ];
    let store = [
        (0, 0x0000, Skip(Instr::Sbrs(16, 0)), "0 0000 sbrs r16,0\n"),
        (1, 0x0001, Store(Instr::StX(17)), "1 0001 st x,r17\n"),
        (2, 0x0002, Return, "2 0002 ret\n"),
    ];
    check_rows(&rt, &say);
    check_rows(&rt, &store);
}

#[test]
#[tactic(auto, unfolding(unit_code::specs::Kinds::standing_of, avr_isa::specs::Operands::IsEncodable))]
fn kinds_of_units(rt: HostRuntime) {
    let on = Branch {
        set: true,
        bit: 1,
        target: 7,
    };
    let off = Branch {
        set: false,
        bit: 7,
        target: 0,
    };
    let rows = [
        (3, 0x000C, on, "3 000c brbs 1,.7\n"),
        (4, 0x00AD, off, "4 00ad brbc 7,.0\n"),
        (5, 0x0BEF, Jump(12), "5 0bef rjmp .12\n"),
        (16, 0x07FF, LocalCall(2047), "16 07ff rcall .2047\n"),
        (17, 0x0010, SlotCall(15), "17 0010 scall 15\n"),
        (18, 0x0012, SlotIndirect, "18 0012 icall\n"),
        (19, 0x0013, Reserve, "19 0013 reserve\n"),
        (20, 0x0014, SpGroup { with_sreg: true }, "20 0014 setsps\n"),
        (21, 0x0017, SpGroup { with_sreg: false }, "21 0017 setsp\n"),
        (22, 0x0019, Push(0), "22 0019 push r0\n"),
        (23, 0x001A, Pop(31), "23 001a pop r31\n"),
        (
            24,
            0x001B,
            Skip(Instr::Cpse(2, 31)),
            "24 001b cpse r2,r31\n",
        ),
        (65535, 0xFFFF, Return, "65535 ffff ret\n"),
    ];
    check_rows(&rt, &rows);
}

#[test]
#[tactic(auto, unfolding(unit_code::specs::Kinds::standing_of, avr_isa::specs::Operands::IsEncodable))]
fn operands_of_plain_instructions(rt: HostRuntime) {
    let rows = [
        (9, 7, Plain(Instr::Nop), "9 0007 nop\n"),
        (9, 7, Plain(Instr::Movw(24, 30)), "9 0007 movw r24,r30\n"),
        (9, 7, Plain(Instr::Add(0, 31)), "9 0007 add r0,r31\n"),
        (9, 7, Plain(Instr::Cpi(16, 255)), "9 0007 cpi r16,255\n"),
        (9, 7, Plain(Instr::Adiw(26, 8)), "9 0007 adiw r26,8\n"),
        (9, 7, Plain(Instr::Com(5)), "9 0007 com r5\n"),
        (9, 7, Plain(Instr::Bset(7)), "9 0007 bset 7\n"),
        (9, 7, Plain(Instr::Bclr(0)), "9 0007 bclr 0\n"),
        (9, 7, Plain(Instr::Bld(18, 3)), "9 0007 bld r18,3\n"),
        (9, 7, Plain(Instr::In(28, 61)), "9 0007 in r28,61\n"),
        (9, 7, Plain(Instr::Out(0, 63)), "9 0007 out 63,r0\n"),
    ];
    check_rows(&rt, &rows);
}

#[test]
#[tactic(auto, unfolding(unit_code::specs::Loads::is_load, unit_code::specs::Kinds::standing_of, avr_isa::specs::Operands::IsEncodable))]
fn loads_and_stores(rt: HostRuntime) {
    let rows = [
        (9, 7, Plain(Instr::LdX(4)), "9 0007 ld r4,x\n"),
        (9, 7, Plain(Instr::LdXInc(4)), "9 0007 ld r4,x+\n"),
        (9, 7, Plain(Instr::LdXDec(4)), "9 0007 ld r4,-x\n"),
        (9, 7, Plain(Instr::LdYInc(4)), "9 0007 ld r4,y+\n"),
        (9, 7, Plain(Instr::LdYDec(4)), "9 0007 ld r4,-y\n"),
        (9, 7, Plain(Instr::LdZInc(4)), "9 0007 ld r4,z+\n"),
        (9, 7, Plain(Instr::LdZDec(4)), "9 0007 ld r4,-z\n"),
        (9, 7, Plain(Instr::LddY(4, 0)), "9 0007 ldd r4,y+0\n"),
        (9, 7, Plain(Instr::LddZ(4, 63)), "9 0007 ldd r4,z+63\n"),
        (9, 7, Plain(Instr::Lds(4, 0x0100)), "9 0007 lds r4,0x0100\n"),
        (9, 7, Load(Instr::LdX(4)), "9 0007 ld r4,x\n"),
        (9, 7, Load(Instr::LddZ(4, 63)), "9 0007 ldd r4,z+63\n"),
        (9, 7, Load(Instr::Lds(4, 0x0100)), "9 0007 lds r4,0x0100\n"),
        (9, 7, Store(Instr::StX(5)), "9 0007 st x,r5\n"),
        (9, 7, Store(Instr::StXInc(5)), "9 0007 st x+,r5\n"),
        (9, 7, Store(Instr::StXDec(5)), "9 0007 st -x,r5\n"),
        (9, 7, Store(Instr::StYInc(5)), "9 0007 st y+,r5\n"),
        (9, 7, Store(Instr::StYDec(5)), "9 0007 st -y,r5\n"),
        (9, 7, Store(Instr::StZInc(5)), "9 0007 st z+,r5\n"),
        (9, 7, Store(Instr::StZDec(5)), "9 0007 st -z,r5\n"),
        (9, 7, Store(Instr::StdY(5, 3)), "9 0007 std y+3,r5\n"),
        (9, 7, Store(Instr::StdZ(5, 0)), "9 0007 std z+0,r5\n"),
        (9, 7, Store(Instr::Sts(5, 0x00AF)), "9 0007 sts 0x00af,r5\n"),
    ];
    check_rows(&rt, &rows);
}
