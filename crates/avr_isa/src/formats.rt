//! Words of the formats that several instructions share, of an opcode and its operands.

ghost use Rattle.std.specs.Prelude.{◌≡◌, ◌+◌, ◌*◌, ◌/◌, ◌%◌, ◌^◌, ◌<◌, ◌≤◌};
ghost use Rattle.avr_isa.specs.Operands.{IsBit, IsBranchOffset, IsByte, IsJumpOffset, IsLowPort, IsRegister, IsSixBits, IsUpper, IsUpperPair};
ghost use Rattle.avr_isa.specs.Pattern.{signed};

/// `oooo oord dddd rrrr`
pub(crate) fn two_registers(opcode: u8, d: u8, r: u8) -> u16
    requires opcode { opcode < 2 ^ 6 }
    requires d { IsRegister d }
    requires r { IsRegister r }
    ensures opcode { result / 2 ^ 10 % 2 ^ 6 ≡ opcode }
    ensures d { d ≡ result / 2 ^ 4 % 2 ^ 5 }
    ensures r { r ≡ 16 * (result / 2 ^ 9 % 2 ^ 1) + result / 2 ^ 0 % 2 ^ 4 }
{
    u16::from(opcode) * 0x400 + u16::from(r) / 16 * 0x200 + u16::from(d) * 0x10 + u16::from(r) % 16
}

/// `oooo oooo dddd rrrr`
pub(crate) fn two_halves(opcode: u8, d: u8, r: u8) -> u16
    requires opcode { opcode < 2 ^ 8 }
    requires d { d < 16 }
    requires r { r < 16 }
    ensures opcode { result / 2 ^ 8 % 2 ^ 8 ≡ opcode }
    ensures d { d ≡ result / 2 ^ 4 % 2 ^ 4 }
    ensures r { r ≡ result / 2 ^ 0 % 2 ^ 4 }
{
    u16::from(opcode) * 0x100 + u16::from(d) * 0x10 + u16::from(r)
}

/// `oooo KKKK dddd KKKK`
pub(crate) fn register_and_constant(opcode: u8, d: u8, constant: u8) -> u16
    requires opcode { opcode < 2 ^ 4 }
    requires d { IsUpper d }
    ensures opcode { result / 2 ^ 12 % 2 ^ 4 ≡ opcode }
    ensures d { d ≡ 16 + result / 2 ^ 4 % 2 ^ 4 }
    ensures constant { constant ≡ 16 * (result / 2 ^ 8 % 2 ^ 4) + result / 2 ^ 0 % 2 ^ 4 }
{
    u16::from(opcode) * 0x1000
        + u16::from(constant) / 16 * 0x100
        + (u16::from(d) - 16) * 0x10
        + u16::from(constant) % 16
}

/// `oooo oooo KKdd KKKK`
pub(crate) fn pair_and_constant(opcode: u8, d: u8, constant: u8) -> u16
    requires opcode { opcode < 2 ^ 8 }
    requires d { IsUpperPair d }
    requires constant { IsSixBits constant }
    ensures opcode { result / 2 ^ 8 % 2 ^ 8 ≡ opcode }
    ensures d { d ≡ 24 + 2 * (result / 2 ^ 4 % 2 ^ 2) }
    ensures constant { constant ≡ 16 * (result / 2 ^ 6 % 2 ^ 2) + result / 2 ^ 0 % 2 ^ 4 }
{
    let pair = (u16::from(d) - 24) / 2;
    u16::from(opcode) * 0x100
        + u16::from(constant) / 16 * 0x40
        + pair * 0x10
        + u16::from(constant) % 16
}

/// `10q0 qqsr rrrr yqqq`, where s says that it stores and y that the pointer is Y.
pub(crate) fn with_displacement(stores: u16, by_y: u16, register: u8, displacement: u8) -> u16
    requires stores { stores < 2 }
    requires by_y { by_y < 2 }
    requires register { IsRegister register }
    requires displacement { IsSixBits displacement }
    ensures top { result / 2 ^ 14 % 2 ^ 2 ≡ 2 }
    ensures even { result / 2 ^ 12 % 2 ^ 1 ≡ 0 }
    ensures stores { result / 2 ^ 9 % 2 ^ 1 ≡ stores }
    ensures by_y { result / 2 ^ 3 % 2 ^ 1 ≡ by_y }
    ensures register { register ≡ result / 2 ^ 4 % 2 ^ 5 }
    ensures displacement { displacement
        ≡ 32 * (result / 2 ^ 13 % 2 ^ 1) + 8 * (result / 2 ^ 10 % 2 ^ 2) + result / 2 ^ 0 % 2 ^ 3 }
{
    let q = u16::from(displacement);
    let scattered = q / 32 * 0x2000 + q / 8 % 4 * 0x400 + q % 8;
    0x8000 + scattered + stores * 0x200 + u16::from(register) * 0x10 + by_y * 8
}

/// `oooo ooor rrrr llll`
pub(crate) fn one_register(opcode: u8, register: u8, low: u8) -> u16
    requires opcode { opcode < 2 ^ 7 }
    requires register { IsRegister register }
    requires low { low < 16 }
    ensures opcode { result / 2 ^ 9 % 2 ^ 7 ≡ opcode }
    ensures register { register ≡ result / 2 ^ 4 % 2 ^ 5 }
    ensures low { result / 2 ^ 0 % 2 ^ 4 ≡ low }
{
    u16::from(opcode) * 0x200 + u16::from(register) * 0x10 + u16::from(low)
}

/// `1001 010k kkkk jjjk`
pub(crate) fn far_jump(kind: u16, high: u16) -> u16
    requires kind { kind < 8 }
    requires high { high < 64 }
    ensures top { result / 2 ^ 9 % 2 ^ 7 ≡ 74 }
    ensures kind { result / 2 ^ 1 % 2 ^ 3 ≡ kind }
    ensures high { high ≡ 2 * (result / 2 ^ 4 % 2 ^ 5) + result / 2 ^ 0 % 2 ^ 1 }
{
    0x9400 + high / 2 * 0x10 + kind * 2 + high % 2
}

/// `oooo oooo AAAA Abbb`
pub(crate) fn port_bit(opcode: u8, port: u8, bit: u8) -> u16
    requires opcode { opcode < 2 ^ 8 }
    requires port { IsLowPort port }
    requires bit { IsBit bit }
    ensures opcode { result / 2 ^ 8 % 2 ^ 8 ≡ opcode }
    ensures port { port ≡ result / 2 ^ 3 % 2 ^ 5 }
    ensures bit { bit ≡ result / 2 ^ 0 % 2 ^ 3 }
{
    u16::from(opcode) * 0x100 + u16::from(port) * 8 + u16::from(bit)
}

/// `oooo oAAr rrrr AAAA`
pub(crate) fn register_and_port(opcode: u8, register: u8, port: u8) -> u16
    requires opcode { opcode < 2 ^ 5 }
    requires register { IsRegister register }
    requires port { IsSixBits port }
    ensures opcode { result / 2 ^ 11 % 2 ^ 5 ≡ opcode }
    ensures register { register ≡ result / 2 ^ 4 % 2 ^ 5 }
    ensures port { port ≡ 16 * (result / 2 ^ 9 % 2 ^ 2) + result / 2 ^ 0 % 2 ^ 4 }
{
    u16::from(opcode) * 0x800
        + u16::from(port) / 16 * 0x200
        + u16::from(register) * 0x10
        + u16::from(port) % 16
}

/// `oooo ooor rrrr 0bbb`
pub(crate) fn register_bit(opcode: u8, register: u8, bit: u8) -> u16
    requires opcode { opcode < 2 ^ 7 }
    requires register { IsRegister register }
    requires bit { IsBit bit }
    ensures opcode { result / 2 ^ 9 % 2 ^ 7 ≡ opcode }
    ensures register { register ≡ result / 2 ^ 4 % 2 ^ 5 }
    ensures bit { bit ≡ result / 2 ^ 0 % 2 ^ 3 }
    ensures zero { result / 2 ^ 3 % 2 ^ 1 ≡ 0 }
{
    u16::from(opcode) * 0x200 + u16::from(register) * 0x10 + u16::from(bit)
}

/// `oooo kkkk kkkk kkkk`
pub(crate) fn relative_jump(opcode: u8, offset: i16) -> u16
    requires opcode { opcode < 2 ^ 4 }
    requires offset { IsJumpOffset offset }
    ensures opcode { result / 2 ^ 12 % 2 ^ 4 ≡ opcode }
    ensures offset { offset ≡ signed 12 (result / 2 ^ 0 % 2 ^ 12) }
{
    let wrapped = if offset < 0 { offset + 4096 } else { offset };
    u16::from(opcode) * 0x1000 + wrapped as u16
}

/// `oooo ookk kkkk ksss`
pub(crate) fn branch(opcode: u8, bit: u8, offset: i8) -> u16
    requires opcode { opcode < 2 ^ 6 }
    requires bit { IsBit bit }
    requires offset { IsBranchOffset offset }
    ensures opcode { result / 2 ^ 10 % 2 ^ 6 ≡ opcode }
    ensures bit { bit ≡ result / 2 ^ 0 % 2 ^ 3 }
    ensures offset { offset ≡ signed 7 (result / 2 ^ 3 % 2 ^ 7) }
{
    let wrapped = if offset < 0 {
        i16::from(offset) + 128
    } else {
        i16::from(offset)
    };
    u16::from(opcode) * 0x400 + wrapped as u16 * 8 + u16::from(bit)
}
