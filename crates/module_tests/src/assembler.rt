//! Texts of modules: the images of some, the refusals of others, and the texts of images.

use avr_asm::{assemble, source};
use module_image::parse;
use std::alloc::Global;
use std::test::Fail;

/// Module 1 says a byte.
const SAYS: &[u8] = b"module 1\nversion 1\nstate 0\nhandler .0\ncode\nldi r24,65\nkcall 8\nret\n";

const SAYS_IMAGE: &[u8] =
    b"SOSM\x01\x01\x00\x00\x00\x00\x00\x00\x00\x04\x00\x81\xE4\x0E\x94\x08\xF1\x08\x95";

/// The lines before the first unit of a text of either version.
const FIRST: &[u8] = b"module 1\nversion 1\nstate 0\nhandler .0\ncode\n";

const SECOND: &[u8] = b"module 1\nversion 2\nstate 0\nhandler .0\n";

/// The kind and the line of the refusal, if the text is refused.
fn refusal(alloc: Global, text: &[u8]) -> Option<(u8, u64)> {
    let error = assemble(alloc, text).err()?;
    Some((error.number(), error.line()))
}

/// The refusal of lines behind those of a text's head.
fn refusal_behind(alloc: Global, head: &[u8], lines: &[u8]) -> Result<Option<(u8, u64)>, Fail> {
    let mut text = head.to_vec(alloc)?;
    text.extend_from_slice(lines)?;
    Ok(refusal(alloc, &text))
}

/// The canonical text of a text, by way of its image.
fn canonical(alloc: Global, text: &[u8]) -> Result<Vec<u8>, Fail> {
    let file = assemble(alloc, text)?;
    let image = parse(&file)?;
    Ok(source(alloc, &image)?)
}

#[test]
fn a_text_is_assembled(rt: HostRuntime) -> Result<(), Fail> {
    let image = assemble(rt.alloc(), SAYS)?;
    assert_eq!(rt; image.as_slice(), SAYS_IMAGE);
    let again = source(rt.alloc(), &parse(SAYS_IMAGE)?)?;
    assert_eq!(rt; again.as_slice(), SAYS);
    Ok(())
}

#[test]
fn labels_are_units(rt: HostRuntime) -> Result<(), Fail> {
    let text =
        b"# counts down\nmodule 1\n\nversion 1\nstate 0\nhandler .start\ncode\nrjmp .start\nstart:\nldi r16,10\nagain:\ndec r16\nbrbc 1,.again\nret\n";
    let image = assemble(rt.alloc(), text)?;
    let words = b"\x00\xC0\x0A\xE0\x0A\x95\xF1\xF7\x08\x95";
    assert_eq!(rt; &image[15..], words.as_slice());
    assert_eq!(rt; image[9], 1);
    let again = source(rt.alloc(), &parse(&image)?)?;
    let expected =
        b"module 1\nversion 1\nstate 0\nhandler .1\ncode\nrjmp .1\nldi r16,10\ndec r16\nbrbc 1,.2\nret\n";
    assert_eq!(rt; again.as_slice(), expected.as_slice());
    Ok(())
}

#[test]
fn every_line_of_the_head(rt: HostRuntime) -> Result<(), Fail> {
    let text =
        b"module 254\nversion 2\nstate 65535\nhandler .1\nsealed\nprovides 0 a:#, .0\nprovides 255 !~!~ .1\nsubscribes 1 255 vvv0\nconst 00ff4a\ncode\nlds r0,0x01ff\nret\n";
    let image = assemble(rt.alloc(), text)?;
    let expected =
        b"SOSM\x02\xFE\x02\xFF\xFF\x02\x00\x02\x01\x03\x00\x03\x00\x00a:#,\x00\x00\xFF!~!~\x02\x00\x01\xFFvvv0\x00\x90\xFF\x01\x08\x95\x00\xFFJ";
    assert_eq!(rt; image.as_slice(), expected.as_slice());
    let again = source(rt.alloc(), &parse(&image)?)?;
    assert_eq!(rt; again.as_slice(), text.as_slice());
    Ok(())
}

#[test]
fn every_instruction(rt: HostRuntime) -> Result<(), Fail> {
    let mut text = FIRST.to_vec(rt.alloc())?;
    text.extend_from_slice(
        b"nop\nmovw r30,r0\nmuls r16,r31\nmulsu r16,r23\nfmul r16,r23\nfmuls r16,r23\nfmulsu r16,r23\ncpc r0,r31\nsbc r0,r31\nadd r0,r31\ncpse r0,r31\ncp r0,r31\nsub r0,r31\nadc r0,r31\nand r0,r31\neor r0,r31\nor r0,r31\nmov r0,r31\n",
    )?;
    text.extend_from_slice(
        b"cpi r16,255\nsbci r16,255\nsubi r16,255\nori r16,255\nandi r16,255\nldd r31,z+63\nldd r31,y+0\nstd z+0,r31\nstd y+63,r31\nlds r31,0xffff\nld r0,z+\nld r0,-z\nld r0,y+\nld r0,-y\nld r0,x\nld r0,x+\nld r0,-x\nsts 0x0100,r0\n",
    )?;
    text.extend_from_slice(
        b"st z+,r0\nst -z,r0\nst y+,r0\nst -y,r0\nst x,r0\nst x+,r0\nst -x,r0\ncom r1\nneg r1\nswap r1\ninc r1\nasr r1\nlsr r1\nror r1\ndec r1\nbset 7\nbclr 0\nadiw r24,63\nsbiw r30,0\nmul r0,r31\nin r0,63\nout 63,r0\nldi r31,0\nbld r0,7\nbst r0,7\nsbrc r0,7\nsbrs r0,7\n",
    )?;
    text.extend_from_slice(
        b"push r31\npop r31\nsetsps\nsetsp\nreserve\nbrbs 7,.67\nbrbc 0,.75\nrcall .0\nkcall 11\nscall 15\nicall\nret\nrjmp .0\n",
    )?;
    let again = canonical(rt.alloc(), &text)?;
    assert_eq!(rt; again.as_slice(), text.as_slice());
    Ok(())
}

#[test]
fn lines_out_of_the_table(rt: HostRuntime) -> Result<(), Fail> {
    let rows: [(&[u8], Option<(u8, u64)>); 18] = [
        (b"ret\n", None),
        (b"ret", Some((1, 6))),
        (b"ret\n# no end", Some((1, 7))),
        (b"", Some((1, 6))),
        (b"ldi r15,1\nret\n", Some((1, 6))),
        (b"lds r0,256\nret\n", Some((1, 6))),
        (b"ldi r16,01\nret\n", Some((1, 6))),
        (b"ldi r16,256\nret\n", Some((1, 6))),
        (b"ld r1,y\nret\n", Some((1, 6))),
        (b"ld r26,x+\nret\n", Some((1, 6))),
        (b"in r0,61\nret\n", None),
        (b"in r0,60\nret\n", Some((1, 6))),
        (b"kcall 12\nret\n", Some((1, 6))),
        (b"scall 16\nret\n", Some((1, 6))),
        (b"ret \n", Some((1, 6))),
        (b"a234567890123456:\nret\n", None),
        (b"a2345678901234567:\nret\n", Some((1, 6))),
        (b"handler .0\nret\n", Some((1, 6))),
    ];
    for (lines, expected) in &rows {
        let found = refusal_behind(rt.alloc(), FIRST, lines)?;
        assert_eq!(rt; found, *expected);
    }
    assert_eq!(rt; refusal(rt.alloc(), b""), Some((1, 1)));
    Ok(())
}

#[test]
fn labels_targets_and_ends(rt: HostRuntime) -> Result<(), Fail> {
    let rows: [(&[u8], Option<(u8, u64)>); 16] = [
        (b"a:\nret\na:\nret\n", Some((2, 8))),
        (b"ret\na:\n", Some((2, 7))),
        (b"rjmp .a\nret\n", Some((2, 6))),
        (b"rjmp .a\na:\nret\n", None),
        (b"rjmp .9\nret\n", Some((3, 6))),
        (b"rjmp .99999999999999999999999\nret\n", Some((3, 6))),
        (b"rjmp .1_\nret\n", Some((1, 6))),
        (b"rcall .1\nret\n", Some((3, 6))),
        (b"rcall .0\nret\n", None),
        (b"nop\nsbrs r0,0\nret\n", Some((4, 7))),
        (b"sbrs r0,0\nsetsp\nret\n", Some((4, 6))),
        (b"sbrs r0,0\nnop\nret\n", None),
        (b"ldi r24,65\nkcall 8\n", Some((4, 7))),
        (b"rjmp .9\na:\n", Some((2, 7))),
        (b"rjmp .9\nnop\n", Some((3, 6))),
        (b"rjmp .9\nldi r15,1\n", Some((1, 7))),
    ];
    for (lines, expected) in &rows {
        let found = refusal_behind(rt.alloc(), FIRST, lines)?;
        assert_eq!(rt; found, *expected);
    }
    Ok(())
}

/// So many lines `nop` behind a text.
fn add_nops(text: &mut Vec<u8>, count: u32) -> Result<(), Fail> {
    for _ in 0..count {
        text.extend_from_slice(b"nop\n")?;
    }
    Ok(())
}

#[test]
fn branches_reach_so_far(rt: HostRuntime) -> Result<(), Fail> {
    for (first, count, last, expected) in [
        (b"brbs 0,.64\n".as_slice(), 63, b"ret\n".as_slice(), None),
        (
            b"brbs 0,.65\n".as_slice(),
            64,
            b"ret\n".as_slice(),
            Some((3, 6)),
        ),
        (b"".as_slice(), 63, b"brbs 0,.0\nret\n".as_slice(), None),
        (
            b"".as_slice(),
            64,
            b"brbs 0,.0\nret\n".as_slice(),
            Some((3, 70)),
        ),
    ] {
        let mut text = FIRST.to_vec(rt.alloc())?;
        text.extend_from_slice(first)?;
        add_nops(&mut text, count)?;
        text.extend_from_slice(last)?;
        assert_eq!(rt; refusal(rt.alloc(), &text), expected);
    }
    Ok(())
}

#[test]
fn a_bank_is_filled(rt: HostRuntime) -> Result<(), Fail> {
    for (count, expected) in [(2046, None), (2047, Some((4, 2053)))] {
        let mut text = FIRST.to_vec(rt.alloc())?;
        add_nops(&mut text, count)?;
        text.extend_from_slice(b"ret\n")?;
        assert_eq!(rt; refusal(rt.alloc(), &text), expected);
    }
    Ok(())
}

#[test]
fn the_head_has_its_order(rt: HostRuntime) -> Result<(), Fail> {
    let rows: [(&[u8], Option<(u8, u64)>); 9] = [
        (b"sealed\nconst 00\ncode\nret\n", None),
        (b"const 00\nsealed\ncode\nret\n", Some((1, 6))),
        (b"const 0\ncode\nret\n", Some((1, 5))),
        (b"const 0F\ncode\nret\n", Some((1, 5))),
        (
            b"provides 1 abcd .0\nprovides 1 abcd .0\ncode\nret\n",
            Some((1, 6)),
        ),
        (b"provides 1 abc .0\ncode\nret\n", Some((1, 5))),
        (b"subscribes 0 1 abcd\ncode\nret\n", Some((1, 5))),
        (b"provides 1 abcd .1\ncode\nret\n", Some((3, 5))),
        (b"code\nret\ncode\n", Some((1, 7))),
    ];
    for (lines, expected) in &rows {
        let found = refusal_behind(rt.alloc(), SECOND, lines)?;
        assert_eq!(rt; found, *expected);
    }
    let first = b"module 1\nversion 1\nstate 0\nhandler .0\n";
    assert_eq!(rt;
        refusal_behind(rt.alloc(), first, b"sealed\ncode\nret\n")?,
        Some((1, 5))
    );
    assert_eq!(rt;
        refusal_behind(rt.alloc(), first, b"const 00\ncode\nret\n")?,
        Some((1, 5))
    );
    Ok(())
}

#[test]
fn sixteen_functions_are_provided(rt: HostRuntime) -> Result<(), Fail> {
    let mut text = SECOND.to_vec(rt.alloc())?;
    for func in b'0'..=b'9' {
        text.extend_from_slice(b"provides 2")?;
        text.push(func)?;
        text.extend_from_slice(b" abcd .0\n")?;
    }
    for func in b'0'..=b'5' {
        text.extend_from_slice(b"provides 3")?;
        text.push(func)?;
        text.extend_from_slice(b" abcd .0\n")?;
    }
    assert_eq!(rt; refusal_behind(rt.alloc(), &text, b"code\nret\n")?, None);
    assert_eq!(rt;
        refusal_behind(rt.alloc(), &text, b"provides 40 abcd .0\ncode\nret\n")?,
        Some((1, 21))
    );
    Ok(())
}

#[test]
fn a_rewritten_image_has_no_source(rt: HostRuntime) -> Result<(), Fail> {
    let mut file = SAYS_IMAGE.to_vec(rt.alloc())?;
    file[6] = 1;
    assert!(rt; source(rt.alloc(), &parse(&file)?) == Err(avr_asm::SourceError::Rewritten));
    Ok(())
}
