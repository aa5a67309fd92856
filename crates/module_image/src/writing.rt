//! Writing an image.
ghost use Rattle.std.specs.Prelude.{◌≡◌, ◌<◌, ◌≤◌, ◌^◌, ◌%◌, ◌/◌, ◌==◌, ◌++◌, [], false, length, OnOk, IfOk};
ghost use Rattle.std.specs.List.{flat_map};
ghost use Rattle.module_image.specs.Contents.{FaceRules, constants_limit, first_version, second_version};
ghost use Rattle.module_image.specs.Reading.{flags_limit};
ghost use Rattle.module_image.specs.Spelling.{Image, constant_count, counts, fields, flags, opening, provided_entry, settings, subscribed_entry, word};

use crate::parts::{FIRST_VERSION, SECOND_VERSION};
use crate::{Face, Provided, Subscribed};
use byteorder::{ByteOrder, LittleEndian};
use mote_base::NoMemory;
use std::alloc::Global;

/// The file of these contents, in the first version of the format.
pub fn write_image(
    alloc: Global,
    face: &Face,
    rewritten: bool,
    state_size: u16,
    handler: u16,
    code: &[u16],
) -> Result<Vec<u8>, NoMemory>
    requires face { FaceRules face.now }
    requires code { length code.now < 2 ^ 16 }
    ensures image { IfOk result (λ v. Image v.items (record {
      face = face.now;
      version = first_version;
      rewritten = rewritten;
      sealed = false;
      state_size = state_size;
      handler = handler;
      code = code.now;
      constants = [];
    })) }
{
    let flags = plain_flags(rewritten);
    write(
        alloc,
        FIRST_VERSION,
        flags,
        face,
        state_size,
        handler,
        code,
        &[],
    )
}

/// The file of these contents, in the second version of the format. Bit 0 of the flags says that the code is rewritten,
/// bit 1 that the image is sealed.
pub fn write_image2(
    alloc: Global,
    face: &Face,
    flags: u8,
    state_size: u16,
    handler: u16,
    code: &[u16],
    constants: &[u8],
) -> Result<Vec<u8>, NoMemory>
    requires face { FaceRules face.now }
    requires flags { flags ≤ flags_limit second_version }
    requires code { length code.now < 2 ^ 16 }
    requires constants { length constants.now ≤ constants_limit }
    ensures image { IfOk result (λ v. Image v.items (record {
      face = face.now;
      version = second_version;
      rewritten = flags % 2 == 1;
      sealed = flags / 2 == 1;
      state_size = state_size;
      handler = handler;
      code = code.now;
      constants = constants.now;
    })) }
{
    write(
        alloc,
        SECOND_VERSION,
        flags,
        face,
        state_size,
        handler,
        code,
        constants,
    )
}

/// The flags of an image that isn't sealed.
fn plain_flags(rewritten: bool) -> u8
    ensures { result ≡ flags rewritten false }
{
    if rewritten { 1 } else { 0 }
}

/// The fields in their order.
fn write(
    alloc: Global,
    version: u8,
    flags: u8,
    face: &Face,
    state_size: u16,
    handler: u16,
    code: &[u16],
    constants: &[u8],
) -> Result<Vec<u8>, NoMemory>
    requires face { FaceRules face.now }
    requires code { length code.now < 2 ^ 16 }
    requires constants { length constants.now ≤ constants_limit }
    ensures { IfOk result (λ v. v.items ≡ fields version flags face.now state_size handler code.now constants.now) }
{
    let mut file = Vec::new(alloc);
    put_opening(&mut file, version)?;
    put_settings(&mut file, face.id, flags, state_size, handler)?;
    put_counts(
        &mut file,
        face.provided.len() as u8,
        face.subscribed.len() as u8,
        code.len() as u16,
    )?;
    put_constant_count(&mut file, version, constants.len() as u16)?;
    put_provided(&mut file, &face.provided)?;
    put_subscribed(&mut file, &face.subscribed)?;
    put_words(&mut file, code)?;
    file.extend_from_slice(constants)?;
    Ok(file)
}

fn put_opening(file: &mut Vec<u8>, version: u8) -> Result<(), NoMemory>
    ensures { OnOk result (file.new.items ≡ file.old.items ++ opening version) }
{
    file.extend_from_slice(&[b'S', b'O', b'S', b'M', version])?;
    Ok(())
}

fn put_settings(
    file: &mut Vec<u8>,
    id: u8,
    flags: u8,
    state_size: u16,
    handler: u16,
) -> Result<(), NoMemory>
    ensures { OnOk result (file.new.items ≡ file.old.items ++ settings id flags state_size handler) }
{
    file.extend_from_slice(&[id, flags])?;
    put_word(file, state_size)?;
    put_word(file, handler)
}

/// How many constant bytes follow, which only the second version says.
fn put_constant_count(file: &mut Vec<u8>, version: u8, count: u16) -> Result<(), NoMemory>
    ensures { OnOk result (file.new.items ≡ file.old.items ++ constant_count version count) }
{
    if version == FIRST_VERSION {
        Ok(())
    } else {
        put_word(file, count)
    }
}

fn put_counts(file: &mut Vec<u8>, provided: u8, subscribed: u8, words: u16) -> Result<(), NoMemory>
    ensures { OnOk result (file.new.items ≡ file.old.items ++ counts provided subscribed words) }
{
    file.extend_from_slice(&[provided, subscribed])?;
    put_word(file, words)
}

fn put_word(file: &mut Vec<u8>, n: u16) -> Result<(), NoMemory>
    ensures { OnOk result (file.new.items ≡ file.old.items ++ word n) }
{
    let mut bytes = [0; 2];
    LittleEndian::write_u16(&mut bytes, n);
    Ok(file.extend_from_slice(&bytes)?)
}

fn put_provided(file: &mut Vec<u8>, entries: &[Provided]) -> Result<(), NoMemory>
    ensures { OnOk result (file.new.items ≡ file.old.items ++ flat_map provided_entry entries.now) }
{
    for entry in entries {
        file.push(entry.func)?;
        file.extend_from_slice(&entry.proto)?;
        put_word(file, entry.word)?;
    }
    Ok(())
}

fn put_subscribed(file: &mut Vec<u8>, entries: &[Subscribed]) -> Result<(), NoMemory>
    ensures { OnOk result (file.new.items ≡ file.old.items ++ flat_map subscribed_entry entries.now) }
{
    for entry in entries {
        file.extend_from_slice(&[entry.module, entry.func])?;
        file.extend_from_slice(&entry.proto)?;
    }
    Ok(())
}

fn put_words(file: &mut Vec<u8>, words: &[u16]) -> Result<(), NoMemory>
    ensures { OnOk result (file.new.items ≡ file.old.items ++ flat_map word words.now) }
{
    for n in words {
        put_word(file, *n)?;
    }
    Ok(())
}
