//! The fields of an image, each from the line that has it.
ghost use Rattle.std.specs.Prelude.{◌≡◌, ◌≤◌, ◌<◌, ◌^◌, IfOk, true, length, map};
ghost use Rattle.mote_layout.specs.Limits.{provided_limit, subscribed_limit};
ghost use Rattle.avr_asm.specs.Assembly.{constants_of, handler_of, id_of, pairs_of, provided_of, size_of, subscribed_of, version_of, word_of};
ghost use Rattle.avr_asm.specs.Encoding.{AreLow};
ghost use Rattle.avr_asm.specs.Text.{are_pairs, pair_bytes};
ghost use Rattle.avr_asm.specs.Seen.{row_seen};

use crate::judge::{place_of, resolved};
use crate::row::{Row, Said};
use crate::words::hex_value;
use arrayvec::ArrayVec;
use module_image::{Provided, Subscribed};
use mote_layout::{PROVIDED, SUBSCRIBED};
use std::alloc::{AllocError, Global};

pub fn id_of(rows: &[Row<'_>]) -> u8
    ensures { result ≡ id_of (map row_seen rows.now) }
{
    for row in rows {
        if let Some(Said::Module(id)) = row.says {
            return id;
        }
    }
    0
}

pub fn version_of(rows: &[Row<'_>]) -> u8
    ensures { result ≡ version_of (map row_seen rows.now) }
{
    for row in rows {
        if let Some(Said::Version(version)) = row.says {
            return version;
        }
    }
    0
}

pub fn size_of(rows: &[Row<'_>]) -> u16
    ensures { result ≡ size_of (map row_seen rows.now) }
{
    for row in rows {
        if let Some(Said::State(size)) = row.says {
            return size;
        }
    }
    0
}

pub fn handler_of<'a>(rows: &[Row<'a>]) -> &'a [u8]
    ensures { result.now ≡ handler_of (map row_seen rows.now) }
{
    for row in rows {
        if let Some(Said::Handler(goal)) = row.says {
            return goal;
        }
    }
    &[]
}

/// The bytes of pairs of digits.
fn pair_bytes(alloc: Global, pairs: &[u8]) -> Result<Vec<u8>, AllocError>
    requires { are_pairs pairs.now ≡ true }
    ensures { IfOk result (λ bytes. bytes.items ≡ pair_bytes pairs.now) }
{
    let mut bytes = Vec::new(alloc);
    let mut rest = pairs;
    while let [high, low, behind @ ..] = rest {
        bytes.push(16 * hex_value(*high) + hex_value(*low))?;
        rest = behind;
    }
    Ok(bytes)
}

/// The pairs of digits of the constants.
fn pairs_of<'a>(rows: &[Row<'a>]) -> &'a [u8]
    ensures { result.now ≡ pairs_of (map row_seen rows.now) }
{
    for row in rows {
        if let Some(Said::Const(pairs)) = row.says {
            return pairs;
        }
    }
    &[]
}

pub fn constants_of(alloc: Global, rows: &[Row<'_>]) -> Result<Vec<u8>, AllocError>
    requires { are_pairs (pairs_of (map row_seen rows.now)) ≡ true }
    ensures { IfOk result (λ bytes. bytes.items ≡ constants_of (map row_seen rows.now)) }
{
    pair_bytes(alloc, pairs_of(rows))
}

/// The first word of the unit that a goal names.
pub fn word_of(rows: &[Row<'_>], goal: &[u8]) -> u16
    requires { word_of (map row_seen rows.now) goal.now < 2 ^ 16 }
    ensures { result ≡ word_of (map row_seen rows.now) goal.now }
{
    let number = resolved(rows, goal).unwrap_or(0);
    place_of(rows, number) as u16
}

pub fn provided_of(rows: &[Row<'_>]) -> ArrayVec<Provided, PROVIDED>
    requires few { length (provided_of (map row_seen rows.now) (map row_seen rows.now)) ≤ provided_limit }
    requires low { AreLow (provided_of (map row_seen rows.now) (map row_seen rows.now)) }
    ensures { result.items ≡ provided_of (map row_seen rows.now) (map row_seen rows.now) }
{
    let mut provided = ArrayVec::new();
    for row in rows {
        if let Some(Said::Provides { func, proto, goal }) = row.says {
            let word = word_of(rows, goal);
            provided.push(Provided { func, proto, word });
        }
    }
    provided
}

pub fn subscribed_of(rows: &[Row<'_>]) -> ArrayVec<Subscribed, SUBSCRIBED>
    requires { length (subscribed_of (map row_seen rows.now)) ≤ subscribed_limit }
    ensures { result.items ≡ subscribed_of (map row_seen rows.now) }
{
    let mut subscribed = ArrayVec::new();
    for row in rows {
        if let Some(
            Said::Subscribes {
                provider,
                func,
                proto,
            },
        ) = row.says
        {
            subscribed.push(Subscribed {
                module: provider,
                func,
                proto,
            });
        }
    }
    subscribed
}
