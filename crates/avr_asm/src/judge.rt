//! Why a text is not assembled: each condition by its least line.
ghost use Rattle.std.specs.Prelude.{◌≡◌, ◌≤◌, ◌<◌, ◌+◌, ◌^◌, ℕ, None, Some, drop, length, map, IfSome};
ghost use Rattle.avr_asm.specs.Refusals.{cannot_end, cannot_skip, can_be_skipped, count, first, goal_of, has_unit, is_beyond, is_far, is_given_before, is_labelled, is_mislabelled, is_misplaced, is_off, is_sealed, kinds_in, labelled, miscoded, refused, lacks_label, leads_astray, led, line_in, mislabelled, misled, misplaced, place_in, resolved, row_of, seals, some_goal, stuck, unit_of};
ghost use Rattle.avr_asm.specs.Rows.{unit_after};
ghost use Rattle.avr_asm.specs.Seen.{row_option, row_seen, seen_option};

use crate::error::AsmError;
use crate::row::{Row, Said};
use crate::stage::behind;
use crate::units::stuck_in;
use crate::words::{is_number, value};
use unit_code::Unit;

/// The least line that says nothing or is out of its place.
pub fn misplaced(rows: &[Row<'_>]) -> Option<u64>
    ensures { result ≡ misplaced (map row_seen rows.now) }
{
    for row in rows {
        if behind(row.stage, &row.says).is_none() {
            return Some(row.line);
        }
    }
    None
}

fn units(says: &Option<Said<'_>>) -> u64
    ensures one { result ≤ 1 }
    ensures units { result ≡ unit_after 0 (seen_option says.now) }
{
    match says {
        Some(Said::Item(_, _)) => 1,
        _ => 0,
    }
}

/// How many units there are.
#[tactic(auto, using(crate::proofs::Counted::more))]
pub fn count(rows: &[Row<'_>]) -> u64
    ensures count { result ≡ count (map row_seen rows.now) }
    ensures bound { result ≤ length rows.now }
{
    let mut total = 0;
    for row in rows {
        total += units(&row.says);
    }
    total
}

fn is_labelled(name: &[u8], says: &Option<Said<'_>>) -> bool
    ensures { result ≡ is_labelled name.now (seen_option says.now) }
{
    match says {
        Some(Said::Label(other)) => name == *other,
        _ => false,
    }
}

/// The first row with that label.
pub fn labelled<'a>(name: &[u8], rows: &[Row<'a>]) -> Option<Row<'a>>
    ensures { row_option result ≡ labelled name.now (map row_seen rows.now) }
{
    for row in rows {
        if is_labelled(name, &row.says) {
            return Some(*row);
        }
    }
    None
}

/// The unit that a goal names.
pub fn resolved(rows: &[Row<'_>], goal: &[u8]) -> Option<u64>
    ensures { result ≡ resolved (map row_seen rows.now) goal.now }
{
    if is_number(goal) {
        return Some(value(goal));
    }
    match labelled(goal, rows) {
        Some(row) => Some(row.unit),
        None => None,
    }
}

/// The unit that a goal names, if there is a goal.
pub fn led(rows: &[Row<'_>], goal: &[u8]) -> Option<u64>
    ensures { result ≡ led (map row_seen rows.now) (some_goal goal.now) }
{
    if goal.is_empty() {
        None
    } else {
        resolved(rows, goal)
    }
}

/// What stands behind the dot of a line's target, or nothing.
fn goal_of<'a>(says: &Option<Said<'a>>) -> &'a [u8]
    ensures { some_goal result.now ≡ goal_of (seen_option says.now) }
{
    match says {
        Some(Said::Handler(goal)) => goal,
        Some(Said::Provides { goal, .. }) => goal,
        Some(Said::Item(_, goal)) => goal,
        _ => &[],
    }
}

fn is_given_before(line: u64, row: Option<Row<'_>>) -> bool
    ensures { result ≡ is_given_before line (row_option row.entry) }
{
    match row {
        Some(row) => row.line < line,
        None => false,
    }
}

fn lacks_label(rows: &[Row<'_>], goal: &[u8]) -> bool
    ensures { result ≡ lacks_label (map row_seen rows.now) (some_goal goal.now) }
{
    !goal.is_empty() && resolved(rows, goal).is_none()
}

fn is_mislabelled(rows: &[Row<'_>], total: u64, row: &Row<'_>) -> bool
    ensures { result ≡ is_mislabelled (map row_seen rows.now) total row.now.line row.now.unit (seen_option row.now.says) }
{
    match &row.says {
        Some(Said::Label(name)) => total <= row.unit
            || is_given_before(row.line, labelled(name, rows)),
        _ => lacks_label(rows, goal_of(&row.says)),
    }
}

/// The least line with a label that can't be, or without its label.
pub fn mislabelled(rows: &[Row<'_>], total: u64) -> Option<u64>
    requires { total ≡ count (map row_seen rows.now) }
    ensures { result ≡ mislabelled (map row_seen rows.now) }
{
    for row in rows {
        if is_mislabelled(rows, total, row) {
            return Some(row.line);
        }
    }
    None
}

fn has_unit(says: &Option<Said<'_>>) -> bool
    ensures { result ≡ has_unit (seen_option says.now) }
{
    match says {
        Some(Said::Item(_, _)) => true,
        _ => false,
    }
}

/// The row of the unit with that number.
pub fn row_of<'a>(rows: &[Row<'a>], unit: u64) -> Option<Row<'a>>
    ensures { row_option result ≡ row_of (map row_seen rows.now) unit }
{
    for row in rows {
        if row.unit == unit && has_unit(&row.says) {
            return Some(*row);
        }
    }
    None
}

/// The first word of the unit with that number.
pub fn place_of(rows: &[Row<'_>], unit: u64) -> u64
    ensures { result ≡ place_in (row_of (map row_seen rows.now) unit) }
{
    match row_of(rows, unit) {
        Some(row) => row.place,
        None => 0,
    }
}

/// The line of the unit with that number.
fn line_of(rows: &[Row<'_>], unit: u64) -> u64
    ensures { result ≡ line_in (row_of (map row_seen rows.now) unit) }
{
    match row_of(rows, unit) {
        Some(row) => row.line,
        None => 0,
    }
}

fn is_far(from: u64, to: u64) -> bool
    ensures { result ≡ is_far from to }
{
    let (from, to) = (u128::from(from), u128::from(to));
    to + 64 < from + 1 || from + 64 < to
}

fn is_beyond(rows: &[Row<'_>], row: &Row<'_>, target: u64) -> bool
    ensures { result ≡ is_beyond (map row_seen rows.now) row.now.unit row.now.place target (seen_option row.now.says) }
{
    match &row.says {
        Some(Said::Item(Unit::Branch { .. }, _)) => is_far(row.place, place_of(rows, target)),
        Some(Said::Item(Unit::LocalCall(_), _)) => row.unit.checked_add(1) == Some(target),
        _ => false,
    }
}

fn leads_astray(rows: &[Row<'_>], total: u64, row: &Row<'_>) -> bool
    ensures { result ≡ leads_astray (map row_seen rows.now) total (row_seen row.now) (goal_of (seen_option row.now.says)) }
{
    let goal = goal_of(&row.says);
    if goal.is_empty() {
        return false;
    }
    match resolved(rows, goal) {
        None => false,
        Some(target) => total <= target || is_beyond(rows, row, target),
    }
}

/// The least line with a target that is no unit or out of reach.
pub fn misled(rows: &[Row<'_>], total: u64) -> Option<u64>
    requires { total ≡ count (map row_seen rows.now) }
    ensures { result ≡ misled (map row_seen rows.now) }
{
    for row in rows {
        if leads_astray(rows, total, row) {
            return Some(row.line);
        }
    }
    None
}

fn seals(says: &Option<Said<'_>>) -> bool
    ensures { result ≡ seals (seen_option says.now) }
{
    match says {
        Some(Said::Sealed) => true,
        _ => false,
    }
}

/// Whether a line seals the text.
pub fn is_sealed(rows: &[Row<'_>]) -> bool
    ensures { result ≡ is_sealed (map row_seen rows.now) }
{
    for row in rows {
        if seals(&row.says) {
            return true;
        }
    }
    false
}

fn miscoded(rows: &[Row<'_>], kinds: &[Unit]) -> Option<u64>
    requires { kinds.now ≡ kinds_in (is_sealed (map row_seen rows.now)) (map row_seen rows.now) }
    ensures { result ≡ miscoded (map row_seen rows.now) }
{
    match stuck_in(kinds) {
        Some(unit) => Some(line_of(rows, unit)),
        None => None,
    }
}

/// Why a text with these rows, which ends before line `end`, is not assembled. Its units without their targets are given.
#[tactic(auto, unfolding(crate::specs::Refusals::refused))]
pub fn refused(rows: &[Row<'_>], end: u64, kinds: &[Unit]) -> Option<AsmError>
    requires { kinds.now ≡ kinds_in (is_sealed (map row_seen rows.now)) (map row_seen rows.now) }
    ensures { result ≡ refused end (map row_seen rows.now) }
{
    let total = count(rows);
    if let Some(line) = misplaced(rows) {
        return Some(AsmError::Line(line));
    }
    if total == 0 {
        return Some(AsmError::Line(end));
    }
    if let Some(line) = mislabelled(rows, total) {
        return Some(AsmError::Label(line));
    }
    if let Some(line) = misled(rows, total) {
        return Some(AsmError::Target(line));
    }
    if let Some(line) = miscoded(rows, kinds) {
        return Some(AsmError::Code(line));
    }
    None
}
