//! Where in a text a line stands.
ghost use Rattle.std.specs.Prelude.{◌≡◌, ◌==◌, ◌&&◌, nat_lt, nat_le};
ghost use Rattle.module_image.specs.Contents.{second_version};
ghost use Rattle.mote_layout.specs.Limits.{provided_limit, subscribed_limit};
ghost use Rattle.avr_asm.specs.Rows.{allowed, at_step, behind, is_at, is_between, kept, rank, with_provided, with_subscribed, with_version};
ghost use Rattle.avr_asm.specs.Seen.{seen_option};

use crate::row::Said;
use module_image::SECOND_VERSION;
use mote_layout::{PROVIDED, SUBSCRIBED};

/// What came last of the lines of the head, or that the head is over.
#[derive(Clone, Copy)]
pub enum Step {
    Opening,
    Named,
    Versioned,
    Sized,
    Handled,
    Closed,
    Providing,
    Subscribing,
    Constants,
    Body,
}

/// What came before a line.
#[derive(Clone, Copy)]
pub struct Stage {
    pub step: Step,
    /// The version, or 0 where it is yet to come.
    pub version: u8,
    /// How many functions are provided.
    pub provided: u8,
    /// The least id of the next function that is provided.
    pub least: u16,
    /// How many functions are subscribed to.
    pub subscribed: u8,
}

/// How many functions a module provides, and subscribes to.
const PROVIDED_LIMIT: u8 = PROVIDED as u8;

const SUBSCRIBED_LIMIT: u8 = SUBSCRIBED as u8;

/// Before the first line.
pub const START: Stage = Stage {
    step: Step::Opening,
    version: 0,
    provided: 0,
    least: 0,
    subscribed: 0,
};

fn rank(step: Step) -> u8
    ensures { result ≡ rank step }
{
    match step {
        Step::Opening => 0,
        Step::Named => 1,
        Step::Versioned => 2,
        Step::Sized => 3,
        Step::Handled => 4,
        Step::Closed => 5,
        Step::Providing => 6,
        Step::Subscribing => 7,
        Step::Constants => 8,
        Step::Body => 9,
    }
}

fn is_at(wanted: Step, step: Step) -> bool
    ensures { result ≡ is_at wanted step }
{
    rank(step) == rank(wanted)
}

fn is_between(last: Step, step: Step) -> bool
    ensures { result ≡ is_between last step }
{
    4 <= rank(step) && rank(step) <= rank(last)
}

fn allowed(holds: bool, stage: Stage) -> Option<Stage>
    ensures { result ≡ allowed holds stage }
{
    if holds { Some(stage) } else { None }
}

/// On to a step, if the line is in its place.
fn onward(holds: bool, step: Step, stage: Stage) -> Option<Stage>
    ensures { result ≡ allowed holds (at_step step stage) }
{
    if holds {
        Some(Stage { step, ..stage })
    } else {
        None
    }
}

fn versioned(stage: Stage, version: u8) -> Option<Stage>
    ensures { result ≡ allowed (is_at Step.Named stage.step) (with_version version stage) }
{
    let step = Step::Versioned;
    allowed(
        is_at(Step::Named, stage.step),
        Stage {
            step,
            version,
            ..stage
        },
    )
}

fn is_second(stage: Stage) -> bool
    ensures { result ≡ (stage.version == second_version) }
{
    stage.version == SECOND_VERSION
}

/// What comes behind the line where it is in its place.
pub fn behind(stage: Stage, says: &Option<Said<'_>>) -> Option<Stage>
    ensures { result ≡ behind stage (seen_option says.now) }
{
    let at = stage.step;
    let late = is_between(Step::Subscribing, at) && is_second(stage);
    match says {
        None => None,
        Some(Said::Module(_)) => onward(is_at(Step::Opening, at), Step::Named, stage),
        Some(Said::Version(version)) => versioned(stage, *version),
        Some(Said::State(_)) => onward(is_at(Step::Versioned, at), Step::Sized, stage),
        Some(Said::Handler(_)) => onward(is_at(Step::Sized, at), Step::Handled, stage),
        Some(Said::Sealed) => onward(
            is_at(Step::Handled, at) && is_second(stage),
            Step::Closed,
            stage,
        ),
        Some(Said::Provides { func, .. }) => provides(stage, *func),
        Some(Said::Subscribes { .. }) => subscribes(stage),
        Some(Said::Const(_)) => onward(late, Step::Constants, stage),
        Some(Said::Code) => onward(is_between(Step::Constants, at), Step::Body, stage),
        Some(Said::Label(_)) => allowed(is_at(Step::Body, at), stage),
        Some(Said::Item(_, _)) => allowed(is_at(Step::Body, at), stage),
    }
}

fn provides(stage: Stage, func: u8) -> Option<Stage>
    ensures { result ≡ allowed (is_between Step.Providing stage.step
        && (nat_lt stage.provided provided_limit && nat_le stage.least func)) (with_provided func stage) }
{
    if is_between(Step::Providing, stage.step)
        && (stage.provided < PROVIDED_LIMIT && stage.least <= u16::from(func))
    {
        Some(Stage {
            step: Step::Providing,
            provided: stage.provided + 1,
            least: u16::from(func) + 1,
            ..stage
        })
    } else {
        None
    }
}

fn subscribes(stage: Stage) -> Option<Stage>
    ensures { result ≡ allowed (is_between Step.Subscribing stage.step && nat_lt stage.subscribed subscribed_limit) (with_subscribed stage) }
{
    if is_between(Step::Subscribing, stage.step) && stage.subscribed < SUBSCRIBED_LIMIT {
        Some(Stage {
            step: Step::Subscribing,
            subscribed: stage.subscribed + 1,
            ..stage
        })
    } else {
        None
    }
}

/// A line that is out of its place changes nothing.
pub fn kept(stage: Stage, next: Option<Stage>) -> Stage
    ensures { result ≡ kept stage next }
{
    match next {
        None => stage,
        Some(next) => next,
    }
}
