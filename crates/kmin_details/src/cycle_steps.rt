//! The steps of a cycle.
ghost use Rattle.std.specs.Prelude.{◌≡◌, ◌++◌, codes, map, IfOk, OnOk, string_bytes};
ghost use Rattle.kmin_details.specs.Texts.{cause_text, step_text, cycle_text};
ghost use Rattle.kmin_faults.specs.between.Steps.{step_of};

use kmin_faults::{Cause, Step};
use std::alloc::{AllocError, Global};

/// The words between the two names of a step.
fn text_of_cause(cause: Cause) -> &'static str
    ensures { result.now ≡ cause_text cause }
{
    match cause {
        Cause::DependsOn => "depends on",
        Cause::Prompt => "has a prompt by",
        Cause::Default => "has a default by",
        Cause::Range => "has a range by",
        Cause::Select => "is selected by",
        Cause::Imply => "is implied by",
        Cause::Member => "has a member's prompt by",
        Cause::Tristate => "is a tristate by",
    }
}

/// The text for a cycle: its steps.
pub fn cycle_text(alloc: Global, steps: &[Step<'_>]) -> Result<String, AllocError>
    ensures { IfOk result (λ text. string_bytes text ≡ cycle_text (map step_of steps.now)) }
{
    let mut text = String::new(alloc);
    let mut between = "";
    for step in steps {
        push_step(&mut text, between, step)?;
        between = ", ";
    }
    Ok(text)
}

/// Appends a step, after what comes between it and the one before.
fn push_step(text: &mut String, between: &str, step: &Step<'_>) -> Result<(), AllocError>
    ensures { OnOk result (string_bytes text.new ≡ string_bytes text.old ++ (between.now ++ step_text (step_of step.now))) }
{
    text.push_str(between)?;
    text.push_str(step.name)?;
    text.push_str(" ")?;
    text.push_str(text_of_cause(step.cause))?;
    text.push_str(" ")?;
    text.push_str(step.other)
}
