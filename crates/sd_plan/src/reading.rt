//! How a plan's text is read.

ghost use Rattle.std.specs.Prelude.{◌≡◌, ◌↔◌, false, List, IfOk, IsErrOf, IsTrue};
ghost use Rattle.sd_plan.specs.declared.line.PlanLine.{PlanLine};
ghost use Rattle.sd_plan.specs.Plan.{IsTextOf, IsNoPlan};
ghost use Rattle.sd_plan.specs.Reading.{Finds, IsLineText};

use crate::escaping::read_path;
use crate::fields::{cut, cut_fields, read_count, read_digest, read_mark};
use crate::writing::{FIRST_LINE, report_line};
use crate::{Digest, Plan, PlanFault, PlanLine};
use sd_base::NoMemory;
use std::alloc::Global;

/// The plan of a text. Answers `NotAPlan` exactly where the text is the text of no plan. Want of memory may come at any text.
pub fn read_plan(alloc: Global, text: &[u8]) -> Result<Plan, PlanFault>
    ensures plan { IfOk result (λ plan. IsTextOf text.now plan) }
    ensures only { (lines : List PlanLine) → IsTextOf text.now lines → IfOk result (λ plan. plan ≡ lines) }
    ensures refused { IsErrOf result PlanFault.NotAPlan → IsNoPlan text.now }
{
    let Some(mut rest) = text.strip_prefix(FIRST_LINE) else {
        return Err(PlanFault::NotAPlan);
    };
    let mut plan = Plan::new(alloc);
    loop {
        let Some((line, after)) = cut(rest, b'\n') else {
            return Err(PlanFault::NotAPlan);
        };
        if after.is_empty() {
            break;
        }
        let Some(line) = read_line(alloc, line)? else {
            return Err(PlanFault::NotAPlan);
        };
        if line.replaced > u128::MAX - plan.replaced() {
            return Err(PlanFault::NotAPlan);
        }
        plan.push(line)?;
        rest = after;
    }
    if report_line(alloc, &plan)?.as_slice() == rest {
        Ok(plan)
    } else {
        Err(PlanFault::NotAPlan)
    }
}

/// The line of a text without its newline. `None` exactly where there is none.
fn read_line(alloc: Global, text: &[u8]) -> Result<Option<PlanLine>, NoMemory>
    ensures { IfOk result (Finds (IsLineText text.now)) }
{
    let Some(fields) = cut_fields(text) else {
        return Ok(None);
    };
    let Some(before) = read_digest(fields.before) else {
        return Ok(None);
    };
    let Some(after) = read_digest(fields.after) else {
        return Ok(None);
    };
    let Some(changed) = read_mark(fields.mark) else {
        return Ok(None);
    };
    let Some(replaced) = read_count(fields.count) else {
        return Ok(None);
    };
    let Some(path) = read_path(alloc, fields.path)? else {
        return Ok(None);
    };
    if path.as_str().is_empty() {
        return Ok(None);
    }
    if !may_stand(changed, &before, &after) {
        return Ok(None);
    }
    Ok(Some(PlanLine {
        before,
        after,
        changed,
        replaced,
        path,
    }))
}

/// Whether the digests of a line may stand beside its mark: they are the same where nothing changes.
fn may_stand(changed: bool, before: &Digest, after: &Digest) -> bool
    ensures { IsTrue result ↔ (changed ≡ false → before.now ≡ after.now) }
{
    changed || before == after
}
