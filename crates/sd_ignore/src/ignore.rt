//! Rules of what is ignored, in their order.

ghost use Rattle.std.specs.Prelude.{◌≡◌, ◌++◌, [], ◌∷◌, ℕ, not, None, Some, IfOk, OnOk, IsErrOf, IsTrue};
ghost use Rattle.sd_ignore.specs.declared.fault.IgnoreFault.TheVariants as ignore_fault;
ghost use Rattle.sd_ignore.specs.Reading.{without_return, is_bad, bad_line, rules_of_lines, rules_of};
ghost use Rattle.sd_ignore.specs.Fitting.{names_of, RulesSay};

use crate::IgnoreFault;
use crate::rule::{Rule, is_passed_over, without_return};
use sd_base::NoMemory;
use std::alloc::Global;
use std::marker::Model;

/// Rules of what is ignored. Contracts see the list of them.
#[derive(Drop)]
pub struct Ignore {
    rules: Vec<Rule>,
}

impl Model for Ignore {
    ghost use Rattle.std.specs.Prelude.{List};
    ghost use Rattle.sd_ignore.specs.declared.rule.Rule.{Rule};

    ghost Value = { List Rule };

    ghost view = { λ ignore. ignore.rules.items };
}

impl Ignore {
    /// No rules, which say nothing of any node. Takes no memory.
    pub fn new(alloc: Global) -> Ignore
        ensures { result ≡ [] }
    {
        Ignore {
            rules: Vec::new(alloc),
        }
    }

    /// Reads the rules of a text.
    ///
    /// Refuses `BadRule` exactly where a line is bad, with the number of the first one, counted from 1, and else for want of
    /// memory.
    pub fn read(alloc: Global, text: &str) -> Result<Ignore, IgnoreFault>
        ensures rules { IfOk result (λ ignore. ignore ≡ rules_of text.now) }
        ensures good { OnOk result (bad_line text.now ≡ None) }
        ensures bad { (number : ℕ) → IsErrOf result (IgnoreFault.BadRule number) → bad_line text.now ≡ Some number }
    {
        let mut rules = Vec::new(alloc);
        let mut number = 0;
        for part in text.split('\n') {
            number += 1;
            if !add_line(alloc, without_return(part), &mut rules)? {
                return Err(IgnoreFault::BadRule(number));
            }
        }
        Ok(Ignore { rules })
    }

    /// What the rules say of what stands at this path from the root on, a directory or another node: whether the last rule that
    /// fits it ignores it, and nothing where none fits. The path's names are joined by `/`.
    ///
    /// Whether a directory above it is ignored plays no part. Refuses for want of memory alone.
    pub fn decides(
        &self,
        alloc: Global,
        path: &str,
        directory: bool,
    ) -> Result<Option<bool>, NoMemory>
        ensures { IfOk result (RulesSay self.now (names_of path.now) directory) }
    {
        for rule in self.rules.iter().rev() {
            if rule.fits(alloc, path, directory)? {
                return Ok(Some(rule.ignores));
            }
        }
        Ok(None)
    }
}

/// Adds the rule of a line, unless it is passed over. Answers `false` where the line is bad.
fn add_line(alloc: Global, line: &str, rules: &mut Vec<Rule>) -> Result<bool, NoMemory>
    ensures good { IfOk result (λ good. good ≡ not (is_bad line.now)) }
    ensures rules { IfOk result (λ good. IsTrue good → rules.new.items ≡ rules.old.items ++ rules_of_lines (line.now ∷ [])) }
{
    if is_passed_over(line) {
        return Ok(true);
    }
    let Some(rule) = Rule::read(alloc, line)? else {
        return Ok(false);
    };
    rules.push(rule)?;
    Ok(true)
}
