//! Goes through tables of replacers: what they make of bytes, what texts and flags mean, and what is refused.
//!
//! The arguments name the tables; `case_reader` says how a table is written. Each kind of case that is known here has its line
//! below: its name, how many fields are asked about, and what answers. A section may have the settings `as=literal`, where the
//! text to find is no pattern, and `in=lines`, where matches are counted in each line.
#![tactic(auto)]

mod making;
mod refusing;
mod replacing;
mod texts;

use anyhow::Error;
use case_reader::{Answers, Case, kind_of, run};
use std::alloc::Global;
use std::process::ExitCode;

/// An answer to a case: bytes, or nothing.
type Answer = Result<Option<Vec<u8>>, Error>;

/// A kind of case.
#[derive(Clone, Copy)]
enum Kind {
    Replace,
    ReplaceFlags,
    ReplaceLimit,
    Refused,
    Says,
    Ambiguous,
    SaysAmbiguous,
    Unescape,
}

/// The kinds of case by their names, and how many fields each asks about at least and at most.
const KINDS: &[(&str, usize, usize, Kind)] = &[
    ("replace", 3, 3, Kind::Replace),
    ("replace_flags", 4, 4, Kind::ReplaceFlags),
    ("replace_limit", 4, 4, Kind::ReplaceLimit),
    ("refused", 2, 2, Kind::Refused),
    ("says", 2, 2, Kind::Says),
    ("ambiguous", 1, 1, Kind::Ambiguous),
    ("says_ambiguous", 1, 1, Kind::SaysAmbiguous),
    ("unescape", 1, 1, Kind::Unescape),
];

/// What replacers answer.
struct Replacers;

impl Answers for Replacers {
    fn answer(&self, alloc: Global, case: &Case<'_>) -> Answer {
        match kind_of(case, case.inputs(), KINDS)? {
            Kind::Replace => replacing::replace(alloc, case),
            Kind::ReplaceFlags => replacing::replace_flags(alloc, case),
            Kind::ReplaceLimit => replacing::replace_limit(alloc, case),
            Kind::Refused => refusing::refused(alloc, case),
            Kind::Says => refusing::says(alloc, case),
            Kind::Ambiguous => texts::ambiguous(alloc, case),
            Kind::SaysAmbiguous => texts::says_ambiguous(alloc, case),
            Kind::Unescape => texts::unescape(alloc, case),
        }
    }
}

fn main(rt: HostRuntime) -> Result<ExitCode, Error> {
    run(&rt, &Replacers)
}
