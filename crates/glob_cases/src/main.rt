//! Goes through tables of globs and of references: which paths fit, what is captured of them, and what replacement texts become.
//!
//! The arguments name the tables; `case_reader` says how a table is written. Each kind of case that is known here has its line
//! below: its name, how many fields are asked about, and what answers.
#![tactic(auto)]

mod expanding;
mod globs;
mod references;

use anyhow::Error;
use case_reader::{Answers, Case, kind_of, run};
use std::alloc::Global;
use std::process::ExitCode;

/// An answer to a case: bytes, or nothing.
type Answer = Result<Option<Vec<u8>>, Error>;

/// A kind of case.
#[derive(Clone, Copy)]
enum Kind {
    Fits,
    Steps,
    Valid,
    Captures,
    HasCaptures,
    Reference,
    Interpolate,
    Expand,
}

/// The kinds of case by their names, and how many fields each asks about at least and at most.
const KINDS: &[(&str, usize, usize, Kind)] = &[
    ("fits", 2, 2, Kind::Fits),
    ("fits", 4, 4, Kind::Fits),
    ("steps", 2, 2, Kind::Steps),
    ("steps", 4, 4, Kind::Steps),
    ("valid", 1, 1, Kind::Valid),
    ("captures", 2, 2, Kind::Captures),
    ("captures", 4, 4, Kind::Captures),
    ("has_captures", 2, 2, Kind::HasCaptures),
    ("reference", 1, 1, Kind::Reference),
    ("interpolate", 1, 1, Kind::Interpolate),
    ("expand", 1, 1, Kind::Expand),
];

/// What globs and references answer.
struct Matching;

impl Answers for Matching {
    fn answer(&self, alloc: Global, case: &Case<'_>) -> Answer {
        match kind_of(case, case.inputs(), KINDS)? {
            Kind::Fits => globs::fits(alloc, case),
            Kind::Steps => globs::steps(alloc, case),
            Kind::Valid => globs::valid(alloc, case),
            Kind::Captures => globs::captures(alloc, case),
            Kind::HasCaptures => globs::has_captures(alloc, case),
            Kind::Reference => references::reference(alloc, case),
            Kind::Interpolate => expanding::interpolate(alloc, case),
            Kind::Expand => expanding::expand(alloc, case),
        }
    }
}

/// A text as an answer.
fn said(alloc: Global, text: &str) -> Answer {
    Ok(Some(text.as_bytes().to_vec(alloc)?))
}

/// `yes` or `no`.
fn yes_or_no(holds: bool) -> &'static str {
    if holds { "yes" } else { "no" }
}

fn main(rt: HostRuntime) -> Result<ExitCode, Error> {
    run(&rt, &Matching)
}
