//! Goes through tables of matchers of patterns: how they are built or refused, and what they find, tell and replace.
//!
//! The arguments name the tables; `case_reader` says how a table is written. The settings of a section are the options of a
//! builder, set in their order: `case_insensitive=yes`, `line_terminator=10`, `ban_byte=none`. The first field of a case is its
//! pattern. Where the section has a setting `patterns`, so many fields are, of which one matcher is built; a setting `literals=yes` has it
//! built as of literals. Each kind of case that is known here has its line below: its name, how many fields follow the patterns, and what is
//! asked.
#![tactic(auto)]

mod asking;
mod building;
mod fields;
mod options;
mod replacing;
mod telling;

use anyhow::Error;
use case_reader::{Answers, Case, kind_of, run};
use fields::Fields;
use grep_regex::RegexMatcher;
use std::alloc::Global;
use std::process::ExitCode;

/// An answer to a case: bytes, or nothing.
type Answer = Result<Option<Vec<u8>>, Error>;

/// A kind of case.
#[derive(Clone, Copy)]
enum Kind {
    Build,
    Says,
    Ask(Question),
}

/// What a matcher is asked.
#[derive(Clone, Copy)]
enum Question {
    Find,
    FindAll,
    IsMatch,
    Confirms,
    Group,
    GroupFrom,
    Named,
    Count,
    NonMatching,
    Skips,
    Terminator,
    Replace,
    ReplaceFrom,
}

/// The kinds of case by their names, and how many fields of each follow its patterns at least and at most.
const KINDS: &[(&str, usize, usize, Kind)] = &[
    ("build", 0, 0, Kind::Build),
    ("says", 0, 0, Kind::Says),
    ("find", 1, 1, Kind::Ask(Question::Find)),
    ("find_all", 1, 1, Kind::Ask(Question::FindAll)),
    ("is_match", 1, 1, Kind::Ask(Question::IsMatch)),
    ("confirms", 1, 1, Kind::Ask(Question::Confirms)),
    ("group", 2, 2, Kind::Ask(Question::Group)),
    ("group_from", 3, 3, Kind::Ask(Question::GroupFrom)),
    ("named", 1, 1, Kind::Ask(Question::Named)),
    ("count", 0, 0, Kind::Ask(Question::Count)),
    ("non_matching", 0, 0, Kind::Ask(Question::NonMatching)),
    ("skips", 1, 1, Kind::Ask(Question::Skips)),
    ("terminator", 0, 0, Kind::Ask(Question::Terminator)),
    ("replace", 2, 2, Kind::Ask(Question::Replace)),
    ("replace_from", 3, 3, Kind::Ask(Question::ReplaceFrom)),
];

/// What matchers answer.
struct Matchers;

impl Answers for Matchers {
    fn answer(&self, alloc: Global, case: &Case<'_>) -> Answer {
        match kind_of(case, Fields::of(case)?.count()?, KINDS)? {
            Kind::Build => building::build(alloc, case),
            Kind::Says => building::says(alloc, case),
            Kind::Ask(question) => ask(alloc, case, question),
        }
    }
}

/// Makes the matcher of a case, and asks it. It is let go before the answer is looked at, so that this is quickly proved.
fn ask(alloc: Global, case: &Case<'_>, question: Question) -> Answer {
    let fields = Fields::of(case)?;
    let matcher = building::made(alloc, case)??;
    let answer = answer_of(alloc, &matcher, question, &fields);
    drop(matcher);
    answer
}

/// What a matcher answers.
fn answer_of(
    alloc: Global,
    matcher: &RegexMatcher,
    question: Question,
    fields: &Fields<'_>,
) -> Answer {
    match question {
        Question::Find => asking::find(alloc, matcher, fields),
        Question::FindAll => asking::find_all(alloc, matcher, fields),
        Question::IsMatch => asking::is_match(alloc, matcher, fields),
        Question::Confirms => asking::confirms(alloc, matcher, fields),
        Question::Group => asking::group(alloc, matcher, fields),
        Question::GroupFrom => asking::group_from(alloc, matcher, fields),
        Question::Named => telling::named(alloc, matcher, fields),
        Question::Count => telling::count(alloc, matcher),
        Question::NonMatching => telling::non_matching(alloc, matcher),
        Question::Skips => telling::skips(alloc, matcher, fields),
        Question::Terminator => telling::terminator(alloc, matcher),
        Question::Replace => replacing::replace(alloc, matcher, fields),
        Question::ReplaceFrom => replacing::replace_from(alloc, matcher, fields),
    }
}

fn main(rt: HostRuntime) -> Result<ExitCode, Error> {
    run(&rt, &Matchers)
}
