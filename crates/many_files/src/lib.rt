//! The rewriting of many files, one after the other.
//!
//! [`rewrite_each`] rewrites the files that some paths lead to, each as the one before left the disk. One that fails is a job,
//! and the others go on. Room for all jobs is taken before the first write, so want of memory is told before anything is
//! written, or is that of one file.
#![tactic(auto)]

mod examples;
mod fault;
mod jobs;
mod report;
mod rewriting;

pub use examples::{files_are_counted, files_have_an_end_each, jobs_are_the_failed_files};
pub use fault::FilesFault;
pub use jobs::FailedJobs;
pub use report::Report;
pub use rewriting::rewrite_each;
