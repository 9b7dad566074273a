//! Files that could not be processed.

ghost use Rattle.std.specs.Prelude.{◌≡◌, ◌<◌, ◌↔◌, [], length, slice_get, Some, IsTrue};

use file_rewrite::JobFault;
use sd_base::Text;
use std::fmt;
use std::marker::Model;

/// The files that could not be processed, in their order, each with its path and its fault.
#[derive(Drop)]
pub struct FailedJobs {
    jobs: Vec<(Text, JobFault)>,
}

impl Model for FailedJobs {
    ghost use Rattle.std.specs.Prelude.{List, ℕ};
    ghost use Rattle.file_rewrite.specs.declared.fault.JobFault.{JobFault};

    ghost Value = { List (List ℕ × JobFault) };

    ghost view = { λ failed. failed.jobs.items };
}

impl FailedJobs {
    /// These jobs, in their order.
    pub fn from_list(jobs: Vec<(Text, JobFault)>) -> FailedJobs
        ensures { result ≡ jobs.items }
    {
        FailedJobs { jobs }
    }

    /// How many jobs there are.
    pub fn len(&self) -> usize
        ensures { result ≡ length self.now }
    {
        self.jobs.len()
    }

    /// Whether there is none.
    pub fn is_empty(&self) -> bool
        ensures { IsTrue result ↔ (self.now ≡ []) }
    {
        self.jobs.is_empty()
    }

    /// The path and the fault of a job, counted from 0.
    pub fn get(&self, i: usize) -> (&str, &JobFault)
        requires { i < length self.now }
        ensures { slice_get self.now i ≡ Some (result.0.now, result.1.now) }
    {
        let job = &self.jobs[i];
        (job.0.as_str(), &job.1)
    }
}

/// A line for each job, within `FailedJobs(` and `)`.
impl fmt::Display for FailedJobs {
    fn fmt<W: fmt::Write>(&self, f: &mut fmt::Formatter<W>) -> fmt::Result {
        writeln!(f, "FailedJobs(")?;
        for (path, fault) in self.jobs.iter() {
            let path = path.as_str();
            writeln!(f, "\t{path}: {fault}")?;
        }
        write!(f, ")")
    }
}

impl fmt::Debug for FailedJobs {
    fn fmt<W: fmt::Write>(&self, f: &mut fmt::Formatter<W>) -> fmt::Result {
        write!(f, "{self}")
    }
}
