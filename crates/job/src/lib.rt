// The job layout: its readers, group by group and whole; the view of a job's rows; and the writer of what stands before the rows.
#![tactic(auto)]

// meaning: job_read/specs/Job.antt `head_answered`
pub use job_read::Head;
// meaning: job_read/specs/Layout.antt `job_from`
pub use job_read::Job;
// meaning: job_read/specs/Job.antt `job_answered`
pub use job_read::JobRead;
// promise: job_read/specs/Job.antt `plan_section_of`
pub use job_read::plan_section;
// promise: job_read/specs/Job.antt `job_read_of`
pub use job_read::read;
// promise: job_read/specs/Job.antt `head_answered`
pub use job_read::read_head;
// promise: job_view/specs/View.antt `view_number`
pub use job_view::judge_rows;
// promise: job_view/specs/View.antt `viewed`
pub use job_view::rows;
// meaning: job_write/specs/Write.antt `written_of`
pub use job_write::Written;
// promise: job_write/specs/Write.antt `Wrote`
pub use job_write::write_head;
