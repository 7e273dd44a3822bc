//! Laws of the definitions, proved with no code, by subject.

pub use law_assignments as assignments;
pub use law_blasting as blasting;
pub use law_cedar as cedar;
pub use law_clauses as clauses;
pub use law_extensions as extensions;
pub use law_folding as folding;
pub use law_jobs as jobs;
pub use law_lines as lines;
pub use law_numbers as numbers;
pub use law_scripts as scripts;
pub use law_terms as terms;
pub use law_texts as texts;
pub use law_theorem as theorem;
pub use law_verdicts as verdicts;
pub use smt_runs::laws as job_scripts;
