// The laws of jobs and of the names of operators in them.
ghost use Rattle.law_jobs.specs.Laws.{JobsAreBalanced, JobsAreNotRefused, JobsHaveConditions};
ghost use Rattle.law_jobs.specs.Laws.{JobsHaveEnumsInOrder};
ghost use Rattle.law_jobs.specs.Laws.{OperatorsAreFoundByName, StepsAreBuilt};

/// Each term that a job asserts is typed as a Boolean, and formed, and so is each that is current anywhere in it.
pub fn jobs_have_conditions()
    ensures { JobsHaveConditions }
{}

/// No step of a job closes a level where none is open.
pub fn jobs_are_balanced()
    ensures { JobsAreBalanced }
{}

/// What is built of steps asserts and has as current what is built of their terms.
pub fn steps_are_built()
    ensures { StepsAreBuilt }
{}

/// The enum types of a job stand in the order of their names, and so do the members of each.
pub fn jobs_have_enums_in_order()
    ensures { JobsHaveEnumsInOrder }
{}

/// Bytes that are a job are not too many, and have no fault.
pub fn jobs_are_not_refused()
    ensures { JobsAreNotRefused }
{}

/// The operator that a job's name finds is the one that has this name, and each operator of jobs is found by its name.
pub fn operators_are_found_by_name()
    ensures { OperatorsAreFoundByName }
{}
