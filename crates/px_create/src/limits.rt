// Limits that a definition passes.
ghost use Rattle.px_resolve.specs.Answers.{AnswersFirst};
ghost use Rattle.px_create.specs.Limits.{limit_passed, name_limit};

use px_resolve::fault::BindFault;
use px_values::{Limit, Name};

/// Refuses a count that passes a limit.
pub(crate) fn check_limit(limit: Limit, count: u64) -> Result<(), BindFault>
    ensures { AnswersFirst (limit_passed limit count) result }
{
    if count > limit.most() {
        return Err(BindFault::Passed(limit));
    }
    Ok(())
}

/// Refuses a name that is too long.
pub(crate) fn check_name_limit(name: &Name) -> Result<(), BindFault>
    ensures { AnswersFirst (name_limit name.now) result }
{
    check_limit(Limit::Name, name.as_str().len() as u64)
}
