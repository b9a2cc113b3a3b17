//! Answers that tell values or refusals as text.

use crate::answer::Answer;
use std::alloc::{AllocError, Global};
use std::fmt::{Debug, Display};

/// That a call is done, and tells this.
pub fn told<R, T: Display + Drop>(alloc: Global, value: T) -> Result<Answer<R>, AllocError> {
    Ok(Answer::Text(value.to_string(alloc)?))
}

/// That a call is done, and tells this as it is written in code.
pub fn shown<R, T: Debug + Drop>(alloc: Global, value: T) -> Result<Answer<R>, AllocError> {
    Ok(Answer::Text(format!(in alloc; "{value:?}")?))
}

/// A call's value, or why it refuses, as they are written in code.
pub fn shown_result<R, T: Debug + Drop, E: Debug + Drop>(
    alloc: Global,
    answer: Result<T, E>,
) -> Result<Answer<R>, AllocError> {
    match answer {
        Ok(value) => shown(alloc, value),
        Err(why) => shown(alloc, why),
    }
}

/// That a call is done, or why it refuses, as it is written in code.
pub fn shown_done<R, E: Debug + Drop>(
    alloc: Global,
    answer: Result<(), E>,
) -> Result<Answer<R>, AllocError> {
    match answer {
        Ok(()) => Ok(Answer::Done),
        Err(why) => shown(alloc, why),
    }
}
