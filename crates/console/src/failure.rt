// Why a line is not answered by a value.
use crate::command::LONGEST_NAME;
use crate::lines::LONGEST_LINE;
use definitions::Error;

// What is wrong with a line that is no call.
#[derive(Debug, Drop, thiserror::Error)]
pub(crate) enum Wrong {
    #[error("line of more than {most} bytes", most = LONGEST_LINE)]
    Long,
    #[error("no such command")]
    Command,
    #[error("too few or too many words")]
    Words,
    #[error("a word is no number, or one too large")]
    Number,
    #[error("a word is no bytes in hexadecimal")]
    Bytes,
    #[error("name of more than {most} bytes", most = LONGEST_NAME)]
    Name,
}

// A line that is no call, or a call that the service refuses. A refusal is told as its answer, the number.
#[derive(Debug, Drop, thiserror::Error)]
pub(crate) enum Failure {
    #[error(transparent)]
    Wrong(#[from] Wrong),
    #[error("{} -", u32::from(*.0))]
    Refused(#[from] Error),
}
