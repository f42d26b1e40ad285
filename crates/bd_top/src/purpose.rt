use command_words::Numbers;

/// What is to be done with the plan of three texts.
#[derive(Clone, Copy)]
pub enum Purpose {
    /// It is only checked.
    Check,
    /// It is deordered, and its tree is tightened at the span.
    Deorder { span: u32 },
    /// It is improved by these numbers.
    Improve { numbers: Numbers },
}
