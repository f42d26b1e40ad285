/// The names of a domain, a problem and a plan.
#[derive(Clone, Copy)]
pub struct TextNames<'a> {
    pub domain: &'a str,
    pub problem: &'a str,
    pub plan: &'a str,
}

/// How a plan is improved: workers (1 to 64), nodes of a search (1 to 100,000), kids of a window (1 to 64), kids of a
/// candidate's side (1 to 64), and accepted replacements after which the core is closed (1 to 1,000,000).
#[derive(Clone, Copy)]
pub struct Numbers {
    pub workers: u32,
    pub nodes: u32,
    pub width: u32,
    pub span: u32,
    pub stop: u32,
}

/// What the words ask for. docs/formats.md ("Words") tells each command.
#[derive(Clone, Copy)]
pub enum Request<'a> {
    Improve {
        texts: TextNames<'a>,
        numbers: Numbers,
    },
    Check {
        texts: TextNames<'a>,
    },
    /// The span is from 1 to 64.
    Deorder {
        texts: TextNames<'a>,
        span: u32,
    },
    Replay {
        script: &'a str,
    },
    /// The size is from 1 to 600.
    Bench {
        size: u32,
    },
}
