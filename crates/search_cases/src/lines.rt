/// A line of the input.
#[derive(Clone, Copy)]
pub enum Line<'a> {
    Remark,
    Name(&'a str),
    Case {
        name: &'a str,
        bound: u64,
        nodes: u32,
    },
    Wrong,
}

// `NAME BOUND NODES`, behind the name.
fn case_of<'a>(name: &'a str, numbers: &str) -> Option<Line<'a>> {
    let (bound, nodes) = numbers.split_once(' ')?;
    Some(Line::Case {
        name,
        bound: bound.parse().ok()?,
        nodes: nodes.parse().ok()?,
    })
}

/// What a line says.
pub fn line_of(line: &str) -> Line<'_> {
    if line.starts_with("-") {
        return Line::Remark;
    }
    match line.split_once(' ') {
        None => Line::Name(line),
        Some((name, numbers)) => match case_of(name, numbers) {
            None => Line::Wrong,
            Some(case) => case,
        },
    }
}
