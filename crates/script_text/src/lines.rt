ghost use Rattle.std.specs.Prelude.{◌≡◌, ◌<◌, ◌≤◌, ◌^◌, ◌+◌, ◌-◌, ◌∷◌, [], length, IfSome, MatchOption, position, ◌==◌};
ghost use Rattle.script_text.specs.Lines.{worded, words, without_cr};

/// The lines that are left of a text, and the number of the first of them, from 1.
#[derive(Clone, Copy, Debug)]
pub struct Lines<'a> {
    pub rest: &'a [u8],
    pub number: u32,
    ghost short: { number + length rest.now < 2 ^ 32 },
}

/// Where the first LF stands.
fn lf_at(text: &[u8]) -> Option<usize>
    ensures { result ≡ position (λ b. b == 10) text.now }
{
    text.iter().position(|b| *b == b'\n')
}

#[tactic(auto, using(crate::proofs::LineLemmas::without_cr_last))]
fn without_cr(line: &[u8]) -> &[u8]
    ensures line { result.now ≡ without_cr line.now }
{
    match line.split_last() {
        Some((last, front)) => { if *last == b'\r' { front } else { line } }
        None => line,
    }
}

/// The first line of a text, without its end, and what follows it.
pub fn first_line(text: &[u8]) -> Option<(&[u8], &[u8])>
    ensures line { MatchOption result (worded text.now ≡ []) (λ p. worded text.now ≡ words p.0.now ∷ worded p.1.now) }
    ensures less { IfSome result (λ p. length p.1.now < length text.now) }
    ensures much_less { IfSome result (λ p. 0 < length p.0.now → length p.1.now ≤ length text.now - 2) }
{
    if text.is_empty() {
        return None;
    }
    match lf_at(text) {
        None => Some((text, &[])),
        Some(i) => {
            let (front, _) = text.split_at(i);
            let (_, rest) = text.split_at(i + 1);
            Some((without_cr(front), rest))
        }
    }
}

impl<'a> Lines<'a> {
    /// The next line, and the lines behind it.
    pub fn next(&self) -> Option<(&'a [u8], Lines<'a>)>
        ensures { MatchOption result (worded self.now.rest.now ≡ []) (λ p. (worded self.now.rest.now ≡ words p.0.now ∷ worded p.1.rest.now) × (p.1.number ≡ self.now.number + 1)) }
    {
        match first_line(self.rest) {
            None => None,
            Some((line, rest)) => {
                let number = self.number + 1;
                Some((line, Lines { rest, number }))
            }
        }
    }
}
