// What a reader finds from its place on.
ghost use Rattle.std.specs.Prelude.{◌≡◌, ◌<◌, ◌≤◌, length, MatchOption, MatchResult, ◌≢◌, slice_index};
ghost use Rattle.text.specs.Grammar.{Plain};
ghost use Rattle.text.specs.FirstLine.{LineAt};
ghost use Rattle.text.specs.Scans.{PlainTo, Closes, Unclosed, Spans, MarkTo};
ghost use Rattle.text.specs.Faults.{Wrong};

use crate::field::{Mark, Span, TextFault};
use crate::reader::Reader;

impl<'a> Reader<'a> {
    // The first place that holds no plain byte, or the text's end.
    fn plain_end(&self) -> usize
        ensures within { (self.now.at ≤ result) × (result ≤ length self.now.text.now) }
        ensures run { PlainTo self.now.text.now self.now.at result }
        ensures stops { result < length self.now.text.now → Plain (slice_index self.now.text.now result) → ⊥ }
    {
        let text = self.text;
        // by the place, since `position` over what is left takes more steps for each field
        for i in self.at..text.len() {
            if matches!(text[i], b',' | b'"' | b'\r' | b'\n') {
                return i;
            }
        }
        text.len()
    }

    // The place of the quote that closes the content that begins here, if any does.
    #[tactic(auto, using(crate::proofs::Marks::escaped_quote, crate::proofs::Marks::escaped_other))]
    fn quote_end(&self) -> Option<usize>
        ensures { MatchOption result (Unclosed self.now.text.now self.now.at) (λ i. Closes self.now.text.now self.now.at i) }
    {
        let text = self.text;
        let mut rest = &text[self.at..];
        'content: loop {
            // a loop of its own, since a match that passes over each byte takes more steps
            'run: while let [b, after @ ..] = rest {
                if *b == b'"' {
                    break;
                }
                rest = after;
            }
            match rest {
                [] => return None,
                [_, b'"', after @ ..] => rest = after,
                _ => return Some(text.len() - rest.len()),
            }
        }
    }

    // The mark that stands here, if one does, and the place after it.
    pub(crate) fn mark(&self) -> Option<(Mark, usize)>
        ensures { MatchOption result ((self.now.at < length self.now.text.now) × (slice_index self.now.text.now self.now.at ≢ 44) × (LineAt self.now.text.now self.now.at → ⊥)) (λ m. MarkTo self.now.text.now self.now.at m.0 m.1) }
    {
        match &self.text[self.at..] {
            [] => Some((Mark::End, self.at)),
            [b',', ..] => Some((Mark::Comma, self.at + 1)),
            [b'\r', after @ ..] if matches!(after, [b'\n', ..]) => Some((Mark::Line, self.at + 2)),
            _ => None,
        }
    }

    // Where the field that begins here stands; refused where its quote is open.
    pub(crate) fn span(&self) -> Result<Span, TextFault>
        ensures { MatchResult result (λ p. Spans self.now.text.now self.now.at p) (λ e. Wrong self.now.text.now self.now.at e) }
    {
        let text = self.text;
        let [b'"', ..] = &text[self.at..] else {
            return Ok(Span {
                quoted: false,
                start: self.at,
                end: self.plain_end(),
            });
        };
        let start = self.at + 1;
        let content = Reader { text, at: start };
        match content.quote_end() {
            Some(end) => Ok(Span {
                quoted: true,
                start,
                end,
            }),
            None => Err(TextFault::OpenQuote(text.len())),
        }
    }
}
