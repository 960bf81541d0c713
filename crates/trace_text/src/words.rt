//! The words of a line.

ghost use Rattle.std.specs.Prelude.{◌≡◌, ◌+◌, ◌<◌, ◌≤◌, length, drop, Ok, Err, IfOk, IfErr};
ghost use Rattle.trace_text.specs.Words.{until, behind, named_word, ended};

/// Where the bytes from `start` on end: before the first `stop`, or with the text.
pub(crate) fn end_of(text: &[u8], start: usize, stop: u8) -> usize
    requires { start ≤ length text.now }
    ensures value { result ≡ start + length (until stop (drop start text.now)) }
    ensures low { start ≤ result }
    ensures high { result ≤ length text.now }
{
    let mut end = start;
    while end < text.len() && text[end] != stop {
        end += 1;
    }
    end
}

/// The bytes before the first `stop`, and those behind it.
pub(crate) fn parted(text: &[u8], stop: u8) -> (&[u8], &[u8])
    ensures before { result.0.now ≡ until stop text.now }
    ensures behind { result.1.now ≡ behind stop text.now }
    ensures short { length result.0.now ≤ length text.now }
{
    let end = end_of(text, 0, stop);
    if end < text.len() {
        (&text[..end], &text[end + 1..])
    } else {
        (text, &text[end..])
    }
}

/// The bytes from `start` up to the next `stop`, or to the end where there is none.
pub(crate) fn part_from(text: &[u8], start: usize, stop: u8) -> &[u8]
    requires { start ≤ length text.now }
    ensures part { result.now ≡ until stop (drop start text.now) }
    ensures bound { start + length result.now ≤ length text.now }
{
    let end = end_of(text, start, stop);
    &text[start..end]
}

/// The text of the field of this name in the word that follows offset `at`, and where the word ends.
/// Else the offset of that word, or of the line's end where no word follows.
#[tactic(auto, unfolding(crate::specs::Words::named_word))]
pub(crate) fn named_word<'a>(
    line: &'a [u8],
    at: usize,
    name: &[u8],
) -> Result<(&'a [u8], usize), usize>
    requires { at ≤ length line.now }
    ensures found { IfOk result (λ text. named_word name.now line.now at ≡ Ok (text.0.now, text.1)) }
    ensures none { IfErr result (λ place. named_word name.now line.now at ≡ Err place) }
    ensures after { IfOk result (λ text. at < text.1) }
    ensures bound { IfOk result (λ text. text.1 ≤ length line.now) }
    ensures place { IfErr result (λ place. place ≤ length line.now) }
{
    if at == line.len() {
        return Err(at);
    }
    let start = at + 1;
    let word = part_from(line, start, b' ');
    if word.starts_with(name) {
        Ok((&word[name.len()..], start + word.len()))
    } else {
        Err(start)
    }
}

/// Whether the line ends at offset `at`. Else the offset of the word too many.
pub(crate) fn ended(line: &[u8], at: usize) -> Result<(), usize>
    requires { at ≤ length line.now }
    ensures end { result ≡ ended line.now at }
    ensures place { IfErr result (λ place. place ≤ length line.now) }
{
    if at == line.len() {
        Ok(())
    } else {
        Err(at + 1)
    }
}
