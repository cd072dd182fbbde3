//! Lines, and the words of a line.

ghost use Rattle.std.specs.Prelude.{◌≡◌, ◌<◌, ◌==◌, IfOk, map, length};
ghost use Rattle.exam_text.specs.Words.{parts_at, lines_of, words_of, word, none_empty};

use std::alloc::{AllocError, Global};

/// The parts of a text between the bytes c.
fn parts_at(alloc: Global, c: u8, text: &[u8]) -> Result<Vec<&[u8]>, AllocError>
    ensures { IfOk result (λ v. map (λ w. w.now) v.items ≡ parts_at c text.now) }
{
    text.split(|b| *b == c).collect(alloc)
}

/// The words of a line, parted by one space each. A space too many shows as an empty word.
pub fn words_of(alloc: Global, line: &[u8]) -> Result<Vec<&[u8]>, AllocError>
    // Promise: Words with one space between them, and lines ended by line feeds, are read as those
    // words and lines
    // - of `words_of`, `lines_of`, `laws::a_line_is_read_as_its_words`,
    //   `laws::a_text_is_read_as_its_lines`
    ensures { IfOk result (λ v. map (λ w. w.now) v.items ≡ words_of line.now) }
{
    parts_at(alloc, b' ', line)
}

/// The lines of a text, without their line feeds, empty lines too. The last one may lack its line
/// feed.
pub fn lines_of(alloc: Global, text: &[u8]) -> Result<Vec<&[u8]>, AllocError>
    ensures { IfOk result (λ v. map (λ w. w.now) v.items ≡ lines_of text.now) }
{
    let mut lines = parts_at(alloc, b'\n', text)?;
    let count = lines.len();
    if count > 0 && lines[count - 1].is_empty() {
        lines.truncate(count - 1);
    }
    Ok(lines)
}

/// One of the words.
pub fn word_at<'a>(words: &[&'a [u8]], i: usize) -> &'a [u8]
    requires { i < length words.now }
    // Promise: The word at a place is that of the list of words, and an empty word is found
    // - of `word_at`, `none_empty`
    ensures { result.now ≡ word (map (λ w. w.now) words.now) i }
{
    words[i]
}

/// Whether no word is empty: no two spaces are together, and none is at either end of the line.
pub fn none_empty(words: &[&[u8]]) -> bool
    ensures { result ≡ none_empty (map (λ w. w.now) words.now) }
{
    for i in 0..words.len() {
        if word_at(words, i).is_empty() {
            return false;
        }
    }
    true
}
