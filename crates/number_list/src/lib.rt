// A list of numbers, from text: numbers in base ten, parted by spaces, line feeds and comments.
#![tactic(auto)]

ghost use Rattle.std.specs.Prelude.{◌≡◌, ◌≤◌, set, length};
ghost use Rattle.number_list.specs.Numbers.{number_of, reading_of, answer_from, numbers_in, over};
ghost use Rattle.number_list.specs.Inner.{is_word, word_length, line_length};

// A word of a text that is no number of 32 bits: the line that it stands on, counted from 1.
#[derive(Clone, Copy, Debug, PartialEq, Eq)]
pub struct WrongWord {
    pub line: usize,
}

// Reads the numbers of a text, up to the first wrong word, into the start of `out`, and answers how many there are. Those
// beyond the end of `out` are only counted.
pub fn read_list(text: &[u8], out: &mut [i32]) -> Result<usize, WrongWord>
    ensures answer { result ≡ answer_from 0 (reading_of text.now) }
    ensures numbers { out.new ≡ over (numbers_in (reading_of text.now)) out.old }
{
    let mut line = 1;
    let mut count = 0;
    let mut rest = text;
    while let Some((c, behind)) = rest.split_first() {
        match *c {
            b'\n' => {
                line += 1;
                rest = behind;
            }
            b'#' => {
                let (_comment, behind) = rest.split_at(line_length(rest));
                rest = behind;
            }
            b' ' => rest = behind,
            _ => {
                let (word, behind) = rest.split_at(word_length(rest));
                let Some(number) = number_of(word) else {
                    return Err(WrongWord { line });
                };
                put(out, count, number);
                count += 1;
                rest = behind;
            }
        }
    }
    Ok(count)
}

// How many characters stand before the first line feed of a text: all, where it has none.
fn line_length(text: &[u8]) -> usize
    ensures { result ≡ line_length text.now }
{
    text.iter().position(|c| *c == b'\n').unwrap_or(text.len())
}

// How many characters a text begins with that belong to a word.
fn word_length(text: &[u8]) -> usize
    ensures { result ≡ word_length text.now }
{
    text.iter().position(|c| !is_word(*c)).unwrap_or(text.len())
}

// Does a character belong to a word?
#[tactic(auto, unfolding(crate::specs::Inner::is_word))]
fn is_word(c: u8) -> bool
    ensures { result ≡ is_word c }
{
    !matches!(c, b'\n' | b'#' | b' ')
}

// The number that a word says, where 32 bits hold it.
fn number_of(word: &[u8]) -> Option<i32>
    ensures { result ≡ number_of word.now }
{
    parse::number_as(word)
}

// Puts a number at place n, where there is one.
fn put(out: &mut [i32], n: usize, x: i32)
    ensures { out.new ≡ set out.old n x }
{
    if n < out.len() {
        out[n] = x;
    }
}
