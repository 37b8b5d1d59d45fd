// The octets that a word of a line stands for.
#![tactic(auto)]

ghost use Rattle.ask_words.specs.Words.{words};
ghost use Rattle.ask_octets.specs.Octets.{octets_word, lone_octets, WordRead};

// The most characters of a line.
pub const LINE_LIMIT: usize = 131072;

// The most octets that a line has the digits of.
pub const MOST: usize = LINE_LIMIT / 2;

// The octets that a word stands for, written from the start of `octets`.
pub fn read(word: &[u8], octets: &mut [u8]) -> Option<usize>
    ensures { WordRead (octets_word word.now) octets.old result octets.new }
{
    if ask_words::same(word, b"-") {
        return Some(0);
    }
    if word.is_empty() {
        return None;
    }
    hexline::decode_digits(word, octets).ok()
}

// The octets that the only word of a line stands for, written from the start of `octets`.
pub fn read_lone(line: &[u8], octets: &mut [u8]) -> Option<usize>
    ensures { WordRead (lone_octets (words line.now)) octets.old result octets.new }
{
    if ask_words::first_end(line) < line.len() {
        return None;
    }
    read(line, octets)
}
