//! The words of a line.

ghost use Rattle.std.specs.Prelude.{◌≡◌, ◌<◌, ◌==◌, length, position, IfSome};
ghost use Rattle.run_text.specs.Words.{words_of};
ghost use Rattle.run_text.specs.Unread.{unread};

/// The words of a line, which stand between its spaces.
#[derive(Drop)]
pub(crate) struct Words<'a> {
    rest: &'a [u8],
    is_done: bool,
}

impl<'a> Words<'a> {
    pub(crate) fn new(line: &'a [u8]) -> Words<'a>
        ensures { unread result ≡ words_of line.now }
    {
        Words {
            rest: line,
            is_done: false,
        }
    }
}

/// Where the first word ends, if another one follows it.
fn first_space(line: &[u8]) -> Option<usize>
    ensures value { result ≡ position (λ b. b == 32) line.now }
    ensures inside { IfSome result (λ end. end < length line.now) }
{
    line.iter().position(|byte| *byte == b' ')
}

impl<'a> Iterator for Words<'a> {
    ghost use Rattle.std.specs.Iterator.{YieldsFirstRef, item_count};

    type Item = &'a [u8];

    ghost next_gives = { YieldsFirstRef unread };

    ghost remaining = { item_count unread };

    fn next(&mut self) -> Option<&'a [u8]> {
        if self.is_done {
            return None;
        }
        let line = self.rest;
        let Some(end) = first_space(line) else {
            self.is_done = true;
            return Some(line);
        };
        self.rest = &line[end + 1..];
        Some(&line[..end])
    }
}
