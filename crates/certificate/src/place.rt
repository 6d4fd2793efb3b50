//! Where a certificate's text stands after some bytes.
//!
//! A text is words, which are fixed, and numbers. What comes next is always one of the two, so a
//! place needs no memory, and one byte leads from place to place.

ghost use Rattle.std.specs.Prelude.{IsTrue, if◌then◌else◌, ◌≡◌, ◌<◌, ◌≤◌, ◌+◌, ◌-◌, ℕ, Some, length, slice_index};
ghost use Rattle.lists.specs.Limits.{most_tasks};
ghost use Rattle.certificate.specs.Machine.{word_text, after_word, word_step, least, greatest, end_ender, ender, at_place, bad, after_point, after_end, after_number, in_word, version_digit, first_digit, more_digits, next_place, start, is_good_at, is_over_at, IsRightField, IsPlace};
ghost use Rattle.certificate.specs.FirstLines.{said_at};
ghost use Rattle.certificate.specs.declared.step.LineStep.TheVariants.{More};

use crate::cert::{Point, Terms, Version};
use crate::step::LineStep;
use lists::limits::{GREATEST_NUMBER, MOST_POINTS, MOST_TASKS};
use poet_io::put_number;

/// A part of the text that is fixed at its place.
#[derive(Clone, Copy, Debug)]
pub enum Word {
    /// Line 1 up to the version's digit.
    Head,
    /// The end of line 1, and line 2 up to its number.
    Tasks,
    /// The front of an entry's line. The task's number is part of it, since the place fixes it.
    Task,
    /// The front of a point's line.
    Point,
    /// The last line, with its newline.
    End,
}

/// A number, with those that came before it in its line.
#[derive(Clone, Copy, Debug)]
pub enum Field {
    Tasks,
    Window,
    Bound {
        window: u64,
    },
    Count {
        window: u64,
        bound: u64,
    },
    Offset,
    Finish {
        offset: u64,
    },
    Blocking {
        point: Point,
    },
    Own {
        point: Point,
        blocking: u128,
    },
    Others {
        point: Point,
        blocking: u128,
        own: u128,
    },
    Need {
        point: Point,
        blocking: u128,
        own: u128,
        others: u128,
    },
}

/// What must come next.
#[derive(Clone, Copy, Debug)]
pub enum Expected {
    /// The rest of a word, of which so many bytes have come.
    Rest(Word, usize),
    /// The digit of the version.
    VersionDigit,
    /// The first digit of a number.
    Number(Field),
    /// More digits after those that stand for this, or the end of the number.
    Digits(Field, u128),
    /// No byte: the text is whole.
    Over,
    /// No byte: no certificate's text begins so.
    Nothing,
}

/// The greatest term of a point.
const GREATEST_TERM: u128 = 10_000_000_000_000_000_000_000_000_000;

/// A place in the text: in which version, what must come next, in which task's entry, how many
/// entries follow it, and how many of its points are still to come.
///
/// The version is not known before its digit, and is the first one until then.
#[derive(Clone, Copy, Debug)]
pub struct Place {
    pub version: Version,
    pub expected: Expected,
    pub task: u32,
    pub after: u32,
    pub points: u32,
}

impl Word {
    fn len(self, task: u32) -> usize
        ensures { result ≡ length (word_text self task) }
    {
        match self {
            Word::Head => 10,
            Word::Tasks => 7,
            Word::Task => {
                let mut digits = [0u8; 20];
                6 + put_number(u64::from(task), &mut digits)
            }
            Word::Point => 2,
            Word::End => 4,
        }
    }

    fn byte(self, task: u32, at: usize) -> u8
        requires { at < length (word_text self task) }
        ensures { result ≡ slice_index (word_text self task) at }
    {
        match self {
            Word::Head => b"poet-cert "[at],
            Word::Tasks => b"\ntasks "[at],
            Word::Task => {
                let mut digits = [0u8; 20];
                let len = put_number(u64::from(task), &mut digits);
                if at < 5 {
                    b"task "[at]
                } else if at < 5 + len {
                    digits[at - 5]
                } else {
                    b' '
                }
            }
            Word::Point => b"p "[at],
            Word::End => b"end\n"[at],
        }
    }

    fn after(self) -> Expected
        ensures { result ≡ after_word self }
    {
        match self {
            Word::Head => Expected::VersionDigit,
            Word::Tasks => Expected::Number(Field::Tasks),
            Word::Task => Expected::Number(Field::Window),
            Word::Point => Expected::Number(Field::Offset),
            Word::End => Expected::Over,
        }
    }

    fn step(self) -> LineStep
        ensures { result ≡ word_step self }
    {
        match self {
            Word::End => LineStep::End,
            _ => LineStep::More,
        }
    }
}

impl Version {
    /// The byte behind a point's end.
    pub(crate) fn end_ender(self) -> u8
        ensures { result ≡ end_ender self }
    {
        match self {
            Version::One => b'\n',
            Version::Two => b' ',
        }
    }
}

impl Field {
    fn least(self) -> u128
        ensures { result ≡ least self }
    {
        match self {
            Field::Tasks | Field::Count { .. } => 1,
            _ => 0,
        }
    }

    fn greatest(self) -> u128
        ensures { result ≡ greatest self }
    {
        match self {
            Field::Tasks => MOST_TASKS as u128,
            Field::Count { .. } => u128::from(MOST_POINTS),
            Field::Blocking { .. }
            | Field::Own { .. }
            | Field::Others { .. }
            | Field::Need { .. } => GREATEST_TERM,
            _ => u128::from(GREATEST_NUMBER),
        }
    }

    fn ender(self, version: Version) -> u8
        ensures { result ≡ ender version self }
    {
        match self {
            Field::Tasks | Field::Count { .. } | Field::Need { .. } => b'\n',
            Field::Finish { .. } => version.end_ender(),
            _ => b' ',
        }
    }
}

impl Place {
    fn at(version: Version, expected: Expected, task: u32, after: u32, points: u32) -> Place
        ensures { result ≡ at_place version expected task after points }
    {
        Place {
            version,
            expected,
            task,
            after,
            points,
        }
    }

    fn bad() -> (Place, LineStep)
        ensures { result ≡ bad }
    {
        (
            Place::at(Version::One, Expected::Nothing, 0, 0, 0),
            LineStep::Bad,
        )
    }

    /// Behind a point, when so many are still to come.
    pub fn after_point(self, points: u32) -> Place
        requires { self.task + self.after < most_tasks }
        ensures { result ≡ after_point self.version self.task self.after points }
    {
        if points > 0 {
            Place {
                expected: Expected::Rest(Word::Point, 0),
                points,
                ..self
            }
        } else if self.after > 0 {
            Place::at(
                self.version,
                Expected::Rest(Word::Task, 0),
                self.task + 1,
                self.after - 1,
                0,
            )
        } else {
            Place::at(self.version, Expected::Rest(Word::End, 0), 0, 0, 0)
        }
    }

    /// Passes the line of a point, where it must come.
    #[inline]
    #[tactic(auto, using(crate::proofs::PassFacts::point_passed))]
    pub fn pass_point(&mut self)
        requires few { self.old.task + self.old.after < most_tasks }
        requires some { 1 ≤ self.old.points }
        requires here { self.old.expected ≡ Expected.Rest Word.Point 0 }
        ensures { self.new ≡ after_point self.old.version self.old.task self.old.after
            (self.old.points - 1) }
    {
        if self.points > 1 {
            self.points -= 1;
        } else {
            *self = self.after_point(0);
        }
    }

    /// At `expected`, where no line ends.
    fn with(self, expected: Expected) -> (Place, LineStep)
        ensures { result ≡ (at_place self.version expected self.task self.after self.points, More) }
    {
        (Place { expected, ..self }, LineStep::More)
    }

    /// Behind a point's end.
    fn after_end(self, offset: u64, end: u64) -> (Place, LineStep)
        requires few { self.task + self.after < most_tasks }
        requires points { 1 ≤ self.points }
        ensures { result ≡ after_end self.version self.task self.after self.points offset end }
    {
        match self.version {
            Version::One => (
                self.after_point(self.points - 1),
                LineStep::Point {
                    offset,
                    end,
                    terms: None,
                },
            ),
            Version::Two => {
                let point = Point { offset, end };
                self.with(Expected::Number(Field::Blocking { point }))
            }
        }
    }

    /// Behind a point's terms.
    fn after_terms(self, point: Point, terms: Terms) -> (Place, LineStep)
        requires few { self.task + self.after < most_tasks }
        requires points { 1 ≤ self.points }
        ensures place { result.0 ≡ after_point self.version self.task self.after (self.points - 1) }
        ensures step { result.1 ≡ LineStep.Point point.offset point.end (Some terms) }
    {
        let step = LineStep::Point {
            offset: point.offset,
            end: point.end,
            terms: Some(terms),
        };
        (self.after_point(self.points - 1), step)
    }

    /// Behind a number of an entry's first line, which ends with the number of its points.
    fn after_count(self, window: u64, bound: u64, count: u32) -> (Place, LineStep)
        ensures place { result.0 ≡ at_place self.version (Expected.Rest Word.Point 0) self.task
            self.after count }
        ensures step { result.1 ≡ LineStep.Entry self.task window bound count }
    {
        let place = Place {
            expected: Expected::Rest(Word::Point, 0),
            points: count,
            ..self
        };
        let step = LineStep::Entry {
            task: self.task,
            window,
            bound,
            count,
        };
        (place, step)
    }

    /// Behind the number of tasks.
    fn after_tasks(self, count: u32) -> (Place, LineStep)
        requires { 1 ≤ count }
        ensures place { result.0 ≡ at_place self.version (Expected.Rest Word.Task 0) 0 (count - 1)
            0 }
        ensures step { result.1 ≡ LineStep.Tasks count }
    {
        let front = Expected::Rest(Word::Task, 0);
        (
            Place::at(self.version, front, 0, count - 1, 0),
            LineStep::Tasks(count),
        )
    }

    /// Behind a number.
    fn after_number(self, field: Field, value: u128) -> (Place, LineStep)
        requires few { self.task + self.after < most_tasks }
        requires least { least field ≤ value }
        requires greatest { value ≤ greatest field }
        requires points { IsRightField field self.points }
        ensures { result ≡ after_number self.version self.task self.after self.points field value }
    {
        match field {
            Field::Tasks => self.after_tasks(value as u32),
            Field::Window => {
                let window = value as u64;
                self.with(Expected::Number(Field::Bound { window }))
            }
            Field::Bound { window } => {
                let bound = value as u64;
                self.with(Expected::Number(Field::Count { window, bound }))
            }
            Field::Count { window, bound } => self.after_count(window, bound, value as u32),
            Field::Offset => {
                let offset = value as u64;
                self.with(Expected::Number(Field::Finish { offset }))
            }
            Field::Finish { offset } => self.after_end(offset, value as u64),
            Field::Blocking { point } => {
                let blocking = value;
                self.with(Expected::Number(Field::Own { point, blocking }))
            }
            Field::Own { point, blocking } => self.with(Expected::Number(Field::Others {
                point,
                blocking,
                own: value,
            })),
            Field::Others {
                point,
                blocking,
                own,
            } => self.with(Expected::Number(Field::Need {
                point,
                blocking,
                own,
                others: value,
            })),
            Field::Need {
                point,
                blocking,
                own,
                others,
            } => {
                let terms = Terms {
                    blocking,
                    own,
                    others,
                    need: value,
                };
                self.after_terms(point, terms)
            }
        }
    }

    fn in_word(self, word: Word, at: usize, byte: u8) -> (Place, LineStep)
        requires { at < length (word_text word self.task) }
        ensures { result ≡ in_word self.version self.task self.after self.points word at byte }
    {
        if word.byte(self.task, at) != byte {
            Place::bad()
        } else if at == word.len(self.task) - 1 {
            let expected = word.after();
            (Place { expected, ..self }, word.step())
        } else {
            self.with(Expected::Rest(word, at + 1))
        }
    }

    fn version_digit(byte: u8) -> (Place, LineStep)
        ensures { result ≡ version_digit byte }
    {
        let version = match byte {
            b'1' => Version::One,
            b'2' => Version::Two,
            _ => return Place::bad(),
        };
        let rest = Expected::Rest(Word::Tasks, 0);
        (Place::at(version, rest, 0, 0, 0), LineStep::More)
    }

    fn first_digit(self, field: Field, byte: u8) -> (Place, LineStep)
        ensures { result ≡ first_digit self.version self.task self.after self.points field byte }
    {
        if byte.is_ascii_digit() && field.least() <= u128::from(byte - b'0') {
            self.with(Expected::Digits(field, u128::from(byte - b'0')))
        } else {
            Place::bad()
        }
    }

    fn more_digits(self, field: Field, value: u128, byte: u8) -> (Place, LineStep)
        requires few { self.task + self.after < most_tasks }
        requires least { least field ≤ value }
        requires greatest { value ≤ greatest field }
        requires points { IsRightField field self.points }
        ensures { result ≡ more_digits self.version self.task self.after self.points field value
            byte }
    {
        if byte == field.ender(self.version) {
            return self.after_number(field, value);
        }
        if !byte.is_ascii_digit() || value == 0 {
            return Place::bad();
        }
        let value = value * 10 + u128::from(byte - b'0');
        if value <= field.greatest() {
            self.with(Expected::Digits(field, value))
        } else {
            Place::bad()
        }
    }

    /// Whether certificates begin as what led here.
    pub fn is_good(self) -> bool
        ensures { result ≡ is_good_at self.expected }
    {
        !matches!(&self.expected, Expected::Nothing)
    }

    /// What is said here where no byte comes.
    pub fn said(self) -> LineStep
        ensures { result ≡ said_at self.expected }
    {
        match self.expected {
            Expected::Nothing => LineStep::Bad,
            _ => LineStep::More,
        }
    }

    /// Whether the line of a point must come.
    #[inline]
    pub fn is_at_point(&self) -> bool
        ensures { IsTrue result → self.now.expected ≡ Expected.Rest Word.Point 0 }
    {
        matches!(&self.expected, Expected::Rest(Word::Point, 0))
    }

    /// Whether points have terms here.
    #[inline]
    pub fn has_terms(&self) -> bool
        ensures { self.now.version ≡ (if result then Version.Two else Version.One) }
    {
        matches!(&self.version, Version::Two)
    }

    /// Whether what led here is a certificate.
    pub fn is_over(self) -> bool
        ensures { result ≡ is_over_at self.expected }
    {
        matches!(&self.expected, Expected::Over)
    }

    /// Before the first byte.
    pub fn new() -> Place
        ensures { result ≡ start }
    {
        Place::at(Version::One, Expected::Rest(Word::Head, 0), 0, 0, 0)
    }

    /// The place after one more byte, and what it says.
    pub fn next(self, byte: u8) -> (Place, LineStep)
        requires { IsPlace self }
        ensures { result ≡ next_place self byte }
    {
        match self.expected {
            Expected::Rest(word, at) => self.in_word(word, at, byte),
            Expected::VersionDigit => Place::version_digit(byte),
            Expected::Number(field) => self.first_digit(field, byte),
            Expected::Digits(field, value) => self.more_digits(field, value, byte),
            Expected::Over | Expected::Nothing => Place::bad(),
        }
    }
}
