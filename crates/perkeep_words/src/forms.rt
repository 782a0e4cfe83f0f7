//! The forms of lines, as data, and whether words are a line of a form.
ghost use Rattle.std.specs.Prelude.{◌≡◌, ◌&&◌, bytes_eq, option_map, option_copied, option_to_list};
ghost use Rattle.std.specs.List.{slice_get};
ghost use Rattle.perkeep_words.specs.Parts.{start, are_parts, parts_from};
ghost use Rattle.perkeep_words.specs.Kinds.{fault_of};
ghost use Rattle.perkeep_words.specs.Forms.{texts_at, count_at, position_at, kind_in, kind_of, are_of, is_optional, has_positions, is_given, are_given, has_form, first_fault, right_position, begins_at_dir, goes_on_with_addr};
ghost use Rattle.perkeep_words.specs.Seen.{option_seen, options_seen};

use crate::kinds::{TextFault, TextKind, fault_of, fits_kind};
use crate::parts::{Part, State};
use blobref::Text;
use std::marker::Model;

/// An option of a line.
#[derive(Clone, Copy)]
pub struct OptionForm {
    /// Its name, without dashes.
    pub name: &'static str,
    /// What its value has to be.
    pub kind: TextKind,
    /// Whether it has to be given.
    pub needed: bool,
}

/// A command's row: the form of its lines, and what the command may do.
#[derive(Drop)]
pub struct Form {
    /// The word that names the command.
    pub name: &'static str,
    /// Whether the command may change the store.
    pub writes: bool,
    /// What the positions have to be, in their order.
    pub positions: &'static [TextKind],
    /// How many positions are needed whatever the line says.
    pub needed: usize,
    /// The place of a position, and the word there with which those beyond may be left out. None where all are needed.
    pub optional_after: Option<(usize, &'static str)>,
    /// The options.
    pub options: &'static [OptionForm],
}

impl Model for Form {
    ghost use Rattle.std.specs.Prelude.{option_map};
    ghost use Rattle.perkeep_words.specs.Forms as forms;
    ghost use Rattle.perkeep_words.specs.Seen.{options_seen};

    ghost Value = { forms.Form };

    ghost view = { λ f. record {
      name = f.name.now;
      writes = f.writes;
      positions = f.positions.now;
      needed = f.needed;
      optional_after = option_map (λ word. (word.0, word.1.now)) f.optional_after;
      options = options_seen f.options.now;
    } };
}

impl Form {
    /// Whether the words are a line of the form.
    pub fn has_line(&self, words: &[Text]) -> bool
        ensures { result ≡ (are_parts start words.now && has_form self.now (parts_from start words.now)) }
    {
        self.knows_all(words) && self.has_positions(words) && are_given(self.options, words)
    }

    /// Whether each of its lines has DIR as the first position.
    pub fn begins_at_dir(&self) -> bool
        ensures { result ≡ begins_at_dir self.now }
    {
        self.needed > 0 && matches!(self.positions.first(), Some(TextKind::Dir))
    }

    /// Whether each of its lines has ADDR as the second position.
    pub fn goes_on_with_addr(&self) -> bool
        ensures { result ≡ goes_on_with_addr self.now }
    {
        self.needed > 1 && matches!(self.positions.get(1), Some(TextKind::Addr))
    }

    /// The first thing that is wrong in the texts of a line.
    pub fn first_fault(&self, words: &[Text]) -> Option<TextFault>
        ensures { result ≡ first_fault self.now (parts_from start words.now) }
    {
        let mut state = State::start();
        let mut place = 0;
        for word in words {
            let (next, part) = state.step(word)?;
            if let Some(part) = part {
                let fault = self.part_fault(place, &part);
                if fault.is_some() {
                    return fault;
                }
                place += usize::from(part.name.is_none());
            }
            state = next;
        }
        None
    }

    /// The position before which so many others stand, where no text before it in the words is wrong.
    pub fn right_position<'a>(&self, words: &'a [Text], wanted: usize) -> Option<&'a str>
        ensures { option_copied result ≡ right_position self.now wanted 0 (parts_from start words.now) }
    {
        let mut state = State::start();
        let mut place = 0;
        for word in words {
            let (next, part) = state.step(word)?;
            if let Some(part) = part {
                if part.name.is_none() && place == wanted {
                    return Some(part.text);
                }
                if self.part_fault(place, &part).is_some() {
                    return None;
                }
                place += usize::from(part.name.is_none());
            }
            state = next;
        }
        None
    }

    // What is wrong with a part before which so many positions stand.
    fn part_fault(&self, place: usize, part: &Part) -> Option<TextFault>
        ensures { result ≡ fault_of (kind_of self.now place part.now.0) part.now.1 }
    {
        fault_of(self.kind_of(place, part.name), part.text)
    }

    // What a part has to be before which so many positions stand. None where the form has no such part.
    fn kind_of(&self, place: usize, option: Option<&str>) -> Option<TextKind>
        ensures { result ≡ kind_of self.now place (option_copied option.entry) }
    {
        match option {
            None => self.positions.get(place).copied(),
            Some(option) => kind_in(self.options, option),
        }
    }

    /// Whether the words are parts, and the form has all of them.
    pub fn knows_all(&self, words: &[Text]) -> bool
        ensures { result ≡ (are_parts start words.now && are_of self.now 0 (parts_from start words.now)) }
    {
        let mut state = State::start();
        let mut place = 0;
        for word in words {
            let Some((next, part)) = state.step(word) else {
                return false;
            };
            if let Some(part) = part {
                if !fits_kind(self.kind_of(place, part.name), part.text) {
                    return false;
                }
                place += usize::from(part.name.is_none());
            }
            state = next;
        }
        !state.is_waiting()
    }

    // Whether there are all the positions that have to be given.
    fn has_positions(&self, words: &[Text]) -> bool
        ensures { result ≡ has_positions self.now (parts_from start words.now) }
    {
        let count = count(words, None);
        self.needed <= count
            && (self.positions.len() <= count || is_optional(self.optional_after, words))
    }
}

impl OptionForm {
    fn is_named(&self, option: &str) -> bool
        ensures { result ≡ bytes_eq self.now.name.now option.now }
    {
        self.name == option
    }

    fn kind(&self) -> TextKind
        ensures { result ≡ self.now.kind }
    {
        self.kind
    }

    // Whether it is given as often as it has to be.
    fn is_given(&self, words: &[Text]) -> bool
        ensures { result ≡ is_given (parts_from start words.now) (option_seen self.now) }
    {
        let count = count(words, Some(self.name));
        count <= 1 && (!self.needed || 1 <= count)
    }
}

// What the value of an option has to be.
fn kind_in(options: &[OptionForm], option: &str) -> Option<TextKind>
    ensures { result ≡ kind_in (options_seen options.now) option.now }
{
    for form in options {
        if form.is_named(option) {
            return Some(form.kind());
        }
    }
    None
}

// Whether each option is given as often as it has to be.
fn are_given(options: &[OptionForm], words: &[Text]) -> bool
    ensures { result ≡ are_given (options_seen options.now) (parts_from start words.now) }
{
    for form in options {
        if !form.is_given(words) {
            return false;
        }
    }
    true
}

// Whether the positions that aren't always needed may be left out.
fn is_optional(optional_after: Option<(usize, &str)>, words: &[Text]) -> bool
    ensures { result
        ≡ is_optional (option_map (λ word. (word.0, word.1.now)) optional_after.entry) (parts_from start words.now) }
{
    match optional_after {
        None => false,
        Some((place, word)) => position(words, place) == word,
    }
}

/// The position at a place.
pub fn position<'a>(words: &'a [Text], place: usize) -> &'a str
    ensures { result.now ≡ position_at place (parts_from start words.now) }
{
    nth(words, None, place).unwrap_or("")
}

/// How many values of an option the parts have, or positions.
pub fn count(words: &[Text], option: Option<&str>) -> usize
    ensures { result ≡ count_at (option_copied option.entry) (parts_from start words.now) }
{
    let mut state = State::start();
    let mut count = 0;
    for word in words {
        let Some((next, part)) = state.step(word) else {
            break;
        };
        count += usize::from(part_text(&part, option).is_some());
        state = next;
    }
    count
}

/// The i-th value of an option, or the i-th position.
pub fn nth<'a>(words: &'a [Text], option: Option<&str>, i: usize) -> Option<&'a str>
    ensures { option_copied result ≡ slice_get (texts_at (option_copied option.entry) (parts_from start words.now)) i }
{
    let mut state = State::start();
    let mut left = i;
    for word in words {
        let (next, part) = state.step(word)?;
        if let Some(text) = part_text(&part, option) {
            if left == 0 {
                return Some(text);
            }
            left -= 1;
        }
        state = next;
    }
    None
}

// The text of the part, if it is of that name.
fn part_text<'a>(part: &Option<Part<'a>>, option: Option<&str>) -> Option<&'a str>
    ensures { option_to_list (option_copied result) ≡ texts_at (option_copied option.entry) (option_to_list part.now) }
{
    match part {
        Some(part) if part.is_named(option) => Some(part.text),
        _ => None,
    }
}
