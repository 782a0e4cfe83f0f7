//! Reading a line of search words character by character.
ghost use Rattle.std.specs.Prelude.{◌≡◌, ◌<◌, List, ◌∷◌, [], IfOk, OnOk, Some, option_map};
ghost use Rattle.search_query.specs.View.{view};
ghost use Rattle.search_words.specs.Lines.{at, fresh, all_of, any_of, signed, with_atom, word_over, form_asks, close, after, in_place, at_o, at_atom, at_between, spot_step, start, ends, line_asks};
ghost use Rattle.search_words.specs.declared.place.Spot.TheVariants.{Between as between, InO as in_o, InOr as in_or};
ghost use Rattle.std.specs.Char.{encode_utf8};
ghost use Rattle.search_words.specs.Characters.{wide_step, wide_on, wide_state, char_step};
ghost use Rattle.search_words.specs.Lines as lines;
ghost use Rattle.words_read.specs.Seen.{form_seen, forms_seen, seen, Steps, Goes, Ends};

use crate::joining::{joined, negated};
use blobref::NoMemory;
use search_query::{Constraint, Op};
use search_words::{Onward, Place, Spot, wide_step, word_asks, word_step};
use std::alloc::Global;
use std::mem::replace;

/// A form that is open, with what was read of it.
#[derive(Drop)]
pub(crate) struct Form {
    /// The and-forms before the last `or`.
    pub(crate) ors: Option<Constraint>,
    /// The units since then.
    pub(crate) ands: Option<Constraint>,
    /// Whether a `-` stands before the next atom.
    pub(crate) negated: bool,
}

/// What was read of a line.
#[derive(Drop)]
pub(crate) struct Reader {
    pub(crate) spot: Spot,
    pub(crate) form: Form,
    /// The other forms that are open, the innermost last.
    pub(crate) outer: Vec<Form>,
}

/// Why a reader doesn't go on.
pub(crate) enum Stop {
    /// No line begins so.
    Stuck,
    NoMemory,
}

impl From<NoMemory> for Stop {
    ghost use Rattle.std.specs.Prelude.{◌≡◌};
    ghost use Rattle.words_read.specs.declared.form.Stop.TheVariants.{NoMemory as OutOfMemory};

    ghost from_gives = { λ _ stop. stop ≡ OutOfMemory };

    fn from(_: NoMemory) -> Stop {
        Stop::NoMemory
    }
}

fn all_of(alloc: Global, ands: Option<Constraint>, unit: Constraint) -> Result<Constraint, NoMemory>
    ensures { IfOk result (λ c. view c ≡ all_of (option_map view ands) (view unit)) }
{
    match ands {
        None => Ok(unit),
        Some(ands) => joined(alloc, Op::And, ands, unit),
    }
}

fn any_of(alloc: Global, ors: Option<Constraint>, ands: Constraint) -> Result<Constraint, NoMemory>
    ensures { IfOk result (λ c. view c ≡ any_of (option_map view ors) (view ands)) }
{
    match ors {
        None => Ok(ands),
        Some(ors) => joined(alloc, Op::Or, ors, ands),
    }
}

fn signed(alloc: Global, minus: bool, atom: Constraint) -> Result<Constraint, NoMemory>
    ensures { IfOk result (λ c. view c ≡ signed minus (view atom)) }
{
    if minus {
        return negated(alloc, atom);
    }
    Ok(atom)
}

fn with_atom(alloc: Global, form: &mut Form, atom: Constraint) -> Result<(), NoMemory>
    ensures { OnOk result (form_seen form.new ≡ with_atom (view atom) (form_seen form.old)) }
{
    let unit = signed(alloc, form.negated, atom)?;
    let ands = all_of(alloc, form.ands.take(), unit)?;
    form.ands = Some(ands);
    form.negated = false;
    Ok(())
}

// What the form asks, where it may end. Nothing is left of it.
fn form_asks(alloc: Global, form: &mut Form) -> Result<Option<Constraint>, NoMemory>
    ensures { IfOk result (λ o. option_map view o ≡ form_asks (form_seen form.old)) }
{
    match form.ands.take() {
        None => Ok(None),
        Some(ands) => Ok(Some(any_of(alloc, form.ors.take(), ands)?)),
    }
}

fn push(outer: &mut Vec<Form>, form: Form) -> Result<(), NoMemory>
    ensures { OnOk result (forms_seen outer.new.items ≡ form_seen form ∷ forms_seen outer.old.items) }
{
    outer.push(form)?;
    Ok(())
}

// Each of these takes a character, or a part of what one leads to, and returns where the reading then is.

fn opened(form: &mut Form, outer: &mut Vec<Form>) -> Result<Spot, Stop>
    ensures { Steps (at between fresh (form_seen form.old ∷ forms_seen outer.old.items))
        (form_seen form.new) (forms_seen outer.new.items) result }
{
    let open = replace(
        form,
        Form {
            ors: None,
            ands: None,
            negated: false,
        },
    );
    push(outer, open)?;
    Ok(Spot::Between)
}

fn close_over(
    alloc: Global,
    asked: Constraint,
    form: &mut Form,
    outer: &mut Vec<Form>,
) -> Result<Spot, Stop>
    ensures { Steps (close (Some (view asked)) (forms_seen outer.old.items))
        (form_seen form.new) (forms_seen outer.new.items) result }
{
    let Some(open) = outer.pop() else {
        return Err(Stop::Stuck);
    };
    *form = open;
    with_atom(alloc, form, asked)?;
    Ok(Spot::Closed)
}

fn close(alloc: Global, form: &mut Form, outer: &mut Vec<Form>) -> Result<Spot, Stop>
    ensures { Steps (close (form_asks (form_seen form.old)) (forms_seen outer.old.items))
        (form_seen form.new) (forms_seen outer.new.items) result }
{
    match form_asks(alloc, form)? {
        None => Err(Stop::Stuck),
        Some(asked) => close_over(alloc, asked, form, outer),
    }
}

fn after(alloc: Global, byte: u8, form: &mut Form, outer: &mut Vec<Form>) -> Result<Spot, Stop>
    ensures { Steps (after byte (form_seen form.old) (forms_seen outer.old.items))
        (form_seen form.new) (forms_seen outer.new.items) result }
{
    match byte {
        b' ' => Ok(Spot::Between),
        b')' => close(alloc, form, outer),
        _ => Err(Stop::Stuck),
    }
}

fn word_over(
    alloc: Global,
    asked: Option<Constraint>,
    byte: u8,
    form: &mut Form,
    outer: &mut Vec<Form>,
) -> Result<Spot, Stop>
    ensures { Steps (word_over (option_map view asked) byte (form_seen form.old) (forms_seen outer.old.items))
        (form_seen form.new) (forms_seen outer.new.items) result }
{
    let Some(asked) = asked else {
        return Err(Stop::Stuck);
    };
    with_atom(alloc, form, asked)?;
    after(alloc, byte, form, outer)
}

fn in_place(
    alloc: Global,
    place: Place,
    byte: u8,
    form: &mut Form,
    outer: &mut Vec<Form>,
) -> Result<Spot, Stop>
    requires { byte < 128 }
    ensures { Steps (in_place place byte (form_seen form.old) (forms_seen outer.old.items))
        (form_seen form.new) (forms_seen outer.new.items) result }
{
    match word_step(alloc, place, byte)? {
        Onward::On(place) => Ok(Spot::InWord(place)),
        Onward::Off(place) => {
            let asked = word_asks(alloc, place)?;
            word_over(alloc, asked, byte, form, outer)
        }
    }
}

fn at_atom(alloc: Global, byte: u8, form: &mut Form, outer: &mut Vec<Form>) -> Result<Spot, Stop>
    requires { byte < 128 }
    ensures { Steps (at_atom byte (form_seen form.old) (forms_seen outer.old.items))
        (form_seen form.new) (forms_seen outer.new.items) result }
{
    if byte == b'(' {
        return opened(form, outer);
    }
    in_place(alloc, Place::Begins, byte, form, outer)
}

fn at_o(form: &Form) -> Result<Spot, Stop>
    ensures { (fs : List lines.Form) →
        Steps (at_o (form_seen form.now).ands (form_seen form.now) fs) (form_seen form.now) fs result }
{
    match form.ands {
        None => Err(Stop::Stuck),
        Some(_) => Ok(Spot::InO),
    }
}

fn between(alloc: Global, byte: u8, form: &mut Form, outer: &mut Vec<Form>) -> Result<Spot, Stop>
    requires { byte < 128 }
    ensures { Steps (at_between byte (form_seen form.old) (forms_seen outer.old.items))
        (form_seen form.new) (forms_seen outer.new.items) result }
{
    match byte {
        b' ' => Ok(Spot::Between),
        b')' => close(alloc, form, outer),
        b'-' => {
            form.negated = true;
            Ok(Spot::AtMinus)
        }
        b'o' => at_o(form),
        _ => at_atom(alloc, byte, form, outer),
    }
}

fn in_o(byte: u8) -> Result<Spot, Stop>
    ensures { (f : lines.Form) (fs : List lines.Form) → Steps (spot_step in_o byte f fs) f fs result }
{
    if byte != b'r' {
        return Err(Stop::Stuck);
    }
    Ok(Spot::InOr)
}

fn in_or(alloc: Global, byte: u8, form: &mut Form) -> Result<Spot, Stop>
    ensures { (fs : List lines.Form) →
        Steps (spot_step in_or byte (form_seen form.old) fs) (form_seen form.new) fs result }
{
    if byte != b' ' {
        return Err(Stop::Stuck);
    }
    let ors = form_asks(alloc, form)?;
    *form = Form {
        ors,
        ands: None,
        negated: false,
    };
    Ok(Spot::Between)
}

fn step(
    alloc: Global,
    spot: Spot,
    byte: u8,
    form: &mut Form,
    outer: &mut Vec<Form>,
) -> Result<Spot, Stop>
    requires { byte < 128 }
    ensures { Steps (spot_step spot byte (form_seen form.old) (forms_seen outer.old.items))
        (form_seen form.new) (forms_seen outer.new.items) result }
{
    match spot {
        Spot::Between => between(alloc, byte, form, outer),
        Spot::AtMinus => at_atom(alloc, byte, form, outer),
        Spot::InWord(place) => in_place(alloc, place, byte, form, outer),
        Spot::InO => in_o(byte),
        Spot::InOr => in_or(alloc, byte, form),
        Spot::Closed => after(alloc, byte, form, outer),
    }
}

// After a character beyond ASCII: only a text within a word goes on with it.
fn wide(alloc: Global, spot: Spot, c: char) -> Result<Spot, Stop>
    ensures { (f : lines.Form) (fs : List lines.Form) → Steps (wide_state (at spot f fs) (encode_utf8 c)) f fs result }
{
    match spot {
        Spot::InWord(place) => wide_word(alloc, place, c),
        Spot::Between | Spot::AtMinus | Spot::InO | Spot::InOr | Spot::Closed => Err(Stop::Stuck),
    }
}

fn wide_word(alloc: Global, place: Place, c: char) -> Result<Spot, Stop>
    ensures { (f : lines.Form) (fs : List lines.Form) →
        Steps (wide_on (wide_step place (encode_utf8 c)) f fs) f fs result }
{
    match wide_step(alloc, place, c)? {
        Some(place) => Ok(Spot::InWord(place)),
        None => Err(Stop::Stuck),
    }
}

fn spot_after(
    alloc: Global,
    spot: Spot,
    c: char,
    form: &mut Form,
    outer: &mut Vec<Form>,
) -> Result<Spot, Stop>
    ensures { Steps (char_step (at spot (form_seen form.old) (forms_seen outer.old.items)) c)
        (form_seen form.new) (forms_seen outer.new.items) result }
{
    if c.is_ascii() {
        step(alloc, spot, c as u8, form, outer)
    } else {
        wide(alloc, spot, c)
    }
}

impl Reader {
    /// At the beginning of a line.
    pub(crate) fn new(alloc: Global) -> Reader
        ensures { seen result ≡ start }
    {
        Reader {
            spot: Spot::Between,
            form: Form {
                ors: None,
                ands: None,
                negated: false,
            },
            outer: Vec::new(alloc),
        }
    }
}

/// One more character. After an error nothing is said of the reader.
pub(crate) fn next(alloc: Global, reader: &mut Reader, c: char) -> Result<(), Stop>
    ensures { Goes (char_step (seen reader.old) c) (seen reader.new) result }
{
    let spot = replace(&mut reader.spot, Spot::Between);
    reader.spot = spot_after(alloc, spot, c, &mut reader.form, &mut reader.outer)?;
    Ok(())
}

// Whether the line may end here, as far as the open form is concerned, which then has all that was read in it.
fn is_ended(alloc: Global, spot: Spot, form: &mut Form) -> Result<bool, NoMemory>
    ensures { IfOk result (λ is. Ends (ends spot (form_seen form.old)) (form_seen form.new) is) }
{
    match spot {
        Spot::Between | Spot::Closed => Ok(true),
        Spot::InWord(place) => match word_asks(alloc, place)? {
            None => Ok(false),
            Some(asked) => {
                with_atom(alloc, form, asked)?;
                Ok(true)
            }
        },
        Spot::AtMinus | Spot::InO | Spot::InOr => Ok(false),
    }
}

/// What the line asks, where it is one.
pub(crate) fn line_asks(alloc: Global, reader: Reader) -> Result<Option<Constraint>, NoMemory>
    ensures { IfOk result (λ o. option_map view o ≡ line_asks (seen reader)) }
{
    if !reader.outer.is_empty() {
        return Ok(None);
    }
    let mut form = reader.form;
    if !is_ended(alloc, reader.spot, &mut form)? {
        return Ok(None);
    }
    form_asks(alloc, &mut form)
}
